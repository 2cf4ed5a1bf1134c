//! A writer as a stage's work.

ghost use Rattle.std.specs.Prelude.{◌≡◌, ◌≤◌, ◌+◌, ◌++◌, ◌∷◌, List, [], Some, None, Err, true, false, length, option_map, IfOk, IfErr, IfSome, OnOk, OnErr};
ghost use Rattle.cloud_points.specs.Queue.{up_to_limit};
ghost use Rattle.cloud_points.specs.Events.{is_device, IsOf};
ghost use Rattle.cloud_points.specs.declared.point.Point as point_type;
ghost use Rattle.file_devices.specs.Counts.{Rose};
ghost use Rattle.file_devices.specs.declared.devices.Op as op_type;
ghost use Rattle.stage_meanings.specs.Admitting.{told_behind};
ghost use Rattle.stage_meanings.specs.ByRule.{IsWithin};
ghost use Rattle.stage_meanings.specs.Filters.{points_before};
ghost use Rattle.stage_meanings.specs.Steps.{given, reached, stopped};
ghost use Rattle.stage_kinds.specs.Files.{chosen, count_of, file_form, file_holds, sink_of};
ghost use Rattle.stage_kinds.specs.Stages.{first_stop, holds_chosen, only_of, spot_in, why_not, writes_of, writing_steps};
ghost use Rattle.stage_kinds.specs.Takes.{IsUntaken, take_err_of};
ghost use Rattle.stage_meanings.specs.Conditions.{passes};

use crate::Writing;
use crate::file_writer::{FileWriter, PutErr};
use cloud_points::{MOST_POINTS, Point, Spread, StageFault};
use expr_eval::holds;
use file_devices::{Failed, FileSink, Op};
use stage_meanings::Reason;
use stream_filters::WriterWhere;

/// Why a writer doesn't take a point.
#[derive(Clone, Copy, Debug, PartialEq, Eq)]
pub enum TakeErr {
    /// Its `where` has no value for the point, or the point has no place in the file.
    Refused(Reason),

    /// The sink failed.
    Failed,
}

impl From<Reason> for TakeErr {
    ghost use Rattle.stage_kinds.specs.declared.writer_stage.TakeErr.TheVariants.{Refused};

    ghost from_gives = { λ reason e. e ≡ Refused reason };

    fn from(reason: Reason) -> TakeErr {
        TakeErr::Refused(reason)
    }
}

impl From<PutErr> for TakeErr {
    ghost from_gives = { λ e mine. mine ≡ take_err_of e };

    fn from(e: PutErr) -> TakeErr {
        match e {
            PutErr::Refused(_, reason) => TakeErr::Refused(reason),
            PutErr::Failed => TakeErr::Failed,
        }
    }
}

/// Writes the points for which its `where` holds, and lets all points pass, up to the first at which that has no value or that has no
/// place in the file.
pub struct WriterStage<K: FileSink> {
    pub(crate) file: FileWriter<K>,
    pub(crate) taken: WriterWhere,
    // Room for those that are written of a chunk.
    pub(crate) chosen: Box<Spread>,
}

impl<K: FileSink> WriterStage<K> {
    /// What the types of its numbers say of where its next point stands. It does nothing.
    fn known_spot(&self)
        ensures { IsWithin (spot_in self.now) }
    {
        let _number = self.taken.number();
        let _place = self.file.count();
    }

    /// Writes those of the points for which the `where` holds, up to the first at which it stops, and answers that one's place among
    /// them, and why. It is refused only where the sink failed.
    fn put_chosen(&mut self, points: &[Point]) -> Result<Option<(usize, Reason)>, Failed>
        requires { length points.now ≤ MOST_POINTS }
        ensures stop { IfOk result (λ stop. stop
            ≡ first_stop (writes_of self.old) (count_of self.old.file) points.now) }
        ensures holds { IfOk result (λ stop. stop ≡ None → (before : List point_type.Point) → file_holds K.bytes self.old.file before ≡ true
            → file_holds K.bytes self.new.file (before ++ chosen (only_of self.old) points.now) ≡ true) }
        ensures form { file_form self.new.file ≡ file_form self.old.file }
        ensures count { IfOk result (λ stop. count_of self.new.file
            ≡ up_to_limit (count_of self.old.file + length (chosen (only_of self.old) (points_before stop points.now)))) }
        ensures taken { self.new.taken ≡ self.old.taken }
        ensures failed { OnErr result (Rose (K.faults (sink_of self.old.file))
            (K.faults (sink_of self.new.file))) }
        ensures later { K.faults (sink_of self.old.file) ≤ K.faults (sink_of self.new.file) }
        ensures calm { OnOk result (K.faults (sink_of self.new.file) ≡ K.faults (sink_of self.old.file)) }
    {
        if self.taken.only().is_none() {
            return self.file.put_up_to(points);
        }
        let unjudged = self.taken.choose(points, &mut self.chosen);
        match self.file.put_up_to(self.chosen.as_slice())? {
            None => Ok(unjudged),
            Some((at, why)) => match self.taken.place_of(points, at) {
                Some(place) => Ok(Some((place, why))),
                None => unreachable!(),
            },
        }
    }

    /// Whether it writes a point: whether its `where` holds.
    fn chooses(&self, p: &Point) -> Result<bool, Reason>
        ensures { result ≡ passes (only_of self.now) p.now }
    {
        match self.taken.only() {
            None => Ok(true),
            Some(condition) => Ok(holds(condition, p)?),
        }
    }

    /// Takes one point: writes it, if its `where` holds.
    ///
    /// It is `Refused` exactly where its `where` has no value for the point, or holds and the point has no place in the file behind
    /// those that were written. It is `Failed` only where the sink failed.
    pub fn take(&mut self, p: &Point) -> Result<(), TakeErr>
        ensures form { writes_of self.new ≡ writes_of self.old }
        ensures ok { OnOk result (why_not (writes_of self.old) (count_of self.old.file) p.now ≡ None) }
        ensures err { IfErr result (IsUntaken (why_not (writes_of self.old) (count_of self.old.file) p.now)) }
        ensures count { OnOk result (count_of self.new.file
            ≡ up_to_limit (count_of self.old.file + length (chosen (only_of self.old) (p.now ∷ [])))) }
        ensures holds { OnOk result ((before : List point_type.Point)
            → holds_chosen K.bytes self.old before ≡ true → holds_chosen K.bytes self.new (before ++ p.now ∷ []) ≡ true) }
        ensures failed { IfErr result (λ e. e ≡ TakeErr.Failed
            → Rose (K.faults (sink_of self.old.file)) (K.faults (sink_of self.new.file))) }
        ensures later { K.faults (sink_of self.old.file) ≤ K.faults (sink_of self.new.file) }
        ensures calm { (result ≡ Err TakeErr.Failed → ⊥)
            → K.faults (sink_of self.new.file) ≡ K.faults (sink_of self.old.file) }
    {
        self.known_spot();
        if self.chooses(p)? {
            self.file.put(&[*p])?;
        }
        Ok(())
    }

    /// Goes on behind the points before the one at which it stops, which are left, and answers its fault there.
    fn end_at(&mut self, points: &mut Spread, stop: Option<(usize, Reason)>) -> Option<StageFault>
        requires { IfSome stop (λ s. s.0 ≤ length points.old.items) }
        ensures points { points.new.items ≡ points_before stop points.old.items }
        ensures number { self.new.taken.number
            ≡ up_to_limit (self.old.taken.number + length (points_before stop points.old.items)) }
        ensures only { only_of self.new ≡ only_of self.old }
        ensures file { self.new.file ≡ self.old.file }
        ensures fault { result ≡ option_map (told_behind self.old.taken.number) stop }
    {
        let Some((at, why)) = stop else {
            self.taken.go_on(points.len());
            return None;
        };
        points.truncate(at);
        self.taken.go_on(at);
        Some(StageFault::Point(why.at(self.taken.number())))
    }

    /// Writes the points for which the `where` holds, up to the first at which it stops, and lets those before it pass.
    pub(crate) fn on_chunk(&mut self, points: &mut Spread) -> Option<StageFault>
        ensures form { writes_of self.new ≡ writes_of self.old }
        ensures spot { is_device result ≡ false
            → spot_in self.new ≡ reached (writing_steps (writes_of self.old)) (spot_in self.old)
            points.old.items }
        ensures points { is_device result ≡ false
            → points.new.items ≡ given (writing_steps (writes_of self.old)) (spot_in self.old)
            points.old.items }
        ensures fault { is_device result ≡ false
            → result ≡ stopped (writing_steps (writes_of self.old)) (spot_in self.old) points.old.items }
        ensures event { is_device result ≡ true → points.new.items ≡ [] }
        ensures holds { is_device result ≡ false → (before : List point_type.Point)
            → holds_chosen K.bytes self.old before ≡ true → holds_chosen K.bytes self.new (before ++ points.old.items) ≡ true }
        ensures cause { is_device result ≡ true
            → Rose (K.faults (sink_of self.old.file)) (K.faults (sink_of self.new.file)) }
        ensures named { IsOf (Some op_type.Op.Write) result }
        ensures later { K.faults (sink_of self.old.file) ≤ K.faults (sink_of self.new.file) }
        ensures calm { is_device result ≡ false
            → K.faults (sink_of self.new.file) ≡ K.faults (sink_of self.old.file) }
    {
        self.known_spot();
        match self.put_chosen(points.as_slice()) {
            Ok(stop) => self.end_at(points, stop),
            Err(Failed) => {
                points.clear();
                Some(StageFault::Device(Op::Write))
            }
        }
    }

    /// The sink, with the writer ended.
    pub(crate) fn release(self) -> K
        ensures { result ≡ sink_of self.file }
    {
        self.into_parts().0
    }

    /// The sink, and what is written, with the writer ended.
    pub(crate) fn into_parts(self) -> (K, Writing)
        ensures sink { result.0 ≡ sink_of self.file }
        ensures writing { result.1 ≡ writes_of self }
    {
        let WriterStage {
            file,
            taken,
            chosen: _,
        } = self;
        let (sink, form) = file.into_parts();
        let only = taken.into_only();
        (sink, Writing { form, only })
    }
}
