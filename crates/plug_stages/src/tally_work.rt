//! The work of a tally's stage.

ghost use Rattle.std.specs.Prelude.{◌≡◌, ◌≤◌, None, Some, Ok, OnOk, OnErr, IfErr, true, false, take, length};
ghost use Rattle.cloud_points.specs.Events.{is_device, IsOf};
ghost use Rattle.stage_meanings.specs.Steps.{given, reached, stopped};
ghost use Rattle.plug_stages.specs.Printing.{are_printable};
ghost use Rattle.plug_stages.specs.Works.{IsSameTally, tally_meaning, tally_spot, tally_steps_in};

use crate::{PlugTally, TallySpot};
use arrayvec::ArrayString;
use cloud_points::{Point, Spread, StageFault};
use expr_eval::Bound;
use stream_filters::{fault_at, passes};

/// Shows a tally the points that pass its stage's `where`, and lets all go on as they are.
#[derive(Drop)]
pub struct TallyWork<T: PlugTally> {
    tally: T,
    place: usize,
    only: Option<Bound>,
    number: u64,
    shown: u64,
}

impl<T: PlugTally> TallyWork<T> {
    /// Of this tally, from this place among those that the caller handed in, which begins, for the points for which the
    /// `where` holds; all where there is none.
    pub fn new(mut tally: T, place: usize, only: Option<Bound>) -> TallyWork<T>
        ensures called { T.called result.tally ≡ T.called tally }
        ensures opening { T.opening result.tally ≡ T.opening tally }
        ensures step { T.step result.tally ≡ T.step tally }
        ensures text { T.text result.tally ≡ T.text tally }
        ensures state { T.state result.tally ≡ T.opening tally }
        ensures place { result.place ≡ place }
        ensures only { result.only ≡ only }
        ensures none { (result.number ≡ 0) × (result.shown ≡ 0) }
    {
        tally.begin();
        TallyWork {
            tally,
            place,
            only,
            number: 0,
            shown: 0,
        }
    }

    /// The tally and its place, with the stage ended.
    pub fn into_parts(self) -> (T, usize)
        ensures { (result.0 ≡ self.tally) × (result.1 ≡ self.place) }
    {
        let TallyWork {
            tally,
            place,
            only: _,
            number: _,
            shown: _,
        } = self;
        (tally, place)
    }

    /// What the tally is called: at most 64 bytes.
    pub fn name(&self) -> &str
        ensures name { result.now ≡ T.called self.now.tally }
        ensures short { length (T.called self.now.tally) ≤ 64 }
    {
        self.tally.name()
    }

    /// How many points the tally was shown, up to the greatest u64.
    pub fn shown(&self) -> u64
        ensures { result ≡ self.now.shown }
    {
        self.shown
    }

    /// Puts what the tally says in the end in place of what `out` held: at most 256 printable ASCII bytes.
    pub fn close(&self, out: &mut ArrayString<256>)
        ensures text { out.new.bytes ≡ T.text self.now.tally (T.state self.now.tally) }
        ensures short { length out.new.bytes ≤ 256 }
        ensures printable { are_printable out.new.bytes ≡ true }
    {
        self.tally.close(out);
    }

    /// Shows it the next point, if that passes. Behind a fault the work stands where it stood.
    fn show(&mut self, p: &Point) -> Result<(), StageFault>
        ensures same { IsSameTally T.PlugTally self.old self.new }
        ensures sound { OnOk result ((tally_steps_in T.PlugTally self.old).fault (tally_spot T.PlugTally self.old) p.now
            ≡ None) }
        ensures next { OnOk result (tally_spot T.PlugTally self.new
            ≡ (tally_steps_in T.PlugTally self.old).next (tally_spot T.PlugTally self.old) p.now) }
        ensures fault { IfErr result (λ f. (tally_steps_in T.PlugTally self.old).fault (tally_spot T.PlugTally self.old) p.now
            ≡ Some f) }
        ensures stays { OnErr result (tally_spot T.PlugTally self.new ≡ tally_spot T.PlugTally self.old) }
    {
        match passes(&self.only, p) {
            Err(reason) => Err(fault_at(self.number, reason)),
            Ok(passed) => {
                if passed {
                    self.tally.point(p);
                    self.shown = self.shown.saturating_add(1);
                }
                self.number = self.number.saturating_add(1);
                Ok(())
            }
        }
    }

    /// Shows it the points one after the other, up to the first fault; answered are how many stand before that, and the fault.
    fn show_each(&mut self, points: &[Point]) -> (usize, Option<StageFault>)
        ensures same { IsSameTally T.PlugTally self.old self.new }
        ensures gives { take result.0 points.now
            ≡ given (tally_steps_in T.PlugTally self.old) (tally_spot T.PlugTally self.old) points.now }
        ensures reaches { tally_spot T.PlugTally self.new
            ≡ reached (tally_steps_in T.PlugTally self.old) (tally_spot T.PlugTally self.old) points.now }
        ensures stops { result.1
            ≡ stopped (tally_steps_in T.PlugTally self.old) (tally_spot T.PlugTally self.old) points.now }
    {
        for at in 0..points.len() {
            match self.show(&points[at]) {
                Ok(()) => {}
                Err(fault) => return (at, Some(fault)),
            }
        }
        (points.len(), None)
    }

    /// Shows it the points, which go on; behind a fault these are the points before it.
    #[tactic(auto, using(crate::proofs::SameTally::same_tally_meaning, crate::proofs::NoDevice::tallies_have_no_device, crate::proofs::NoDevice::tallies_name_no_device))]
    pub fn turn(&mut self, points: &mut Spread) -> Option<StageFault>
        ensures meaning { tally_meaning T.PlugTally self.new ≡ tally_meaning T.PlugTally self.old }
        ensures spot { tally_spot T.PlugTally self.new
            ≡ (tally_meaning T.PlugTally self.old).after (tally_spot T.PlugTally self.old) points.old.items }
        ensures points { points.new.items
            ≡ (tally_meaning T.PlugTally self.old).emit (tally_spot T.PlugTally self.old) points.old.items }
        ensures fault { result
            ≡ (tally_meaning T.PlugTally self.old).fault (tally_spot T.PlugTally self.old) points.old.items }
        ensures no_device { is_device result ≡ false }
        ensures unnamed { IsOf None result }
    {
        let (kept, fault) = self.show_each(points.as_slice());
        points.truncate(kept);
        fault
    }
}
