//! A file that is being written.

ghost use Rattle.std.specs.Prelude.{◌≡◌, ◌≤◌, ◌+◌, ◌++◌, List, Some, None, Err, true, length, IfOk, IfErr, OnOk, OnErr};
ghost use Rattle.cloud_points.specs.Queue.{up_to_limit};
ghost use Rattle.cloud_points.specs.declared.point.Point as point_type;
ghost use Rattle.file_devices.specs.Counts.{HasCause, Rose};
ghost use Rattle.file_devices.specs.Told.{IsAsTold};
ghost use Rattle.stage_kinds.specs.Files.{IsFileForm, IsUnwritten, count_of, file_bytes, file_form, file_holds, finishing_op, first_unwritten, reason_of_record, sink_of};
ghost use Rattle.stage_meanings.specs.Filters.{points_before};

use crate::FileForm;
use cloud_points::{MOST_POINTS, Point};
use file_devices::{Failed, FileSink, Op};
use las_writer::{ChunkErr, LasWriter, RecordFault};
use stage_meanings::Reason;
use text_writer::TextWriter;

/// A file that is being written, with what stands before its points.
pub enum FileWriter<K: FileSink> {
    /// Lines of text, and how many points stand in them.
    Text(TextWriter<K>, u64),

    /// A LAS file.
    Las(LasWriter<K>),
}

/// Why points aren't written.
#[derive(Clone, Copy, Debug, PartialEq, Eq)]
pub(crate) enum PutErr {
    /// The point at this place among them has no place in the file.
    Refused(usize, Reason),

    /// The sink failed.
    Failed,
}

/// Why a LAS file has no place for a point, as the reason of a stage.
pub(crate) fn reason_of(fault: RecordFault) -> Reason
    ensures { result ≡ reason_of_record fault }
{
    match fault {
        RecordFault::TooMany => Reason::TooMany,
        RecordFault::NotHeld(dim) => Reason::NotHeld(dim),
        RecordFault::ValueOutOfRange(dim) => Reason::OutOfRange(dim),
    }
}

impl<K: FileSink> FileWriter<K> {
    /// How many points were written; the count stands at the greatest u64.
    pub(crate) fn count(&self) -> u64
        ensures { result ≡ count_of self.now }
    {
        match self {
            FileWriter::Text(_, count) => *count,
            FileWriter::Las(writer) => writer.count(),
        }
    }

    /// Writes the points, in their order.
    ///
    /// It is `Refused` exactly where one of them has no place in the file behind those that were written, with the first such one, and
    /// writes none then. It is `Failed` only where the sink failed.
    pub(crate) fn put(&mut self, points: &[Point]) -> Result<(), PutErr>
        requires { length points.now ≤ MOST_POINTS }
        ensures ok { OnOk result (first_unwritten (file_form self.old) (count_of self.old) points.now ≡ None) }
        ensures err { IfErr result (IsUnwritten
            (first_unwritten (file_form self.old) (count_of self.old) points.now)) }
        ensures holds { OnOk result ((before : List point_type.Point)
            → file_holds K.bytes self.old before ≡ true → file_holds K.bytes self.new (before ++ points.now) ≡ true) }
        ensures form { file_form self.new ≡ file_form self.old }
        ensures count { OnOk result (count_of self.new ≡ up_to_limit (count_of self.old + length points.now)) }
        ensures uncounted { OnErr result (count_of self.new ≡ count_of self.old) }
        ensures failed { IfErr result (λ e. e ≡ PutErr.Failed
            → Rose (K.faults (sink_of self.old)) (K.faults (sink_of self.new))) }
        ensures later { K.faults (sink_of self.old) ≤ K.faults (sink_of self.new) }
        ensures calm { (result ≡ Err PutErr.Failed → ⊥)
            → K.faults (sink_of self.new) ≡ K.faults (sink_of self.old) }
    {
        match self {
            FileWriter::Text(writer, count) => match writer.put(points) {
                Ok(()) => {
                    *count = count.saturating_add(points.len() as u64);
                    Ok(())
                }
                Err(_) => Err(PutErr::Failed),
            },
            FileWriter::Las(writer) => match writer.put_all(points) {
                Ok(()) => Ok(()),
                Err(ChunkErr::Refused(refused)) => Err(PutErr::Refused(
                    refused.at,
                    reason_of(refused.why),
                )),
                Err(ChunkErr::Failed) => Err(PutErr::Failed),
            },
        }
    }

    /// Writes the points before the first that has no place in the file behind those that were written, and answers that one's place
    /// among them, and why it has none. It is refused only where the sink failed.
    pub(crate) fn put_up_to(&mut self, points: &[Point]) -> Result<Option<(usize, Reason)>, Failed>
        requires { length points.now ≤ MOST_POINTS }
        ensures stop { IfOk result (λ stop. stop
            ≡ first_unwritten (file_form self.old) (count_of self.old) points.now) }
        ensures holds { IfOk result (λ stop. stop ≡ None → (before : List point_type.Point)
            → file_holds K.bytes self.old before ≡ true → file_holds K.bytes self.new (before ++ points.now) ≡ true) }
        ensures form { file_form self.new ≡ file_form self.old }
        ensures count { IfOk result (λ stop. count_of self.new
            ≡ up_to_limit (count_of self.old + length (points_before stop points.now))) }
        ensures failed { OnErr result (Rose (K.faults (sink_of self.old)) (K.faults (sink_of self.new))) }
        ensures later { K.faults (sink_of self.old) ≤ K.faults (sink_of self.new) }
        ensures calm { OnOk result (K.faults (sink_of self.new) ≡ K.faults (sink_of self.old)) }
    {
        match self.put(points) {
            Ok(()) => Ok(None),
            Err(PutErr::Failed) => Err(Failed),
            Err(PutErr::Refused(at, why)) => match self.put(&points[..at]) {
                Ok(()) => Ok(Some((at, why))),
                Err(PutErr::Failed) => Err(Failed),
                Err(PutErr::Refused(_, _)) => unreachable!(),
            },
        }
    }

    /// Makes the file whole: a text writer's sink writes what it holds back, and a LAS writer appends its EVLRs and puts the totals
    /// of its points into the header.
    ///
    /// It is refused only where the sink failed, by `Op::Write` for text and by `Op::Patch` for LAS. What the sink holds then is
    /// no file.
    pub(crate) fn finish(&mut self) -> Result<(), Op>
        ensures file { OnOk result ((points : List point_type.Point) → file_holds K.bytes self.old points ≡ true
            → first_unwritten (file_form self.old) 0 points ≡ None
            → IsAsTold (K.bytes (sink_of self.new)) (Some (file_bytes (file_form self.old) points))) }
        ensures form { file_form self.new ≡ file_form self.old }
        ensures named { IfErr result (λ op. op ≡ finishing_op (file_form self.old)) }
        ensures cause { HasCause (K.faults (sink_of self.old)) (K.faults (sink_of self.new)) result }
    {
        match self {
            FileWriter::Text(writer, _) => match writer.finish() {
                Ok(()) => Ok(()),
                Err(_) => Err(Op::Write),
            },
            FileWriter::Las(writer) => match writer.finish() {
                Ok(()) => Ok(()),
                Err(failed) => Err(failed.op()),
            },
        }
    }

    /// The sink, with the file ended.
    pub(crate) fn release(self) -> K
        ensures { result ≡ sink_of self }
    {
        self.into_parts().0
    }

    /// The sink, and the form of the file, with the file ended.
    pub(crate) fn into_parts(self) -> (K, FileForm)
        ensures sink { result.0 ≡ sink_of self }
        ensures form { result.1 ≡ file_form self }
        ensures decided { IsFileForm result.1 }
    {
        match self {
            FileWriter::Text(writer, _) => {
                let (sink, form) = writer.into_parts();
                (sink, FileForm::Text(form))
            }
            FileWriter::Las(writer) => {
                let (sink, form) = writer.into_parts();
                (sink, FileForm::Las(form))
            }
        }
    }
}
