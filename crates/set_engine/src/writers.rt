//! Writers on whole views.

ghost use Rattle.std.specs.Prelude.{◌≡◌, ◌≤◌, ◌<◌, ◌+◌, ◌++◌, ℕ, List, [], length, option_map, true, false, None, Some, Err, IfErr, IfOk, OnOk};
ghost use Rattle.cloud_points.specs.Events.{is_device};
ghost use Rattle.cloud_points.specs.Flows.{points, upto};
ghost use Rattle.cloud_points.specs.Queue.{up_to_limit};
ghost use Rattle.cloud_points.specs.declared.faults.StageFault.TheVariants as stage;
ghost use Rattle.cloud_points.specs.declared.point.Point as point_type;
ghost use Rattle.file_devices.specs.Counts.{Rose};
ghost use Rattle.file_devices.specs.declared.devices.Op.{Op};
ghost use Rattle.set_engine.specs.Stops.{IsCaused, IsInside, IsStopAt, IsStopBehind, number_in};
ghost use Rattle.stage_kinds.specs.Files.{chosen, count_of, sink_of};
ghost use Rattle.stage_kinds.specs.Stages.{first_stop, holds_chosen, only_of, writes_of, writing_filter};
ghost use Rattle.stage_meanings.specs.Filtering.{filtered, filtered_stop, stop_in};
ghost use Rattle.whole_filters.specs.Held.{view_at};

use crate::output::StageOutput;
use cloud_points::StageFault;
use file_devices::{FileSink, Op};
use stage_kinds::{TakeErr, WriterStage};
use stage_meanings::Reason;
use std::alloc::AllocError;
use whole_filters::{Rows, Views};

/// Why a writer doesn't take all points of a view.
#[derive(Clone, Copy, Debug, PartialEq, Eq)]
enum WriteErr {
    /// It doesn't take the point at this place in the view, which has this number: points are counted over all views from 0 on.
    Refused(usize, u64, Reason),

    /// Its sink failed.
    Failed,
}

/// The view at which a writer stopped, and why.
#[derive(Clone, Copy, Debug, PartialEq, Eq)]
struct Halt {
    view: usize,
    why: WriteErr,
}

/// Has a writer take the points of a view, behind so many others. It answers how many stand before the next one; the numbers stand
/// at the greatest u64. It stops at the first point that the writer doesn't take.
fn write_view<K: FileSink>(
    writer: &mut WriterStage<K>,
    view: &Rows,
    before: u64,
) -> Result<u64, WriteErr>
    ensures ok { IfOk result (λ next. next ≡ up_to_limit (before + length view.now)) }
    ensures sound { OnOk result ((k : ℕ) → count_of writer.old.file ≡ up_to_limit k
        → first_stop (writes_of writer.old) (up_to_limit k) view.now ≡ None) }
    ensures inside { IfErr result (IsInside (length view.now)) }
    ensures err { IfErr result (λ e. (k : ℕ) → count_of writer.old.file ≡ up_to_limit k
        → IsStopBehind before (first_stop (writes_of writer.old) (up_to_limit k) view.now) e) }
    ensures count { OnOk result ((k : ℕ) → count_of writer.old.file ≡ up_to_limit k
        → count_of writer.new.file ≡ up_to_limit (k + length (chosen (only_of writer.old) view.now))) }
    ensures form { writes_of writer.new ≡ writes_of writer.old }
    ensures holds { OnOk result ((earlier : List point_type.Point)
        → holds_chosen K.bytes writer.old earlier ≡ true → holds_chosen K.bytes writer.new (earlier ++ view.now) ≡ true) }
    ensures failed { IfErr result (λ e. e ≡ WriteErr.Failed
        → Rose (K.faults (sink_of writer.old.file)) (K.faults (sink_of writer.new.file))) }
    ensures later { K.faults (sink_of writer.old.file) ≤ K.faults (sink_of writer.new.file) }
    ensures calm { (result ≡ Err WriteErr.Failed → ⊥)
        → K.faults (sink_of writer.new.file) ≡ K.faults (sink_of writer.old.file) }
{
    let mut number = before;
    for k in 0..view.len() {
        match writer.take(&view.get(k)) {
            Ok(()) => number = number.saturating_add(1),
            Err(TakeErr::Refused(reason)) => return Err(WriteErr::Refused(k, number, reason)),
            Err(TakeErr::Failed) => return Err(WriteErr::Failed),
        }
    }
    Ok(number)
}

/// Has a writer that wrote none yet take all points of whole views. It stops at the first one that the writer doesn't take.
fn write_all<K: FileSink>(writer: &mut WriterStage<K>, views: &Views) -> Result<(), Halt>
    ensures sound { OnOk result (count_of writer.old.file ≡ 0
        → stop_in (writing_filter (writes_of writer.old)) views.now ≡ None) }
    ensures view { IfErr result (λ halt. halt.view ≤ length views.now.views) }
    ensures inside { IfErr result (λ halt. IsInside (length (view_at views.now halt.view)) halt.why) }
    ensures err { IfErr result (λ halt. count_of writer.old.file ≡ 0
        → IsStopAt views.now halt.view (stop_in (writing_filter (writes_of writer.old)) views.now) halt.why) }
    ensures form { writes_of writer.new ≡ writes_of writer.old }
    ensures holds { OnOk result (holds_chosen K.bytes writer.old [] ≡ true
        → holds_chosen K.bytes writer.new (points views.now) ≡ true) }
    ensures failed { IfErr result (λ halt. halt.why ≡ WriteErr.Failed
        → Rose (K.faults (sink_of writer.old.file)) (K.faults (sink_of writer.new.file))) }
    ensures later { K.faults (sink_of writer.old.file) ≤ K.faults (sink_of writer.new.file) }
    ensures calm { OnOk result (K.faults (sink_of writer.new.file) ≡ K.faults (sink_of writer.old.file)) }
    ensures refused { IfErr result (λ halt. (halt.why ≡ WriteErr.Failed → ⊥)
        → K.faults (sink_of writer.new.file) ≡ K.faults (sink_of writer.old.file)) }
{
    let mut number = 0;
    for v in 0..views.views() {
        match write_view(writer, views.view(v), number) {
            Ok(next) => number = next,
            Err(why) => return Err(Halt { view: v, why }),
        }
    }
    let last = views.views();
    match write_view(writer, views.view(last), number) {
        Ok(_) => Ok(()),
        Err(why) => Err(Halt { view: last, why }),
    }
}

/// What stands before the point at this place of a view, cut off there.
fn before_point(views: &Views, view: usize, place: usize) -> Result<Views, AllocError>
    requires view { view ≤ length views.now.views }
    requires place { place < length (view_at views.now view) }
    ensures { IfOk result (λ given. given ≡ upto views.now (number_in views.now view place)) }
{
    let mut given = views.like();
    for v in 0..view {
        given.push_view(views.view(v))?;
        given.end_view()?;
    }
    given.push_first(views.view(view), place)?;
    given.set_cut();
    Ok(given)
}

/// What a writer gives on whose device failed: nothing, cut off.
fn write_failed(taken: &Views) -> StageOutput
    ensures { result.fault ≡ Some (stage.Device Op.Write) }
{
    let mut views = taken.like();
    views.set_cut();
    StageOutput {
        views,
        fault: Some(StageFault::Device(Op::Write)),
    }
}

/// Has a writer that wrote none yet take all points of whole views, up to the first one that it doesn't take. It gives on those that
/// stand before that one, cut off there, and all where it takes all. Refuses for want of memory alone.
pub(crate) fn written_views<K: FileSink>(
    writer: &mut WriterStage<K>,
    views: Views,
) -> Result<StageOutput, AllocError>
    ensures fault { IfOk result (λ given. is_device given.fault ≡ false → count_of writer.old.file ≡ 0
        → given.fault ≡ option_map stage.Point (filtered_stop (writing_filter (writes_of writer.old)) views)) }
    ensures value { IfOk result (λ given. is_device given.fault ≡ false → count_of writer.old.file ≡ 0
        → given.views ≡ filtered (writing_filter (writes_of writer.old)) views) }
    ensures form { writes_of writer.new ≡ writes_of writer.old }
    ensures holds { IfOk result (λ given. given.fault ≡ None
        → holds_chosen K.bytes writer.old [] ≡ true → holds_chosen K.bytes writer.new (points views) ≡ true) }
    ensures caused { IfOk result (λ given. IsCaused (Some Op.Write)
        (K.faults (sink_of writer.old.file)) (K.faults (sink_of writer.new.file)) given.fault) }
    ensures later { K.faults (sink_of writer.old.file) ≤ K.faults (sink_of writer.new.file) }
{
    let Err(halt) = write_all(writer, &views) else {
        return Ok(StageOutput { views, fault: None });
    };
    match halt.why {
        WriteErr::Refused(place, number, reason) => Ok(StageOutput {
            views: before_point(&views, halt.view, place)?,
            fault: Some(StageFault::Point(reason.at(number))),
        }),
        WriteErr::Failed => Ok(write_failed(&views)),
    }
}
