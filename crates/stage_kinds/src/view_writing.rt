//! The file of one view is written.

ghost use Rattle.std.specs.Prelude.{◌≡◌, ◌≤◌, ◌++◌, [], List, Some, true, IfErr, IfOk, OnOk};
ghost use Rattle.cloud_points.specs.declared.point.Point as point_type;
ghost use Rattle.file_devices.specs.Counts.{HasCause, Rose};
ghost use Rattle.file_devices.specs.Told.{IsAsTold};
ghost use Rattle.file_devices.specs.declared.devices.Op as op_type;
ghost use Rattle.stage_kinds.specs.Begins.{view_err_of};
ghost use Rattle.stage_kinds.specs.Files.{IsFileForm, chosen, file_bytes, sink_of};
ghost use Rattle.stage_kinds.specs.Stages.{holds_chosen, stops_nowhere, writes_of};
ghost use Rattle.stage_kinds.specs.Views.{IsWritingOp};

use crate::beginning::begin_stage;
use crate::{FileBeginErr, WriterStage, Writing};
use cloud_points::{MOST_POINTS, Spread, StageFault};
use file_devices::{Failed, FileSink, Op};
use std::alloc::Global;
use whole_filters::Rows;

/// Why the file of a view isn't written.
#[derive(Clone, Copy, Debug, PartialEq, Eq)]
pub enum ViewErr {
    /// The sink failed in this.
    Failed(Op),

    /// There was no memory.
    Memory,
}

impl From<FileBeginErr> for ViewErr {
    ghost from_gives = { λ e mine. mine ≡ view_err_of e };

    fn from(e: FileBeginErr) -> ViewErr {
        match e {
            FileBeginErr::Failed => ViewErr::Failed(Op::Write),
            FileBeginErr::Memory => ViewErr::Memory,
        }
    }
}

/// Has a writer take the points of a chunk. It is refused only where the sink failed.
fn put_chunk<K: FileSink>(writer: &mut WriterStage<K>, points: &mut Spread) -> Result<(), Failed>
    ensures form { writes_of writer.new ≡ writes_of writer.old }
    ensures holds { OnOk result ((before : List point_type.Point) → holds_chosen K.bytes writer.old before ≡ true
        → holds_chosen K.bytes writer.new (before ++ points.old.items) ≡ true) }
    ensures cause { HasCause (K.faults (sink_of writer.old.file)) (K.faults (sink_of writer.new.file)) result }
{
    match writer.on_chunk(points) {
        Some(StageFault::Device(_)) => Err(Failed),
        _calm => Ok(()),
    }
}

/// Has a writer take all points of a view, a chunk at a time, in `points`. It is refused only where the sink failed.
fn put_rows<K: FileSink>(
    writer: &mut WriterStage<K>,
    view: &Rows,
    points: &mut Spread,
) -> Result<(), Failed>
    ensures form { writes_of writer.new ≡ writes_of writer.old }
    ensures holds { OnOk result ((before : List point_type.Point) → holds_chosen K.bytes writer.old before ≡ true
        → holds_chosen K.bytes writer.new (before ++ view.now) ≡ true) }
    ensures cause { HasCause (K.faults (sink_of writer.old.file)) (K.faults (sink_of writer.new.file)) result }
{
    let mut at = 0;
    while at < view.len() {
        let count = (view.len() - at).min(MOST_POINTS);
        view.copy_into(at, count, points);
        put_chunk(writer, points)?;
        at += count;
    }
    Ok(())
}

/// Has a writer take all points of a view, and makes its file whole. It is refused only where the sink failed, by this.
fn write_rows<K: FileSink>(
    writer: &mut WriterStage<K>,
    view: &Rows,
    points: &mut Spread,
) -> Result<(), Op>
    requires nowhere { stops_nowhere (writes_of writer.old) view.now ≡ true }
    ensures form { writes_of writer.new ≡ writes_of writer.old }
    ensures file { OnOk result (holds_chosen K.bytes writer.old [] ≡ true → IsAsTold (K.bytes (sink_of writer.new.file))
        (Some (file_bytes (writes_of writer.old).form (chosen (writes_of writer.old).only view.now)))) }
    ensures named { IfErr result (IsWritingOp (writes_of writer.old).form) }
    ensures cause { HasCause (K.faults (sink_of writer.old.file)) (K.faults (sink_of writer.new.file)) result }
{
    match put_rows(writer, view, points) {
        Ok(()) => writer.file.finish(),
        Err(Failed) => Err(Op::Write),
    }
}

/// Writes the file of a view onto a sink to which nothing was appended: what stands in front of its points, those that are to be
/// written, and what stands behind them. Each of these has its place in the file. The sink comes back, and what is written of each
/// view.
///
/// It is `Failed` only where the sink failed, and `Memory` only where there is none for what is held of the points.
pub fn write_view<K: FileSink>(
    alloc: Global,
    sink: K,
    writing: Writing,
    view: &Rows,
) -> Result<(K, Writing), (K, ViewErr)>
    requires form { IsFileForm writing.form }
    requires nowhere { stops_nowhere writing view.now ≡ true }
    ensures file { IfOk result (λ w. IsAsTold (K.bytes sink) (Some [])
        → IsAsTold (K.bytes w.0) (Some (file_bytes writing.form (chosen writing.only view.now)))) }
    ensures writing { IfOk result (λ w. w.1 ≡ writing) }
    ensures calm { IfOk result (λ w. K.faults w.0 ≡ K.faults sink) }
    ensures failed { IfErr result (λ e. (o : op_type.Op) → e.1 ≡ ViewErr.Failed o
        → IsWritingOp writing.form o × Rose (K.faults sink) (K.faults e.0)) }
    ensures count { IfErr result (λ e. K.faults sink ≤ K.faults e.0) }
{
    let Ok(mut points) = Box::new(alloc, Spread::new()) else {
        return Err((sink, ViewErr::Memory));
    };
    let mut writer = match begin_stage(alloc, sink, writing) {
        Ok(writer) => writer,
        Err((sink, e)) => return Err((sink, e.into())),
    };
    match write_rows(&mut writer, view, &mut points) {
        Ok(()) => Ok(writer.into_parts()),
        Err(op) => Err((writer.release(), ViewErr::Failed(op))),
    }
}
