//! The steps of a file, each with the operation that is told where its device fails.

ghost use Rattle.std.specs.Prelude.{◌≡◌, ◌⊎◌, ◌≤◌, ◌+◌, ◌-◌, ◌++◌, ◌∷◌, [], List, Some, None, true, length, option_map, IfOk, IfErr, OnOk, OnErr};
ghost use Rattle.cloud_points.specs.declared.point.Point.{Point};
ghost use Rattle.file_devices.specs.Counts.{HasCause, Rose};
ghost use Rattle.file_devices.specs.Named.{kept};
ghost use Rattle.file_devices.specs.Told.{IsAsTold};
ghost use Rattle.file_devices.specs.declared.devices.Op as op_type;
ghost use Rattle.las_writer.specs.Holding.{holds_las};
ghost use Rattle.las_writer.specs.LasOutput.{IsForm, las_output};
ghost use Rattle.las_writer.specs.Records.{refusal};
ghost use Rattle.cloud_gen.specs.GeneratedFile.{StopsAt};

use crate::GenerateError;
use cloud_points::{MOST_POINTS, Point};
use file_devices::{DeviceErr, FileSink, Files, Op};
use forward_rules::LasForm;
use las_writer::{ChunkErr, LasBeginErr, LasWriter};
use std::alloc::Global;

/// Creates the file.
pub(crate) fn create_file<F: Files>(files: &mut F, name: &str) -> Result<F::Out, GenerateError>
    ensures empty { IfOk result (λ sink. IsAsTold (F.Out.bytes sink) (Some [])) }
    ensures fresh { IfOk result (λ sink. F.Out.faults sink ≡ 0) }
    ensures err { IfErr result (StopsAt op_type.Op.Create (Rose (F.faults files.old) (F.faults files.new))) }
    ensures map { F.map files.new ≡ F.map files.old }
    ensures lent { OnOk result (F.lent files.new ≡ F.lent files.old + 1) }
    ensures not_lent { OnErr result (F.lent files.new ≡ F.lent files.old) }
    ensures counts { F.counts files.new ≡ F.counts files.old }
    ensures later { F.faults files.old ≤ F.faults files.new }
{
    match files.create(name) {
        Ok(sink) => Ok(sink),
        Err(DeviceErr::Memory) => Err(GenerateError::Memory),
        Err(_) => Err(GenerateError::Device(Op::Create)),
    }
}

/// Begins the file on a sink to which nothing was appended. A refusal gives the sink back.
pub(crate) fn begin_file<K: FileSink>(
    alloc: Global,
    sink: K,
    form: LasForm,
) -> Result<LasWriter<K>, (K, GenerateError)>
    requires { IsForm form }
    ensures holds { IfOk result (λ w. IsAsTold (K.bytes sink) (Some [])
        → holds_las (K.bytes w.sink) form w.totals [] ≡ true) }
    ensures form { IfOk result (λ w. w.form ≡ form) }
    ensures calm { IfOk result (λ w. K.faults w.sink ≡ K.faults sink) }
    ensures err { IfErr result (λ e. StopsAt op_type.Op.Write (Rose (K.faults sink) (K.faults e.0)) e.1) }
{
    match LasWriter::begin(alloc, sink, form) {
        Ok(writer) => Ok(writer),
        Err((sink, LasBeginErr::Memory)) => Err((sink, GenerateError::Memory)),
        Err((sink, LasBeginErr::Failed)) => Err((sink, GenerateError::Device(Op::Write))),
    }
}

/// Appends points that all have their places in the file.
pub(crate) fn append_points<K: FileSink>(
    writer: &mut LasWriter<K>,
    points: &[Point],
) -> Result<(), Op>
    requires most { length points.now ≤ MOST_POINTS }
    requires placed { refusal writer.old.form writer.old.totals.count points.now ≡ None }
    ensures holds { OnOk result ((before : List Point)
        → holds_las (K.bytes writer.old.sink) writer.old.form writer.old.totals before ≡ true
        → holds_las (K.bytes writer.new.sink) writer.old.form writer.new.totals (before ++ points.now) ≡ true) }
    ensures form { writer.new.form ≡ writer.old.form }
    ensures named { IfErr result (λ op. op ≡ op_type.Op.Write) }
    ensures cause { HasCause (K.faults writer.old.sink) (K.faults writer.new.sink) result }
{
    match writer.put_all(points) {
        Ok(()) => Ok(()),
        Err(ChunkErr::Failed) => Err(Op::Write),
        Err(ChunkErr::Refused(_)) => unreachable!(),
    }
}

/// Makes the file whole.
pub(crate) fn finish_file<K: FileSink>(writer: &mut LasWriter<K>) -> Result<(), Op>
    ensures file { OnOk result ((points : List Point)
        → holds_las (K.bytes writer.old.sink) writer.old.form writer.old.totals points ≡ true
        → refusal writer.old.form 0 points ≡ None
        → IsAsTold (K.bytes writer.new.sink) (Some (las_output writer.old.form points))) }
    ensures named { IfErr result (λ op. op ≡ op_type.Op.Patch) }
    ensures cause { HasCause (K.faults writer.old.sink) (K.faults writer.new.sink) result }
{
    match writer.finish() {
        Ok(()) => Ok(()),
        Err(failed) => Err(failed.op()),
    }
}

/// Keeps the file under its name.
pub(crate) fn keep_file<F: Files>(
    files: &mut F,
    name: &str,
    file: F::Out,
) -> Result<(), GenerateError>
    ensures ok { OnOk result (F.map files.new ≡ kept (F.map files.old) name.now (F.Out.bytes file)) }
    ensures err { IfErr result (StopsAt op_type.Op.Keep (Rose (F.faults files.old) (F.faults files.new))) }
    ensures left { OnErr result ((F.map files.new ≡ F.map files.old)
        ⊎ (F.map files.new ≡ kept (F.map files.old) name.now (F.Out.bytes file))) }
    ensures gave { IsAsTold (F.counts files.new)
        (option_map (λ counts. F.Out.faults file ∷ counts) (F.counts files.old)) }
    ensures lent { F.lent files.new ≡ F.lent files.old - 1 }
    ensures later { F.faults files.old ≤ F.faults files.new }
{
    match files.keep(name, file) {
        Ok(()) => Ok(()),
        Err(DeviceErr::Memory) => Err(GenerateError::Memory),
        Err(_) => Err(GenerateError::Device(Op::Keep)),
    }
}
