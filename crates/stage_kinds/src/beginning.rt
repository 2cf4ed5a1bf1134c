//! How a writer's work begins.

ghost use Rattle.std.specs.Prelude.{◌≡◌, ◌≤◌, [], Some, true, IfOk, IfErr};
ghost use Rattle.file_devices.specs.Counts.{Rose};
ghost use Rattle.file_devices.specs.Told.{IsAsTold};
ghost use Rattle.file_devices.specs.declared.devices.Op as op_type;
ghost use Rattle.stage_kinds.specs.Files.{IsFileForm, count_of, file_form, file_holds, sink_of};
ghost use Rattle.stage_kinds.specs.Held.{op_of, faults_of};
ghost use Rattle.stage_kinds.specs.Begins.{begin_err_of_text, begin_err_of_las};
ghost use Rattle.stage_kinds.specs.Stages.{holds_chosen, holds_of, spot_in, writes_at, writes_of, writing_of};
ghost use Rattle.stage_meanings.specs.ByRule.{spot_at};

use crate::{FileForm, FileWriter, StageWork, WriterStage, Writing};
use cloud_points::Spread;
use file_devices::{FileSink, Source};
use las_writer::{LasBeginErr, LasWriter};
use plug_stages::{PlugFilter, PlugTally};
use std::alloc::Global;
use stream_filters::WriterWhere;
use text_writer::{TextBeginErr, TextWriter};

/// Why a writer's work doesn't begin.
#[derive(Clone, Copy, Debug, PartialEq, Eq)]
pub enum FileBeginErr {
    /// The sink failed.
    Failed,

    /// There was no memory.
    Memory,
}

impl From<TextBeginErr> for FileBeginErr {
    ghost from_gives = { λ e mine. mine ≡ begin_err_of_text e };

    fn from(e: TextBeginErr) -> Self {
        match e {
            TextBeginErr::Failed => FileBeginErr::Failed,
            TextBeginErr::Memory => FileBeginErr::Memory,
        }
    }
}

impl From<LasBeginErr> for FileBeginErr {
    ghost from_gives = { λ e mine. mine ≡ begin_err_of_las e };

    fn from(e: LasBeginErr) -> Self {
        match e {
            LasBeginErr::Failed => FileBeginErr::Failed,
            LasBeginErr::Memory => FileBeginErr::Memory,
        }
    }
}

/// A file of this form onto a sink to which nothing was appended; what stands in front of the points is appended.
fn begin_form<K: FileSink>(
    alloc: Global,
    sink: K,
    form: FileForm,
) -> Result<FileWriter<K>, (K, FileBeginErr)>
    requires { IsFileForm form }
    ensures form { IfOk result (λ w. file_form w ≡ form) }
    ensures none { IfOk result (λ w. count_of w ≡ 0) }
    ensures holds { IfOk result (λ w. IsAsTold (K.bytes sink) (Some []) → file_holds K.bytes w [] ≡ true) }
    ensures calm { IfOk result (λ w. K.faults (sink_of w) ≡ K.faults sink) }
    ensures failed { IfErr result (λ e. e.1 ≡ FileBeginErr.Failed → Rose (K.faults sink) (K.faults e.0)) }
    ensures count { IfErr result (λ e. K.faults sink ≤ K.faults e.0) }
{
    match form {
        FileForm::Text(form) => match TextWriter::begin(alloc, sink, form) {
            Ok(writer) => Ok(FileWriter::Text(writer, 0)),
            Err((sink, e)) => Err((sink, e.into())),
        },
        FileForm::Las(form) => match LasWriter::begin(alloc, sink, form) {
            Ok(writer) => Ok(FileWriter::Las(writer)),
            Err((sink, e)) => Err((sink, e.into())),
        },
    }
}

/// A writer onto a sink to which nothing was appended; what stands in front of the points is appended.
///
/// A refusal gives the sink back. It is `Failed` only where the sink failed, and `Memory` only where there is none for what
/// the writer holds.
pub(crate) fn begin_stage<K: FileSink>(
    alloc: Global,
    sink: K,
    writing: Writing,
) -> Result<WriterStage<K>, (K, FileBeginErr)>
    requires { IsFileForm writing.form }
    ensures form { IfOk result (λ w. writes_of w ≡ writing) }
    ensures spot { IfOk result (λ w. spot_in w ≡ spot_at 0) }
    ensures holds { IfOk result (λ w. IsAsTold (K.bytes sink) (Some []) → holds_chosen K.bytes w [] ≡ true) }
    ensures calm { IfOk result (λ w. K.faults (sink_of w.file) ≡ K.faults sink) }
    ensures failed { IfErr result (λ e. e.1 ≡ FileBeginErr.Failed → Rose (K.faults sink) (K.faults e.0)) }
    ensures count { IfErr result (λ e. K.faults sink ≤ K.faults e.0) }
{
    let Writing { form, only } = writing;
    let Ok(chosen) = Box::new(alloc, Spread::new()) else {
        return Err((sink, FileBeginErr::Memory));
    };
    match begin_form(alloc, sink, form) {
        Ok(file) => Ok(WriterStage {
            file,
            taken: WriterWhere::new(only),
            chosen,
        }),
        Err(refused) => Err(refused),
    }
}

/// The work of a writer onto a sink to which nothing was appended; what stands in front of the points is appended.
///
/// A refusal gives the sink back. It is `Failed` only where the sink failed, and `Memory` only where there is none for what
/// the writer holds.
pub fn begin_file<S: Source, K: FileSink, P: PlugFilter, Q: PlugTally>(
    alloc: Global,
    sink: K,
    writing: Writing,
) -> Result<StageWork<S, K, P, Q>, (K, FileBeginErr)>
    requires { IsFileForm writing.form }
    ensures form { IfOk result (λ w. writing_of w ≡ Some writing) }
    ensures spot { IfOk result (λ w. writes_at w ≡ Some (spot_at 0)) }
    ensures holds { IfOk result (λ w. IsAsTold (K.bytes sink) (Some []) → holds_of K.bytes w [] ≡ true) }
    ensures writes { IfOk result (λ w. op_of w ≡ Some op_type.Op.Write) }
    ensures calm { IfOk result (λ w. faults_of S.faults K.faults w ≡ K.faults sink) }
    ensures failed { IfErr result (λ e. e.1 ≡ FileBeginErr.Failed → Rose (K.faults sink) (K.faults e.0)) }
    ensures count { IfErr result (λ e. K.faults sink ≤ K.faults e.0) }
{
    match begin_stage(alloc, sink, writing) {
        Ok(writer) => Ok(StageWork::Writer(writer)),
        Err(refused) => Err(refused),
    }
}
