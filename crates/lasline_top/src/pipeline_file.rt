//! The file of a pipeline, and its stages.

ghost use Rattle.std.specs.Prelude.{◌≡◌, ◌+◌, Some, Ok, IfOk, IfErr, OnOk, length};
ghost use Rattle.file_devices.specs.Counts.{Rose};
ghost use Rattle.file_devices.specs.Named.{Names};
ghost use Rattle.answer_model.specs.Runs.{file_at};
ghost use Rattle.run_report.specs.declared.refusal.Place.{Place};
ghost use Rattle.run_outcome.specs.Cause.{Because, IsSettled};
ghost use Rattle.stage_options.specs.TreeShown.{specs_view};
ghost use Rattle.lasline_top.specs.Answer.{plan_in, stages_in};
ghost use Rattle.lasline_top.specs.Cause.{AtText, Never, Risen, IsOfPlan, IsOfText};
ghost use Rattle.lasline_top.specs.Least.{GaveOne, IsToldUnread};
ghost use Rattle.run_engine.specs.ReadAhead.{ReadAtMost};
ghost use Rattle.lasline_top.specs.Refusals.{refusal_of};

use file_devices::{DeviceErr, Files, Op, WholeErr, read_whole};
use pipeline_json::{MOST_BYTES, read_pipeline};
use run_report::{Place, Refusal};
use stage_names::{PipeErr, PipeFault};
use stage_options::Tree;
use stage_typing::type_tree;
use std::alloc::Global;

/// The text in a pipeline's file. One of more than `MOST_BYTES` is a fault of the pipeline, and isn't read to its end. The file is
/// given back.
pub(crate) fn read_text<F: Files>(
    alloc: Global,
    files: &mut F,
    name: &str,
) -> Result<Vec<u8>, Refusal>
    ensures ok { IfOk result (λ text. (m : Names) → F.map files.old ≡ Some m
        → file_at (m name.now) Place.PipelineFile ≡ Ok text.items) }
    ensures err { IfErr result (λ refusal. (m : Names) → F.map files.old ≡ Some m
        → Because (plan_in m name.now) (AtText (Rose (F.faults files.old) (F.faults files.new))) refusal) }
    ensures of_plan { IfErr result IsOfPlan }
    ensures risen { IfErr result (Risen (Rose (F.faults files.old) (F.faults files.new)) ⊥
        (F.map files.old)) }
    ensures settled { IsSettled (F.map files.old) (F.map files.new) (F.lent files.old) (F.lent files.new)
        (F.faults files.old) (F.faults files.new) }
    ensures opened { ReadAtMost (MOST_BYTES + 1) (F.read_to files.old) (F.read_to files.new) }
    ensures no_further { IfOk result (λ text. ReadAtMost (length text.items) (F.read_to files.old)
        (F.read_to files.new)) }
    ensures gave { OnOk result (GaveOne (F.counts files.old) (F.counts files.new)) }
    ensures told { IfErr result (IsToldUnread (F.counts files.old) (F.counts files.new)) }
{
    let mut source = match files.open_in(name) {
        Ok(source) => source,
        Err(DeviceErr::Memory) => return Err(Refusal::Memory),
        Err(_) => return Err(Refusal::Device(Place::PipelineFile, Op::Open)),
    };
    let read = read_whole(alloc, &mut source, MOST_BYTES);
    files.done_in(source);
    match read {
        Ok(Some(text)) => Ok(text),
        Ok(None) => Err(Refusal::Pipeline(PipeFault::TextTooLong)),
        Err(WholeErr::Memory) => Err(Refusal::Memory),
        Err(WholeErr::Failed) => Err(Refusal::Device(Place::PipelineFile, Op::Read)),
    }
}

/// The refusal for a pipeline.
pub(crate) fn refusal_of(e: PipeErr) -> Refusal
    ensures { result ≡ refusal_of e }
{
    match e {
        PipeErr::Fault(fault) => Refusal::Pipeline(fault),
        PipeErr::Memory => Refusal::Memory,
    }
}

/// The pipeline that a text is: its stages with their options.
pub(crate) fn read_stages(alloc: Global, text: &[u8]) -> Result<Tree, Refusal>
    ensures ok { IfOk result (λ tree. stages_in text.now ≡ Ok (specs_view tree)) }
    ensures err { IfErr result (Because (stages_in text.now) Never) }
    ensures of_text { IfErr result IsOfText }
{
    let raw = match read_pipeline(alloc, text) {
        Ok(raw) => raw,
        Err(e) => return Err(refusal_of(e)),
    };
    match type_tree(alloc, &raw) {
        Ok(tree) => Ok(tree),
        Err(e) => Err(refusal_of(e)),
    }
}

/// The pipeline in a file: its stages with their options. No other file is opened.
pub(crate) fn read_plan<F: Files>(alloc: Global, files: &mut F, name: &str) -> Result<Tree, Refusal>
    ensures ok { IfOk result (λ tree. (m : Names) → F.map files.old ≡ Some m
        → plan_in m name.now ≡ Ok (specs_view tree)) }
    ensures err { IfErr result (λ refusal. (m : Names) → F.map files.old ≡ Some m
        → Because (plan_in m name.now) (AtText (Rose (F.faults files.old) (F.faults files.new))) refusal) }
    ensures of_plan { IfErr result IsOfPlan }
    ensures risen { IfErr result (Risen (Rose (F.faults files.old) (F.faults files.new)) ⊥
        (F.map files.old)) }
    ensures settled { IsSettled (F.map files.old) (F.map files.new) (F.lent files.old) (F.lent files.new)
        (F.faults files.old) (F.faults files.new) }
    ensures opened { ReadAtMost (MOST_BYTES + 1) (F.read_to files.old) (F.read_to files.new) }
    ensures gave { OnOk result (GaveOne (F.counts files.old) (F.counts files.new)) }
    ensures told { IfErr result (IsToldUnread (F.counts files.old) (F.counts files.new)) }
{
    let text = read_text(alloc, files, name)?;
    read_stages(alloc, &text)
}
