//! The plan of a pipeline is printed.

ghost use Rattle.std.specs.Prelude.{◌≡◌, ◌+◌, ◌≤◌, Ok, IfErr, OnOk};
ghost use Rattle.file_devices.specs.Counts.{Rose};
ghost use Rattle.lasline_top.specs.Words.{Plan_file};
ghost use Rattle.lasline_top.specs.Cause.{IsOfFiles};
ghost use Rattle.lasline_top.specs.Ends.{WasDone, WasRefused};
ghost use Rattle.plug_stages.specs.Handed.{Handed};
ghost use Rattle.run_engine.specs.ReadAhead.{ReadAtMost};

use crate::pipeline_file::read_plan;
use crate::printing::print_text;
use crate::texts::plan_text;
use file_devices::{Files, Sink};
use pipeline_json::MOST_BYTES;
use run_report::Refusal;
use stage_planner::plan;
use std::alloc::Global;

/// Prints the steps of the pipeline in a file. No reader's file is opened.
pub(crate) fn plan_file<F: Files, K: Sink>(
    alloc: Global,
    name: &str,
    files: &mut F,
    out: &mut K,
) -> Result<(), Refusal>
    ensures ok { (handed : Handed) → OnOk result (WasDone handed (Ok (Plan_file name.now)) (F.map files.old)
        (F.map files.new) (K.bytes out.old) (K.bytes out.new)) }
    ensures err { (handed : Handed) → IfErr result (WasRefused handed (Ok (Plan_file name.now))
        (Rose (F.faults files.old) (F.faults files.new)) (Rose (K.faults out.old) (K.faults out.new))
        (F.map files.old) (F.map files.new) (K.bytes out.old) (K.bytes out.new)) }
    ensures of_files { IfErr result IsOfFiles }
    ensures lent { F.lent files.new ≡ F.lent files.old }
    ensures later { F.faults files.old ≤ F.faults files.new }
    ensures opened { ReadAtMost (MOST_BYTES + 1) (F.read_to files.old) (F.read_to files.new) }
{
    let tree = read_plan(alloc, files, name)?;
    let Ok(steps) = plan(alloc, &tree) else {
        return Err(Refusal::Memory);
    };
    let Ok(text) = plan_text(alloc, steps.as_slice()) else {
        return Err(Refusal::Memory);
    };
    print_text(text.as_str(), out)
}
