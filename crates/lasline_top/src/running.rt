//! Pipelines are run.

ghost use Rattle.std.specs.Prelude.{◌≡◌, ◌≤◌, Some, None, Ok, IsOkAnd, IfOk, IfErr, OnOk};
ghost use Rattle.file_devices.specs.Counts.{Rose};
ghost use Rattle.file_devices.specs.Named.{Names};
ghost use Rattle.answer_model.specs.Naming.{AreBack};
ghost use Rattle.plug_stages.specs.Handed.{handed_by};
ghost use Rattle.run_outcome.specs.Cause.{IsRun};
ghost use Rattle.lasline_top.specs.Tasks.{engine_view};
ghost use Rattle.lasline_top.specs.Words.{Run_file, Trial, stop_in};
ghost use Rattle.lasline_top.specs.Answer.{runnable_in, runnable_of, stages_or, text_run, trial_name, trial_text};
ghost use Rattle.lasline_top.specs.Cause.{IsOfFiles};
ghost use Rattle.lasline_top.specs.Back.{IsHandedBack, IsRemembered, Remember};
ghost use Rattle.lasline_top.specs.Ends.{WasDone, WasRefused, WasStopped};
ghost use Rattle.lasline_top.specs.Least.{IsPlanNamed, IsTextNamed};
ghost use Rattle.lasline_top.specs.Reading.{IsReadAhead, IsTextAhead};

use crate::count::PointCount;
use crate::generating::make;
use crate::naming::runnable_stages;
use crate::pipeline_file::read_text;
use crate::printing::{print_report, print_text};
use crate::texts::generated_line;
use file_devices::{Files, Sink};
use network_solo::Scheduler;
use plug_stages::{Places, PlugFilter, PlugTally};
use run_engine::{Engine, run_pipeline};
use run_report::{Refusal, Report};
use stage_kinds::StageWork;
use std::alloc::Global;

/// Runs the pipeline that a text is, and answers what each of its stages gave on. Files that don't tell what they have don't tell it
/// after the run.
fn run_text<F: Files, P: PlugFilter, Q: PlugTally, T: Scheduler<StageWork<F::In, F::Out, P, Q>>>(
    alloc: Global,
    text: &[u8],
    engine: Engine,
    scheduler: &T,
    files: &mut F,
    places: &mut Places<P, Q>,
) -> Result<Report, Refusal>
    requires sound { T.sound scheduler.now }
    ensures ok { IfOk result (λ report. (m : Names) → F.map files.old ≡ Some m
        → IsOkAnd (text_run (handed_by P.PlugFilter Q.PlugTally places.old) m text.now)
        (IsRun (F.map files.old) (F.map files.new) report.items)) }
    ensures err { IfErr result (WasStopped (handed_by P.PlugFilter Q.PlugTally places.old)
        (stop_in (engine_view (T.stop scheduler.now) engine))
        (Rose (F.faults files.old) (F.faults files.new)) (F.map files.old) (F.map files.new) text.now) }
    ensures least { IfErr result (IsTextNamed (handed_by P.PlugFilter Q.PlugTally places.old) text.now
        (F.counts files.old) (F.counts files.new)) }
    ensures ahead { IfErr result (λ refusal. T.bounded scheduler.now → (m : Names) → F.map files.old ≡ Some m
        → IsTextAhead (engine_view (T.stop scheduler.now) engine) m text.now (F.read_to files.old)
        (F.read_to files.new) refusal) }
    ensures back { AreBack P.PlugFilter Q.PlugTally
        (stages_or (runnable_in (handed_by P.PlugFilter Q.PlugTally places.old) text.now)) places.old places.new }
    ensures remembered { OnOk result ((m : Names) → F.map files.old ≡ Some m
        → Remember P.PlugFilter Q.PlugTally (handed_by P.PlugFilter Q.PlugTally places.old) m
        (stages_or (runnable_in (handed_by P.PlugFilter Q.PlugTally places.old) text.now)) places.new) }
    ensures untold { F.map files.old ≡ None → F.map files.new ≡ None }
    ensures lent { F.lent files.new ≡ F.lent files.old }
    ensures later { F.faults files.old ≤ F.faults files.new }
{
    let tree = runnable_stages(alloc, text, places)?;
    run_pipeline(alloc, files, places, tree.as_slice(), engine, scheduler)
}

/// Runs the pipeline in a file and prints the report.
pub(crate) fn run_file<
    F: Files,
    K: Sink,
    P: PlugFilter,
    Q: PlugTally,
    T: Scheduler<StageWork<F::In, F::Out, P, Q>>,
>(
    alloc: Global,
    name: &str,
    engine: Engine,
    scheduler: &T,
    files: &mut F,
    places: &mut Places<P, Q>,
    out: &mut K,
) -> Result<(), Refusal>
    requires sound { T.sound scheduler.now }
    ensures ok { OnOk result (WasDone (handed_by P.PlugFilter Q.PlugTally places.old)
        (Ok (Run_file name.now (engine_view (T.stop scheduler.now) engine)))
        (F.map files.old) (F.map files.new) (K.bytes out.old) (K.bytes out.new)) }
    ensures err { IfErr result (WasRefused (handed_by P.PlugFilter Q.PlugTally places.old)
        (Ok (Run_file name.now (engine_view (T.stop scheduler.now) engine)))
        (Rose (F.faults files.old) (F.faults files.new)) (Rose (K.faults out.old) (K.faults out.new))
        (F.map files.old) (F.map files.new) (K.bytes out.old) (K.bytes out.new)) }
    ensures of_files { IfErr result IsOfFiles }
    ensures back { IsHandedBack P.PlugFilter Q.PlugTally
        (Ok (Run_file name.now (engine_view (T.stop scheduler.now) engine)))
        (F.map files.old) (F.map files.new) places.old places.new }
    ensures remembered { OnOk result (IsRemembered P.PlugFilter Q.PlugTally
        (Ok (Run_file name.now (engine_view (T.stop scheduler.now) engine)))
        (F.map files.old) (F.map files.new) places.old places.new) }
    ensures least { IfErr result (λ refusal. (m : Names) → F.map files.old ≡ Some m
        → IsPlanNamed (runnable_of (handed_by P.PlugFilter Q.PlugTally places.old) m name.now)
        (F.counts files.old) (F.counts files.new) refusal) }
    ensures ahead { IfErr result (λ refusal. T.bounded scheduler.now → (m : Names) → F.map files.old ≡ Some m
        → IsReadAhead (Ok (Run_file name.now (engine_view (T.stop scheduler.now) engine))) m
        (F.read_to files.old)
        (F.read_to files.new) refusal) }
    ensures lent { F.lent files.new ≡ F.lent files.old }
    ensures later { F.faults files.old ≤ F.faults files.new }
{
    let text = read_text(alloc, files, name)?;
    let report = run_text(alloc, &text, engine, scheduler, files, places)?;
    print_report(report.as_slice(), out)
}

/// The name of the file that a trial makes.
fn trial_name() -> &'static str
    ensures { result.now ≡ trial_name }
{
    "trial.las"
}

/// The pipeline that a trial runs on it.
fn trial_text() -> &'static str
    ensures { result.now ≡ trial_text }
{
    "[\"trial.las\",{\"type\":\"filters.range\",\"limits\":\"Classification[2:2]\"},{\"type\":\"filters.decimation\",\"step\":3},\"trial.txt\"]"
}

/// Makes a LAS file of generated points, runs the pipeline of the trial on it, and prints how many points there are and the report.
pub(crate) fn run_trial<
    F: Files,
    K: Sink,
    P: PlugFilter,
    Q: PlugTally,
    T: Scheduler<StageWork<F::In, F::Out, P, Q>>,
>(
    alloc: Global,
    count: PointCount,
    engine: Engine,
    scheduler: &T,
    files: &mut F,
    places: &mut Places<P, Q>,
    out: &mut K,
) -> Result<(), Refusal>
    requires sound { T.sound scheduler.now }
    ensures ok { OnOk result (WasDone (handed_by P.PlugFilter Q.PlugTally places.old)
        (Ok (Trial count.points (engine_view (T.stop scheduler.now) engine)))
        (F.map files.old) (F.map files.new) (K.bytes out.old) (K.bytes out.new)) }
    ensures err { IfErr result (WasRefused (handed_by P.PlugFilter Q.PlugTally places.old)
        (Ok (Trial count.points (engine_view (T.stop scheduler.now) engine)))
        (Rose (F.faults files.old) (F.faults files.new)) (Rose (K.faults out.old) (K.faults out.new))
        (F.map files.old) (F.map files.new) (K.bytes out.old) (K.bytes out.new)) }
    ensures of_files { IfErr result IsOfFiles }
    ensures back { IsHandedBack P.PlugFilter Q.PlugTally
        (Ok (Trial count.points (engine_view (T.stop scheduler.now) engine)))
        (F.map files.old) (F.map files.new) places.old places.new }
    ensures remembered { OnOk result (IsRemembered P.PlugFilter Q.PlugTally
        (Ok (Trial count.points (engine_view (T.stop scheduler.now) engine)))
        (F.map files.old) (F.map files.new) places.old places.new) }
    ensures least { IfErr result (IsPlanNamed
        (runnable_in (handed_by P.PlugFilter Q.PlugTally places.old) trial_text)
        (F.counts files.old) (F.counts files.new)) }
    ensures lent { F.lent files.new ≡ F.lent files.old }
    ensures later { F.faults files.old ≤ F.faults files.new }
{
    let Ok(line) = generated_line(alloc, count) else {
        return Err(Refusal::Memory);
    };
    make(alloc, files, trial_name(), count)?;
    let report = run_text(
        alloc,
        trial_text().as_bytes(),
        engine,
        scheduler,
        files,
        places,
    )?;
    print_text(line.as_str(), out)?;
    print_report(report.as_slice(), out)
}
