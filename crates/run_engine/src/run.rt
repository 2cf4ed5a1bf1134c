//! The run of a tree: the points of LAS files go through its stages.

ghost use Rattle.std.specs.Prelude.{◌≡◌, ◌≤◌, ℕ, Some, None, Err, IsOkAnd, IfOk, IfErr, OnOk};
ghost use Rattle.file_devices.specs.Counts.{Rose};
ghost use Rattle.file_devices.specs.Named.{Names};
ghost use Rattle.pipeline_json.specs.Trees.{IsTree};
ghost use Rattle.stage_options.specs.Shapes.{shapes};
ghost use Rattle.answer_model.specs.Naming.{AreBack, AreNamed, AreRemembered};
ghost use Rattle.answer_model.specs.Runs.{opened_in, run_of};
ghost use Rattle.plug_stages.specs.Handed.{handed_by};
ghost use Rattle.run_outcome.specs.Cause.{IsRun, IsLeft};
ghost use Rattle.run_outcome.specs.Least.{IsNamedBy};
ghost use Rattle.cloud_points.specs.declared.faults.PointFault.{PointFault};
ghost use Rattle.cloud_points.specs.declared.faults.StageFault.TheVariants as stage;
ghost use Rattle.network_core.specs.declared.stop.Stop.TheVariants.{First};
ghost use Rattle.run_report.specs.declared.refusal.Fault.TheVariants.{Point};
ghost use Rattle.run_report.specs.declared.refusal.Refusal.TheVariants.{Data};
ghost use Rattle.run_engine.specs.declared.engine.Engine.TheVariants.{Queues};
ghost use Rattle.run_engine.specs.declared.shape.Shape.{Shape};
ghost use Rattle.run_engine.specs.ReadAhead.{HasReadNoMore};
ghost use Rattle.run_engine.specs.Stopping.{IsCauseBy, ends_at};

use crate::engine::Engine;
use crate::preparing::prepare;
use file_devices::Files;
use network_solo::Scheduler;
use plug_stages::{Places, PlugFilter, PlugTally};
use run_report::{Refusal, Report};
use stage_kinds::StageWork;
use stage_options::StageSpec;
use std::alloc::Global;

/// Runs the stages of a tree: opens the readers' files, binds the names of dimensions, and creates the files of the writers, each
/// in the order of the stages; lets the points go through, finishes all writers' files and then keeps them in the order of the
/// stages, and behind them the files of views, and answers what each stage gave on. Every object that was handed out is given back,
/// and each place of a filter or a tally holds again what it held, but for what that remembers where a stage names it: where the run
/// succeeds and the files tell what they hold, what the stage leaves.
///
/// `Pipeline` comes only where a name in the options of a stage isn't bound, `Data` only where the files have that fault, `Device`
/// only where the device failed or the file to read isn't there, `Memory` where there was none. After a refusal the files are as
/// before; only where the keeping of a file failed or found no memory, or the file of a view couldn't be written, are those before it
/// kept, and one that couldn't be kept may be.
/// Files that don't tell what they have don't tell it after the run. Where the stages' turns end at the first fault, and all give on each
/// point, what the readers have read is bounded by the number of the faulty point.
pub fn run_pipeline<
    F: Files,
    P: PlugFilter,
    Q: PlugTally,
    T: Scheduler<StageWork<F::In, F::Out, P, Q>>,
>(
    alloc: Global,
    files: &mut F,
    places: &mut Places<P, Q>,
    stages: &[StageSpec],
    engine: Engine,
    scheduler: &T,
) -> Result<Report, Refusal>
    requires sound { T.sound scheduler.now }
    requires tree { IsTree (shapes stages.now) }
    requires named { AreNamed (handed_by P.PlugFilter Q.PlugTally places.old) stages.now }
    ensures ok { IfOk result (λ report. (m : Names) → F.map files.old ≡ Some m
        → IsOkAnd (run_of (handed_by P.PlugFilter Q.PlugTally places.old) m stages.now)
        (IsRun (F.map files.old) (F.map files.new) report.items)) }
    ensures err { IfErr result (IsCauseBy (ends_at engine (T.stop scheduler.now))
        (Rose (F.faults files.old) (F.faults files.new)) (handed_by P.PlugFilter Q.PlugTally places.old)
        (F.map files.old) stages.now) }
    ensures left { IfErr result (λ refusal. (m : Names) → F.map files.old ≡ Some m
        → IsLeft refusal (F.map files.old) (F.map files.new)
        (run_of (handed_by P.PlugFilter Q.PlugTally places.old) m stages.now)) }
    ensures least { IfErr result (IsNamedBy stages.now (F.counts files.old) (F.counts files.new)) }
    ensures back { AreBack P.PlugFilter Q.PlugTally stages.now places.old places.new }
    ensures remembered { OnOk result ((m : Names) → F.map files.old ≡ Some m
        → AreRemembered P.PlugFilter Q.PlugTally stages.now
        (opened_in (handed_by P.PlugFilter Q.PlugTally places.old) m stages.now) places.new) }
    ensures untold { F.map files.old ≡ None → F.map files.new ≡ None }
    ensures lent { F.lent files.new ≡ F.lent files.old }
    ensures later { F.faults files.old ≤ F.faults files.new }
    ensures ahead { T.bounded scheduler.now → (shape : Shape) (m : Names) (i : ℕ) (f : PointFault)
        → engine ≡ Queues shape → T.stop scheduler.now ≡ First → F.map files.old ≡ Some m → result ≡ Err (Data i (Point f))
        → HasReadNoMore m stages.now shape.queue shape.chunk i (stage.Point f) (F.read_to files.old)
        (F.read_to files.new) }
{
    let mut job = prepare(alloc, files, places, stages, engine, scheduler)?;
    let _enough = job.run(alloc, scheduler, stages);
    job.close(alloc, files, places, stages)
}
