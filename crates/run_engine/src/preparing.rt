//! A run is prepared.

ghost use Rattle.std.specs.Prelude.{IfOk, IfErr, OnErr};
ghost use Rattle.file_devices.specs.Counts.{Rose};
ghost use Rattle.pipeline_json.specs.Trees.{IsTree};
ghost use Rattle.stage_options.specs.Shapes.{shapes};
ghost use Rattle.answer_model.specs.Naming.{AreBack, AreNamed};
ghost use Rattle.plug_stages.specs.Handed.{handed_by};
ghost use Rattle.stage_forms.specs.Out.{AreTakenOut};
ghost use Rattle.held_devices.specs.Holding.{all_held};
ghost use Rattle.held_devices.specs.Lending.{Lends, Settles};
ghost use Rattle.run_outcome.specs.Cause.{IsCause, IsEarly};
ghost use Rattle.run_outcome.specs.Least.{IsNamedBy};
ghost use Rattle.run_opening.specs.Opening.{IsBeforePoints};
ghost use Rattle.run_engine.specs.Jobs.{IsReady, IsWaiting};

use crate::engine::Engine;
use crate::job::{Job, Step};
use crate::room::TurnRoom;
use file_devices::{FileSink, Files, Source};
use held_devices::release_works;
use network_solo::Scheduler;
use plug_stages::{Places, PlugFilter, PlugTally};
use run_opening::ready_works;
use run_report::Refusal;
use stage_kinds::StageWork;
use stage_options::StageSpec;
use std::alloc::{AllocError, Global};

/// How stages wait for an engine. Refuses where memory is wanting.
fn waiting<
    S: Source,
    K: FileSink,
    P: PlugFilter,
    Q: PlugTally,
    T: Scheduler<StageWork<S, K, P, Q>>,
>(
    alloc: Global,
    scheduler: &T,
    stages: &[StageSpec],
    engine: Engine,
) -> Result<Step<S, K, P, Q, T::Edges>, AllocError>
    requires tree { IsTree (shapes stages.now) }
    ensures { IfOk result (IsWaiting S.Source K.Sink P.PlugFilter Q.PlugTally T.fits engine stages.now) }
{
    match engine {
        Engine::Queues(shape) => Ok(Step::Turns(TurnRoom::new(alloc, scheduler, stages, shape)?)),
        Engine::Whole => Ok(Step::Whole),
    }
}

/// Prepares the run of a tree's stages by an engine and a scheduler: opens the readers' files, binds the names of dimensions, and creates
/// the files of the writers, each in the order of the stages; takes the filters and tallies that stages name out of their places; then
/// takes the memory of their turns, which is all that they take unless a stage needs whole views or the stages are evaluated whole.
///
/// `Pipeline` comes only where a name in the options of a stage isn't bound, `Data` only where the files have that fault, `Device`
/// only where the device failed or the file to read isn't there, `Memory` where there was none. Then every object that was handed
/// out is given back, and so is what was taken out of its place. The files are as before.
pub fn prepare<F: Files, P: PlugFilter, Q: PlugTally, T: Scheduler<StageWork<F::In, F::Out, P, Q>>>(
    alloc: Global,
    files: &mut F,
    places: &mut Places<P, Q>,
    stages: &[StageSpec],
    engine: Engine,
    scheduler: &T,
) -> Result<Job<F::In, F::Out, P, Q, T::Edges>, Refusal>
    requires tree { IsTree (shapes stages.now) }
    requires named { AreNamed (handed_by P.PlugFilter Q.PlugTally places.old) stages.now }
    ensures ready { IfOk result (IsReady F.In.Source F.Out.Sink P.PlugFilter Q.PlugTally T.fits engine
        (handed_by P.PlugFilter Q.PlugTally places.old) (F.map files.old) stages.now) }
    ensures err { IfErr result (IsCause (Rose (F.faults files.old) (F.faults files.new))
        (handed_by P.PlugFilter Q.PlugTally places.old) (F.map files.old) stages.now) }
    ensures out { IfOk result (λ job. AreTakenOut P.PlugFilter Q.PlugTally stages.now places.old
        job.works.items places.new) }
    ensures back { OnErr result (AreBack P.PlugFilter Q.PlugTally stages.now places.old places.new) }
    ensures early { IfErr result IsEarly }
    ensures before { IfErr result IsBeforePoints }
    ensures lends { IfOk result (λ job. Lends F.Files 0 (all_held job.works.items) files.old files.new) }
    ensures settles { OnErr result (Settles F.Files 0 files.old files.new) }
    ensures least { IfErr result (IsNamedBy stages.now (F.counts files.old) (F.counts files.new)) }
{
    let works = ready_works(alloc, files, places, stages)?;
    match waiting(alloc, scheduler, stages, engine) {
        Ok(step) => Ok(Job { works, step }),
        Err(_) => {
            release_works(files, places, works);
            Err(Refusal::Memory)
        }
    }
}
