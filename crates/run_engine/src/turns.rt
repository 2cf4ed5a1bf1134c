//! The stages of a tree take turns until all are done, or one has a fault.

ghost use Rattle.std.specs.Prelude.{◌≡◌, ◌≤◌, length, IfOk, OnErr};
ghost use Rattle.pipeline_json.specs.Trees.{IsTree};
ghost use Rattle.stage_kinds.specs.Held.{faults_of};
ghost use Rattle.network_core.specs.declared.stop.Stop.TheVariants.{First};
ghost use Rattle.stage_runs.specs.Ahead.{AreReadAhead};
ghost use Rattle.stage_runs.specs.Short.{SomeGathers};
ghost use Rattle.stage_options.specs.Shapes.{shapes};
ghost use Rattle.stage_forms.specs.Starts.{AreAtStart};
ghost use Rattle.run_engine.specs.Jobs.{IsTurnRoom};
ghost use Rattle.stage_forms.specs.Later.{AreLater};
ghost use Rattle.run_engine.specs.Stopping.{HaveEndedBy};

use crate::counting::{ended, halted};
use crate::nodes::{nodes_over, works_in};
use crate::room::TurnRoom;
use file_devices::{FileSink, Source};
use network_solo::Scheduler;
use plug_stages::{PlugFilter, PlugTally};
use run_ending::Ran;
use run_outcome::Ended;
use stage_kinds::StageWork;
use stage_options::StageSpec;
use stage_runs::run_stages;
use std::alloc::{AllocError, Global};

/// Lets the stages of a tree take turns, part by part, in their memory, until all are done, or as the scheduler has it one has a fault. It
/// answers what each stage gave on and its fault. Refuses only where a stage needs whole views and memory is wanting.
pub(crate) fn turn_works<
    S: Source,
    K: FileSink,
    P: PlugFilter,
    Q: PlugTally,
    T: Scheduler<StageWork<S, K, P, Q>>,
>(
    alloc: Global,
    scheduler: &T,
    works: Vec<StageWork<S, K, P, Q>>,
    stages: &[StageSpec],
    room: TurnRoom<S, K, P, Q, T::Edges>,
) -> Ran<S, K, P, Q, Result<Ended, AllocError>>
    requires sound { T.sound scheduler.now }
    requires tree { IsTree (shapes stages.now) }
    requires few { length stages.now ≤ 64 }
    requires starts { AreAtStart K.bytes stages.now works.items }
    requires count { length works.items ≡ length stages.now }
    requires room { IsTurnRoom S.Source K.Sink P.PlugFilter Q.PlugTally T.fits room.shape stages.now room }
    ensures later { AreLater P.PlugFilter Q.PlugTally
        (faults_of S.faults K.faults) works.items result.works.items }
    ensures ended { IfOk result.outcome (λ ended. HaveEndedBy S.Source K.Sink P.PlugFilter Q.PlugTally
        (T.stop scheduler.now)
        stages.now works.items result.works.items ended.faults.items ended.report.items) }
    ensures gathers { OnErr result.outcome (SomeGathers stages.now) }
    ensures ahead { IfOk result.outcome (λ ended. T.bounded scheduler.now → T.stop scheduler.now ≡ First
        → AreReadAhead S.Source P.PlugFilter Q.PlugTally stages.now room.shape.queue room.shape.chunk works.items
        result.works.items ended.faults.items) }
{
    let TurnRoom {
        shape,
        nodes,
        works: left,
        stages: room,
    } = room;
    let mut nodes = nodes_over(works, stages, shape.chunk(), nodes);
    let ran = run_stages(alloc, scheduler, nodes.as_mut_slice(), stages, room);
    let outcome = match ran {
        Ok(()) => Ok(ended(stages, &nodes)),
        Err(halt) => halted(halt, stages, &nodes),
    };
    let works = works_in(nodes, left);
    Ran { works, outcome }
}
