//! What the stages of a run came to, by their nodes.

ghost use Rattle.std.specs.Prelude.{◌≡◌, ◌≤◌, List, Option, length, IfOk, OnErr};
ghost use Rattle.cloud_points.specs.declared.faults.StageFault.{StageFault};
ghost use Rattle.run_outcome.specs.Faults.{AreSound};
ghost use Rattle.run_engine.specs.Counted.{node_count, AreCounted, AreFaultsOf};

use file_devices::{FileSink, Source};
use network_core::Node;
use plug_stages::{PlugFilter, PlugTally};
use run_outcome::{Ended, StageFaults};
use run_report::{Report, StageCount};
use stage_kinds::StageWork;
use stage_options::StageSpec;
use stage_runs::{Halt, any_fault};
use std::alloc::AllocError;

/// What the node of stage i gave on, how many points it wrote or showed, how many files it wrote, and what its tally says.
fn node_count<S: Source, K: FileSink, P: PlugFilter, Q: PlugTally>(
    i: u32,
    stage: &StageSpec,
    node: &Node<StageWork<S, K, P, Q>>,
) -> StageCount
    ensures { result ≡ node_count Q.PlugTally i stage.now node.now }
{
    StageCount {
        stage: i,
        kind: stage.options.kind(),
        views: node.views(),
        points: node.points(),
        wrote: node.work().written().or(node.work().shown()),
        files: node.work().files(),
        tally: node.work().says(),
    }
}

/// What the node of each stage gave on, and its fault.
pub(crate) fn ended<S: Source, K: FileSink, P: PlugFilter, Q: PlugTally>(
    stages: &[StageSpec],
    nodes: &[Node<StageWork<S, K, P, Q>>],
) -> Ended
    requires fit { length nodes.now ≡ length stages.now }
    requires few { length stages.now ≤ 64 }
    ensures count { length result.report.items ≡ length stages.now }
    ensures counted { AreCounted Q.PlugTally stages.now nodes.now result.report.items }
    ensures faults { AreFaultsOf nodes.now result.faults.items }
{
    let mut report = Report::new();
    let mut faults = StageFaults::new();
    for i in 0..nodes.len() {
        report.push(node_count(i as u32, &stages[i], &nodes[i]));
        faults.push(nodes[i].fault());
    }
    Ended { report, faults }
}

/// The same of stages whose turns ended at a fault. Refuses exactly where none of the nodes has one.
fn stopped<S: Source, K: FileSink, P: PlugFilter, Q: PlugTally>(
    stages: &[StageSpec],
    nodes: &[Node<StageWork<S, K, P, Q>>],
) -> Result<Ended, AllocError>
    requires fit { length nodes.now ≡ length stages.now }
    requires few { length stages.now ≤ 64 }
    ensures faults { IfOk result (λ ended. AreFaultsOf nodes.now ended.faults.items) }
    ensures faulty { IfOk result (λ ended. AreSound ended.faults.items → ⊥) }
    ensures none { OnErr result ((found : List (Option StageFault)) → AreFaultsOf nodes.now found
        → AreSound found) }
{
    if !any_fault(nodes) {
        return Err(AllocError);
    }
    Ok(ended(stages, nodes))
}

/// What stages come to whose turns ended before all were done. Refuses where memory was wanting, and where none of the nodes has a fault.
pub(crate) fn halted<S: Source, K: FileSink, P: PlugFilter, Q: PlugTally>(
    halt: Halt,
    stages: &[StageSpec],
    nodes: &[Node<StageWork<S, K, P, Q>>],
) -> Result<Ended, AllocError>
    requires fit { length nodes.now ≡ length stages.now }
    requires few { length stages.now ≤ 64 }
    ensures fault { IfOk result (λ ended. halt ≡ Halt.Fault) }
    ensures faults { IfOk result (λ ended. AreFaultsOf nodes.now ended.faults.items) }
    ensures faulty { IfOk result (λ ended. AreSound ended.faults.items → ⊥) }
    ensures none { OnErr result (halt ≡ Halt.Fault
        → (found : List (Option StageFault)) → AreFaultsOf nodes.now found → AreSound found) }
{
    match halt {
        Halt::Memory => Err(AllocError),
        Halt::Fault => stopped(stages, nodes),
    }
}
