//! Several threads as a scheduler.

ghost use Rattle.std.specs.Prelude.{◌<◌, ◌≤◌};

use crate::rooms::WorkerRoom;
use cloud_points::Work;
use network_core::{InsList, NodeList, Stop};
use network_solo::Scheduler;
use std::alloc::{AllocError, Global};

/// So many workers, 1 to 32, as a scheduler that lets nodes take turns until all are done, or as `stop` says one has a fault. What it
/// does with a tree is a call of `run_tree_by`: a method of a trait can't start threads itself.
#[derive(Drop)]
pub struct Crew<F> {
    pub workers: u32,
    /// Where the turns of nodes end.
    pub stop: Stop,
    pub run: F,
    pub ghost some: { 0 < workers },
    pub ghost most: { workers ≤ 32 },
}

impl<W: Work, F: Fn(NodeList<W>, InsList, WorkerRoom<W>) -> NodeList<W>> Scheduler<W> for Crew<F> {
    ghost use Rattle.std.specs.Prelude.{◌≡◌, ◌<◌, ◌≤◌, ◌-◌, ℕ, length};
    ghost use Rattle.network_theory.specs.Forest.{IsForest};
    ghost use Rattle.network_core.specs.declared.stop.Stop.TheVariants.{First};
    ghost use Rattle.network_solo.specs.Ahead.{IsReadAhead};
    ghost use Rattle.network_solo.specs.Stopping.{CameToEnd, IsStoppedTree};
    ghost use Rattle.network_solo.specs.Trees.{AreFresh, IsRanTree};
    ghost use Rattle.network_workers.specs.Crews.{Runs};
    ghost use Rattle.network_workers.specs.Gathered.{AreSettled};
    ghost use Rattle.network_workers.specs.RoomParts.{IsRoomFor};

    type Edges = WorkerRoom<W>;

    ghost sound = { λ crew. Runs W.Work crew.stop (F.pre crew.run) (F.post crew.run) };

    ghost stop = { λ crew. crew.stop };

    ghost bounded = { λ _. ⊥ };

    ghost fits = { IsRoomFor };

    ghost besides = { λ capacity ins old new. AreSettled W.Work ins old new };

    fn stop(&self) -> Stop {
        self.stop
    }

    fn edges(
        &self,
        alloc: Global,
        own: &[bool],
        capacity: usize,
    ) -> Result<WorkerRoom<W>, AllocError> {
        WorkerRoom::new(alloc, own, capacity, self.workers)
    }

    fn run(&self, nodes: NodeList<W>, ins: InsList, edges: WorkerRoom<W>) -> NodeList<W>
        requires sound { Runs W.Work self.now.stop (F.pre self.now.run) (F.post self.now.run) }
        requires some { 0 < length nodes }
        requires few { length nodes ≤ 64 }
        requires fresh { AreFresh W.Work ins nodes }
        requires forest { IsForest ins (length nodes - 1) }
        requires edges { (capacity : ℕ) × IsRoomFor (length nodes) capacity edges }
        ensures ran { CameToEnd W.Work self.now.stop result → IsRanTree W.Work ins nodes result }
        ensures besides { CameToEnd W.Work self.now.stop result → (capacity : ℕ)
            → IsRoomFor (length nodes) capacity edges → AreSettled W.Work ins nodes result }
        ensures stopped { self.now.stop ≡ First → IsStoppedTree W.Work ins nodes result }
        ensures ahead { ⊥ → self.now.stop ≡ First → (capacity : ℕ)
            → IsRoomFor (length nodes) capacity edges → IsReadAhead W.Work ins capacity nodes result }
    {
        (self.run)(nodes, ins, edges)
    }

    fn let_go(edges: WorkerRoom<W>) {
        edges.let_go();
    }
}
