//! Who lets the nodes of a tree take turns.

ghost use Rattle.std.specs.Prelude.{◌≡◌, ◌<◌, ◌≤◌, ◌+◌, ◌-◌, ℕ, List, IfOk, length};
ghost use Rattle.network_theory.specs.Forest.{IsForest};
ghost use Rattle.network_core.specs.declared.node.Node.{Node as NodeValue};
ghost use Rattle.network_core.specs.declared.stop.Stop.{Stop as EndsAt};
ghost use Rattle.network_core.specs.declared.stop.Stop.TheVariants.{First};
ghost use Rattle.network_solo.specs.Ahead.{IsReadAhead};
ghost use Rattle.network_solo.specs.Runs.{IsRanOver};
ghost use Rattle.network_solo.specs.Stopping.{CameToEnd, IsStoppedTree};
ghost use Rattle.network_solo.specs.Trees.{AreFresh, IsRanTree};

use crate::tree::run_tree;
use cloud_points::Work;
use network_core::{InsList, NodeList, Queues, Stop};
use std::alloc::{AllocError, Global};

/// Lets the nodes of a tree take turns until all are done, or one has a fault. Which node has its turn when, and on which thread, is its
/// own affair.
pub trait Scheduler<W: Work> {
    /// What the nodes of a tree take turns over: the queues between them.
    type Edges;

    /// It lets nodes take turns as this trait says.
    ghost sound: { Self → Type 0 };

    /// The turns of nodes end here.
    ghost stop: { Self → EndsAt };

    /// These lie between so many nodes, each queue with room for so many items.
    ghost fits: { ℕ → ℕ → Self.Edges → Type 0 };

    /// Where the turns of nodes end at the first fault, what was read by then is bounded.
    ghost bounded: { Self → Type 0 };

    /// What nodes come to besides over queues with room for so many items, by the numbers of their children.
    ghost besides: { ℕ → List (List ℕ) → List (NodeValue W) → List (NodeValue W) → Type 0 };

    /// Where the turns of nodes end.
    fn stop(&self) -> Stop
        ensures { result ≡ Self.stop self.now };

    /// What a tree's nodes take turns over, 1 to 64, each queue with room for `capacity` items, 1 to 64. `own` says of each node
    /// whether it is the tree's own; the others are leaves that give nothing. It takes all memory that their turns need. Refuses
    /// where memory is wanting.
    fn edges(&self, alloc: Global, own: &[bool], capacity: usize) -> Result<Self::Edges, AllocError>
        requires some { 0 < length own.now }
        requires few { length own.now ≤ 64 }
        requires room { 0 < capacity }
        requires small { capacity ≤ 64 }
        ensures { IfOk result (Self.fits (length own.now) capacity) };

    /// Lets new nodes take turns until all are done, or as `stop` says one has a fault, and hands them back. `ins` has the numbers of
    /// each node's children in the order of its inputs, and the last node is the root. It takes no memory.
    fn run(&self, nodes: NodeList<W>, ins: InsList, edges: Self::Edges) -> NodeList<W>
        requires sound { Self.sound self.now }
        requires some { 0 < length nodes }
        requires few { length nodes ≤ 64 }
        requires fresh { AreFresh W.Work ins nodes }
        requires forest { IsForest ins (length nodes - 1) }
        requires edges { (capacity : ℕ) × Self.fits (length nodes) capacity edges }
        ensures ran { CameToEnd W.Work (Self.stop self.now) result → IsRanTree W.Work ins nodes result }
        ensures besides { CameToEnd W.Work (Self.stop self.now) result → (capacity : ℕ)
            → Self.fits (length nodes) capacity edges → Self.besides capacity ins nodes result }
        ensures stopped { Self.stop self.now ≡ First → IsStoppedTree W.Work ins nodes result }
        ensures ahead { Self.bounded self.now → Self.stop self.now ≡ First → (capacity : ℕ)
            → Self.fits (length nodes) capacity edges → IsReadAhead W.Work ins capacity nodes result };

    /// Gives back what no nodes took turns over.
    fn let_go(edges: Self::Edges)
        requires { (nodes : ℕ) × (capacity : ℕ) × Self.fits nodes capacity edges };
}

/// All turns on the thread of the caller, in rounds. It waits for nobody, and always comes to the end.
#[derive(Clone, Copy)]
pub struct OneThread {
    /// Where the turns of nodes end.
    pub stop: Stop,
}

impl<W: Work> Scheduler<W> for OneThread {
    ghost use Rattle.std.specs.Prelude.{◌≡◌, ◌<◌, ◌≤◌, ◌+◌, ◌-◌, ℕ, length, ⊤};
    ghost use Rattle.network_theory.specs.Forest.{IsForest};
    ghost use Rattle.network_core.specs.declared.stop.Stop.TheVariants.{First};
    ghost use Rattle.network_solo.specs.Ahead.{IsReadAhead};
    ghost use Rattle.network_solo.specs.Runs.{IsRanOver};
    ghost use Rattle.network_solo.specs.Stopping.{CameToEnd, IsStoppedTree};
    ghost use Rattle.network_solo.specs.Trees.{AreFresh, IsRanTree};

    type Edges = Queues;

    ghost sound = { λ _. ⊤ };

    ghost stop = { λ one. one.stop };

    ghost bounded = { λ _. ⊤ };

    ghost fits = { λ nodes capacity queues. (length queues.edges.items + 1 ≡ nodes) × (queues.capacity ≡ capacity) };

    ghost besides = { λ capacity ins old new. IsRanOver W.Work ins capacity old new };

    fn stop(&self) -> Stop {
        self.stop
    }

    fn edges(&self, alloc: Global, own: &[bool], capacity: usize) -> Result<Queues, AllocError> {
        Queues::new(alloc, own.len() - 1, capacity)
    }

    fn run(&self, nodes: NodeList<W>, ins: InsList, edges: Queues) -> NodeList<W>
        requires sound { ⊤ }
        requires some { 0 < length nodes }
        requires few { length nodes ≤ 64 }
        requires fresh { AreFresh W.Work ins nodes }
        requires forest { IsForest ins (length nodes - 1) }
        requires edges { (capacity : ℕ) × (length edges.edges.items + 1 ≡ length nodes)
            × (edges.capacity ≡ capacity) }
        ensures ran { CameToEnd W.Work self.now.stop result → IsRanTree W.Work ins nodes result }
        ensures besides { CameToEnd W.Work self.now.stop result → (capacity : ℕ)
            → (length edges.edges.items + 1 ≡ length nodes) × (edges.capacity ≡ capacity)
            → IsRanOver W.Work ins capacity nodes result }
        ensures stopped { self.now.stop ≡ First → IsStoppedTree W.Work ins nodes result }
        ensures ahead { ⊤ → self.now.stop ≡ First → (capacity : ℕ)
            → (length edges.edges.items + 1 ≡ length nodes) × (edges.capacity ≡ capacity)
            → IsReadAhead W.Work ins capacity nodes result }
    {
        run_tree(nodes, ins, edges, self.stop)
    }

    fn let_go(edges: Queues) {
        drop(edges);
    }
}
