//! Nets of nodes.

ghost use Rattle.std.specs.Prelude.{◌≡◌};
ghost use Rattle.network_core.specs.Wires.{IsWired, IsChild};

use crate::among::turn_among;
use crate::lists::{InsList, NodeList};
use crate::node::Node;
use crate::queues::Queues;
use crate::turned::Turned;
use chunk_queue::PlainQueue;
use cloud_points::Work;
use std::alloc::{AllocError, Global};

/// A tree of nodes, each of which but the root gives its items to its parent over a queue.
#[derive(Drop)]
pub struct Net<W> {
    nodes: Vec<Node<W>>,
    ins: InsList,
    edges: Vec<PlainQueue>,
    capacity: usize,
    ghost wired: { IsWired nodes.items ins edges.items capacity },
}

impl<W: Work> Net<W> {
    ghost use Rattle.std.specs.Prelude.{◌≡◌, ◌≢◌, ◌<◌, ◌≤◌, ◌+◌, ◌-◌, ◌^◌, ℕ, List, Some, IfOk, IfErr};
    ghost use Rattle.std.specs.Prelude.{length, slice_get};
    ghost use Rattle.cloud_points.specs.declared.point.Point.{Point};
    ghost use Rattle.cloud_points.specs.declared.faults.StageFault.{StageFault};
    ghost use Rattle.network_theory.specs.Net as net;
    ghost use Rattle.network_theory.specs.Forest.{IsForest, children};
    ghost use Rattle.network_theory.specs.Opening.{IsFresh};
    ghost use Rattle.network_core.specs.declared.node.Node as code;
    ghost use Rattle.network_core.specs.Shown.{shown, turned};
    ghost use Rattle.network_core.specs.Nets.{nodes_of, ins_of, capacity_of, root_of, net_of, choice_at};
    ghost use Rattle.network_core.specs.Nets.{ObeysAt, SameShape, IsNewNet};

    /// A net of these nodes with nothing on its queues, each of which has room for `capacity` items. `ins`
    /// has the numbers of each node's children in the order of its inputs, and the last node is the root.
    /// Where memory is wanting the nodes are handed back.
    pub fn new(
        alloc: Global,
        nodes: NodeList<W>,
        ins: InsList,
        capacity: usize,
    ) -> Result<Net<W>, (NodeList<W>, AllocError)>
        requires some { 0 < length nodes }
        requires most { length nodes < 2 ^ 32 }
        requires fresh { (k : ℕ) (n : code.Node W) → slice_get nodes k ≡ Some n
            → IsFresh (shown W.Work (children ins k) n) }
        requires forest { IsForest ins (length nodes - 1) }
        requires room { 0 < capacity }
        requires small { capacity ≤ 64 }
        ensures nodes { IfOk result (λ made. (nodes_of made ≡ nodes) × (ins_of made ≡ ins)
            × (capacity_of made ≡ capacity)) }
        ensures new { IfOk result (λ made. IsNewNet W.Work made) }
        ensures refused { IfErr result (λ e. e.0 ≡ nodes) }
    {
        let count = nodes.nodes.as_slice().len();
        match Queues::new(alloc, count - 1, capacity) {
            Ok(queues) => Ok(Net::over(nodes, ins, queues)),
            Err(error) => Err((nodes, error)),
        }
    }

    /// A net of these nodes over these queues, one for each node but the root. `ins` has the numbers of each
    /// node's children in the order of its inputs, and the last node is the root. It takes no memory.
    pub fn over(nodes: NodeList<W>, ins: InsList, queues: Queues) -> Net<W>
        requires some { 0 < length nodes }
        requires most { length nodes < 2 ^ 32 }
        requires fresh { (k : ℕ) (n : code.Node W) → slice_get nodes k ≡ Some n
            → IsFresh (shown W.Work (children ins k) n) }
        requires forest { IsForest ins (length nodes - 1) }
        requires queues { length queues.edges.items + 1 ≡ length nodes }
        ensures nodes { (nodes_of result ≡ nodes) × (ins_of result ≡ ins)
            × (capacity_of result ≡ queues.capacity) }
        ensures new { IsNewNet W.Work result }
    {
        let NodeList { nodes } = nodes;
        let Queues { edges, capacity } = queues;
        Net {
            nodes,
            ins,
            edges,
            capacity,
        }
    }

    /// A turn of node `i`.
    pub fn step(&mut self, i: u32) -> Turned
        requires { i < length (nodes_of self.old) }
        ensures step { (beyond : net.Node W.State Point StageFault)
            → net_of W.Work beyond self.new ≡ net.step (net_of W.Work beyond self.old) (root_of self.old)
            (capacity_of self.old) i (choice_at W.Work self.old self.new i) }
        ensures turned { (beyond : net.Node W.State Point StageFault)
            → turned result ≡ (net.turn_at (net_of W.Work beyond self.old) (root_of self.old)
            (capacity_of self.old) i (choice_at W.Work self.old self.new i)).turned }
        ensures obeys { ObeysAt W.Work self.old self.new i }
        ensures shape { SameShape self.old self.new }
    {
        let at = i as usize;
        let child = self.current_child(at);
        let node = &mut self.nodes[at];
        turn_among(node, self.edges.as_mut_slice(), child, at)
    }

    /// Node `i`.
    pub fn node(&self, i: u32) -> &Node<W>
        requires { i < length (nodes_of self.now) }
        ensures { slice_get (nodes_of self.now) i ≡ Some result.now }
    {
        &self.nodes[i as usize]
    }

    /// Its nodes.
    pub fn into_nodes(self) -> NodeList<W>
        ensures { result ≡ nodes_of self }
    {
        NodeList { nodes: self.nodes }
    }

    /// How many nodes it has.
    pub fn count(&self) -> u32
        ensures count { result ≡ length (nodes_of self.now) }
        ensures root { root_of self.now + 1 ≡ result }
    {
        self.nodes.as_slice().len() as u32
    }

    /// The number of a node's current child, where it has one.
    fn current_child(&self, i: usize) -> Option<usize>
        requires { i < length (nodes_of self.now) }
        ensures { IsChild self.now.nodes.items (ins_of self.now) i result }
    {
        let input = self.nodes[i].current()?;
        Some(self.ins.child(i, input) as usize)
    }
}
