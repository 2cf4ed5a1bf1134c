//! A turn among the queues of a net.

ghost use Rattle.std.specs.Prelude.{◌≡◌, ◌≢◌, ◌<◌, ◌≤◌, ◌==◌, ℕ, [], Some, Option, length};
ghost use Rattle.cloud_points.specs.Bodies.{bodies, numbers};
ghost use Rattle.network_theory.specs.History.{points_taken};
ghost use Rattle.network_theory.specs.Net as net;
ghost use Rattle.network_core.specs.Calm.{Obeys};
ghost use Rattle.network_core.specs.Holding.{KeepsHolding, HoldsMore};
ghost use Rattle.network_core.specs.Shown.{turned};
ghost use Rattle.network_core.specs.Table.{IsRow};
ghost use Rattle.network_core.specs.Wires.{queue_at, queue_of};

use crate::node::Node;
use crate::turned::Turned;
use chunk_queue::PlainQueue;
use cloud_points::Work;
use std::alloc::{AllocError, Global};

/// A turn of node `at`, which reads the queue above its current child and gives to the one above itself. None
/// is above the root.
pub(crate) fn turn_among<W: Work>(
    node: &mut Node<W>,
    edges: &mut [PlainQueue],
    child: Option<usize>,
    at: usize,
) -> Turned
    requires within { at ≤ length edges.old }
    requires child { (c : ℕ) → child ≡ Some c → c < at }
    requires more { (c : ℕ) → child ≡ Some c → node.old.ended < node.old.inputs }
    ensures row { IsRow W.Work (at == length edges.old) (queue_at edges.old at).capacity
        node.old node.new result
        (queue_of edges.old child).items (queue_at edges.old at).items
        (queue_of edges.new child).items (queue_at edges.new at).items }
    ensures above { numbers (queue_at edges.new at).items
        ≡ net.numbers_above (at == length edges.old) (turned result) (numbers (queue_at edges.old at).items)
        node.old.given }
    ensures left { numbers (queue_of edges.new child).items
        ≡ net.numbers_left (turned result) (numbers (queue_of edges.old child).items) }
    ensures others { (k : ℕ) → k ≢ at → child ≢ Some k → queue_at edges.new k ≡ queue_at edges.old k }
    ensures rooms { (k : ℕ) → (queue_at edges.new k).capacity ≡ (queue_at edges.old k).capacity }
    ensures obeys { Obeys W.Work node.old node.new }
    ensures holds { HoldsMore W.Work node.old node.new
        (points_taken (turned result) (bodies (queue_of edges.old child).items)) }
{
    match child {
        None => turn_childless(node, edges, at),
        Some(c) => turn_parent(node, edges, c, at),
    }
}

/// A turn of a node that reads the queue above a child.
fn turn_parent<W: Work>(node: &mut Node<W>, edges: &mut [PlainQueue], c: usize, at: usize) -> Turned
    requires within { at ≤ length edges.old }
    requires child { c < at }
    requires more { node.old.ended < node.old.inputs }
    ensures row { IsRow W.Work (at == length edges.old) (queue_at edges.old at).capacity
        node.old node.new result
        (queue_at edges.old c).items (queue_at edges.old at).items
        (queue_at edges.new c).items (queue_at edges.new at).items }
    ensures above { numbers (queue_at edges.new at).items
        ≡ net.numbers_above (at == length edges.old) (turned result) (numbers (queue_at edges.old at).items)
        node.old.given }
    ensures left { numbers (queue_at edges.new c).items
        ≡ net.numbers_left (turned result) (numbers (queue_at edges.old c).items) }
    ensures others { (k : ℕ) → k ≢ at → k ≢ c → queue_at edges.new k ≡ queue_at edges.old k }
    ensures rooms { (k : ℕ) → (queue_at edges.new k).capacity ≡ (queue_at edges.old k).capacity }
    ensures obeys { Obeys W.Work node.old node.new }
    ensures holds { HoldsMore W.Work node.old node.new
        (points_taken (turned result) (bodies (queue_at edges.old c).items)) }
{
    if at == edges.len() {
        let input = &mut edges[c];
        return node.turn_root(input);
    }
    let (front, back) = edges.split_at_mut(at);
    let input = &mut front[c];
    let out = &mut back[0];
    node.turn_inner(input, out)
}

/// A turn of a node that reads no queue.
fn turn_childless<W: Work>(node: &mut Node<W>, edges: &mut [PlainQueue], at: usize) -> Turned
    requires { at ≤ length edges.old }
    ensures row { IsRow W.Work (at == length edges.old) (queue_at edges.old at).capacity
        node.old node.new result
        [] (queue_at edges.old at).items [] (queue_at edges.new at).items }
    ensures above { numbers (queue_at edges.new at).items
        ≡ net.numbers_above (at == length edges.old) (turned result) (numbers (queue_at edges.old at).items)
        node.old.given }
    ensures left { net.numbers_left (turned result) [] ≡ [] }
    ensures others { (k : ℕ) → k ≢ at → queue_at edges.new k ≡ queue_at edges.old k }
    ensures rooms { (k : ℕ) → (queue_at edges.new k).capacity ≡ (queue_at edges.old k).capacity }
    ensures obeys { Obeys W.Work node.old node.new }
    ensures holds { KeepsHolding W.Work node.old node.new }
{
    if at == edges.len() {
        return node.turn_alone();
    }
    let out = &mut edges[at];
    node.turn_leaf(out)
}
