//! The nodes come back from the workers, each after its children.

ghost use Rattle.std.specs.Prelude.{◌≡◌, ◌<◌, ◌≤◌, ◌+◌, ◌^◌, ◌++◌, ◌∷◌, [], None};
ghost use Rattle.std.specs.Prelude.{length, slice_index_or, slice_set, vec_capacity};
ghost use Rattle.network_workers.specs.Crews.{HasRun};
ghost use Rattle.network_workers.specs.Dealt.{dealt, places, AreWorkers, HandsCarry};
ghost use Rattle.network_workers.specs.Gathered.{AreOfOne, IsSettled, LastEdge, LastEdges, AreOnce};
ghost use Rattle.network_workers.specs.Gathered.{without, but_last};
ghost use Rattle.network_workers.specs.Gathered.{Turned, IsStart, AreTakenBack};
ghost use Rattle.network_workers.specs.Seats.{DealsFit};
ghost use Rattle.network_workers.specs.Stopping.{DealsOver};

use crate::rooms::WorkerRoom;
use crate::seats::{Deal, Seat, SeatIn};
use crate::settling::settle_ends;
use chunk_queue::RuledOut;
use cloud_points::Work;
use network_core::{InsList, Node, NodeList};

/// Settles the queue of which the last of these ends takes, and that of this child sends.
fn settle_last(ins: &mut Vec<SeatIn>, child: usize, outs: &mut Vec<Option<RuledOut>>)
    requires some { 0 < length ins.old.items }
    requires one { LastEdge AreOfOne (slice_index_or outs.old.items child None) ins.old.items }
    ensures settled { LastEdge IsSettled (slice_index_or outs.old.items child None) ins.old.items }
    ensures ins { ins.new.items ≡ but_last 1 ins.old.items }
    ensures outs { outs.new.items ≡ slice_set outs.old.items child None }
    ensures capacity { vec_capacity outs.new ≡ vec_capacity outs.old }
{
    let Some(input) = ins.pop() else {
        unreachable!()
    };
    let Some(out) = outs[child].take() else {
        unreachable!()
    };
    settle_ends(out, input.end);
}

/// Settles the queues between a node and its children. The ends that it read are the last ones.
fn settle_inputs(ins: &mut Vec<SeatIn>, children: &[u32], outs: &mut Vec<Option<RuledOut>>)
    requires room { length children.now ≤ length ins.old.items }
    requires once { AreOnce children.now }
    requires one { LastEdges AreOfOne outs.old.items children.now ins.old.items }
    ensures settled { LastEdges IsSettled outs.old.items children.now ins.old.items }
    ensures ins { ins.new.items ≡ but_last (length children.now) ins.old.items }
    ensures outs { outs.new.items ≡ without outs.old.items children.now }
    ensures capacity { vec_capacity outs.new ≡ vec_capacity outs.old }
{
    for input in (0..children.len()).rev() {
        settle_last(ins, children[input] as usize, outs);
    }
}

/// Takes the last seat back, and settles the queues to its children.
fn take_seat<W: Work>(
    seats: &mut Vec<Seat<W>>,
    ins: &mut Vec<SeatIn>,
    children: &[u32],
    outs: &mut Vec<Option<RuledOut>>,
) -> Seat<W>
    requires some { 0 < length seats.old.items }
    requires room { length children.now ≤ length ins.old.items }
    requires once { AreOnce children.now }
    requires one { LastEdges AreOfOne outs.old.items children.now ins.old.items }
    ensures seats { seats.old.items ≡ seats.new.items ++ result ∷ [] }
    ensures settled { LastEdges IsSettled outs.old.items children.now ins.old.items }
    ensures ins { ins.new.items ≡ but_last (length children.now) ins.old.items }
    ensures outs { outs.new.items ≡ without outs.old.items children.now }
    ensures capacity { vec_capacity outs.new ≡ vec_capacity outs.old }
{
    settle_inputs(ins, children, outs);
    let Some(seat) = seats.pop() else {
        unreachable!()
    };
    seat
}

/// Takes the node at a place back, once all nodes below it are back.
fn take_back<W: Work>(
    deals: &mut Vec<Deal<W>>,
    takers: &[usize],
    place: usize,
    ins: &InsList,
    nodes: &mut Vec<Node<W>>,
    outs: &mut Vec<Option<RuledOut>>,
)
    ghost turned: { Turned W }
    requires tree { IsStart W.Work ins.now turned.start }
    requires place { place < length turned.start.nodes }
    requires takers { length takers.now ≡ length turned.start.nodes }
    requires workers { AreWorkers (length deals.old.items) takers.now }
    requires nodes { length turned.start.nodes ≤ vec_capacity nodes.old }
    requires outs { length turned.start.nodes ≤ vec_capacity outs.old }
    requires back { AreTakenBack W.Work turned.stop turned.start ins.now takers.now place deals.old.items
        nodes.old.items outs.old.items }
    ensures workers { length deals.new.items ≡ length deals.old.items }
    ensures nodes { vec_capacity nodes.new ≡ vec_capacity nodes.old }
    ensures outs { vec_capacity outs.new ≡ vec_capacity outs.old }
    ensures back { AreTakenBack W.Work turned.stop turned.start ins.now takers.now (place + 1) deals.new.items
        nodes.new.items outs.new.items }
{
    let deal = &mut deals[takers[place]];
    let seat = take_seat(&mut deal.seats, &mut deal.ins, ins.children(place), outs);
    let Seat {
        stage: _,
        node,
        out,
    } = seat;
    nodes.push_reserved(node);
    outs.push_reserved(out);
}

/// Takes all nodes back from the workers, and settles the queue above each but the root: what was got is a first part of what
/// was sent, and all of it where the node that took it is done. `takers` has the worker to whom each node went. The two lists
/// are empty and have room.
pub(crate) fn gather<W: Work>(
    deals: Vec<Deal<W>>,
    takers: &[usize],
    ins: &InsList,
    nodes: Vec<Node<W>>,
    outs: Vec<Option<RuledOut>>,
) -> NodeList<W>
    ghost turned: { Turned W }
    requires tree { IsStart W.Work ins.now turned.start }
    requires takers { length takers.now ≡ length turned.start.nodes }
    requires few { length takers.now < 2 ^ 32 }
    requires workers { AreWorkers (length deals.items) takers.now }
    requires nodes { (nodes.items ≡ []) × (length takers.now ≤ vec_capacity nodes) }
    requires outs { (outs.items ≡ []) × (length takers.now ≤ vec_capacity outs) }
    requires carried { HandsCarry W.Work (dealt takers.now (length deals.items) 0
        (places 0 turned.start.nodes ins.now turned.start.outs turned.start.inns)) deals.items }
    requires fit { DealsFit W.Work deals.items }
    requires over { DealsOver turned.stop deals.items }
    ensures { HasRun W.Work turned.stop turned.start.nodes ins.now result }
{
    let mut deals = deals;
    let mut nodes = nodes;
    let mut outs = outs;
    for place in 0..takers.len() {
        take_back(&mut deals, takers, place, ins, &mut nodes, &mut outs);
    }
    WorkerRoom::end_deals(deals);
    NodeList::new(nodes)
}
