//! The nodes of a tree are dealt to workers.

ghost use Rattle.std.specs.Prelude.{◌≡◌, ◌<◌, ◌≤◌, ◌+◌, ◌-◌, ◌^◌, ◌++◌, [], List, ℕ, true, length};
ghost use Rattle.std.specs.Prelude.{Some, None, is_some, slice_get, slice_index_or, slice_set, vec_capacity};
ghost use Rattle.network_theory.specs.Forest.{IsForest};
ghost use Rattle.network_solo.specs.Trees.{AreFresh};
ghost use Rattle.network_workers.specs.declared.seats.Deal as deal_type;
ghost use Rattle.network_workers.specs.Dealt.{dealt, places, entries, hand_of, empty_hand, with_place};
ghost use Rattle.network_workers.specs.Lists.{Each};
ghost use Rattle.network_workers.specs.Rooms.{left, end_at, ends_at, place_of, hands_of};
ghost use Rattle.network_workers.specs.Rooms.{AreThere, OthersStay};
ghost use Rattle.network_workers.specs.Rooms.{HasSeat, HasEnds, HaveRoom};
ghost use Rattle.network_workers.specs.RoomParts.{nodes_in, outs_of, inns_of, workers_in, takers_in};
ghost use Rattle.network_workers.specs.Seats.{DealsFit, AreFew};

use crate::rooms::WorkerRoom;
use crate::seats::{Deal, Seat, SeatIn};
use chunk_queue::{RuledIn, RuledOut};
use cloud_points::Work;
use network_core::{InsList, Node, NodeList};

/// Workers with the nodes that were dealt to them, the worker to whom each node went, and the emptied lists of
/// the nodes and of the ends above them.
pub(crate) struct Dealt<W> {
    pub(crate) deals: Vec<Deal<W>>,
    pub(crate) takers: Vec<usize>,
    pub(crate) nodes: Vec<Node<W>>,
    pub(crate) outs: Vec<Option<RuledOut>>,
}

/// Takes the end above a node.
fn take_end(inns: &mut Vec<Option<RuledIn>>, node: u32) -> RuledIn
    requires { is_some (end_at inns.old.items node) ≡ true }
    ensures end { end_at inns.old.items node ≡ Some result }
    ensures rest { inns.new.items ≡ slice_set inns.old.items node None }
{
    let Some(end) = inns[node as usize].take() else {
        unreachable!()
    };
    end
}

/// Gives a seat the ends above its node's children, in the order of its inputs.
fn give_ends(ins: &mut Vec<SeatIn>, seat: u32, children: &[u32], inns: &mut Vec<Option<RuledIn>>)
    requires there { AreThere inns.old.items children.now }
    requires few { left inns.old.items < 2 ^ 32 }
    requires room { length ins.old.items + left inns.old.items ≤ vec_capacity ins.old }
    ensures ins { ins.new.items ≡ ins.old.items ++ entries seat 0 (ends_at inns.old.items children.now) }
    ensures capacity { vec_capacity ins.new ≡ vec_capacity ins.old }
    ensures room { length ins.new.items + left inns.new.items ≤ vec_capacity ins.new }
    ensures others { OthersStay children.now inns.old.items inns.new.items }
    ensures left { left inns.new.items ≤ left inns.old.items }
{
    for input in 0..children.len() {
        let end = take_end(inns, children[input]);
        let input = input as u32;
        ins.push_reserved(SeatIn { seat, input, end });
    }
}

/// Gives a worker a node, with the ends above its children.
fn give<W: Work>(
    deal: &mut Deal<W>,
    seat: Seat<W>,
    children: &[u32],
    inns: &mut Vec<Option<RuledIn>>,
)
    requires there { AreThere inns.old.items children.now }
    requires few { left inns.old.items < 2 ^ 32 }
    requires seat { HasSeat deal.old }
    requires ends { HasEnds (left inns.old.items) deal.old }
    ensures given { hand_of deal.new
        ≡ with_place (place_of seat (ends_at inns.old.items children.now)) (hand_of deal.old) }
    ensures seats { vec_capacity deal.new.seats ≡ vec_capacity deal.old.seats }
    ensures ends { HasEnds (left inns.new.items) deal.new }
    ensures others { OthersStay children.now inns.old.items inns.new.items }
    ensures left { left inns.new.items ≤ left inns.old.items }
{
    let at = deal.seats.as_slice().len() as u32;
    give_ends(&mut deal.ins, at, children, inns);
    deal.seats.push_reserved(seat);
}

/// Gives one of several workers a node, with the ends above its children.
fn give_to<W: Work>(
    deals: &mut Vec<Deal<W>>,
    worker: usize,
    seat: Seat<W>,
    children: &[u32],
    inns: &mut Vec<Option<RuledIn>>,
)
    requires worker { worker < length deals.old.items }
    requires there { AreThere inns.old.items children.now }
    requires few { left inns.old.items < 2 ^ 32 }
    requires seat { (d : deal_type.Deal W) → HasSeat (slice_index_or deals.old.items worker d) }
    requires ends { Each (λ i deal. HasEnds (left inns.old.items) deal) deals.old.items }
    ensures given { hands_of deals.new.items ≡ slice_set (hands_of deals.old.items) worker
        (with_place (place_of seat (ends_at inns.old.items children.now))
        (slice_index_or (hands_of deals.old.items) worker empty_hand)) }
    ensures room { (goes : List ℕ) → HaveRoom goes (left inns.old.items) deals.old.items
        → HaveRoom goes (left inns.new.items) deals.new.items }
    ensures others { OthersStay children.now inns.old.items inns.new.items }
    ensures left { left inns.new.items ≤ left inns.old.items }
{
    give(&mut deals[worker], seat, children, inns);
}

/// Deals new nodes to the workers of a room, each to the one to whom it goes, with the end above it and those
/// above its children. It takes no memory.
pub(crate) fn deal<W: Work>(nodes: NodeList<W>, ins: &InsList, room: WorkerRoom<W>) -> Dealt<W>
    requires some { 0 < length nodes }
    requires fresh { AreFresh W.Work ins.now nodes }
    requires forest { IsForest ins.now (length nodes - 1) }
    requires room { nodes_in room ≡ length nodes }
    ensures dealt { hands_of result.deals.items
        ≡ dealt (takers_in room) (workers_in room) 0 (places 0 nodes ins.now (outs_of room) (inns_of room)) }
    ensures takers { result.takers.items ≡ takers_in room }
    ensures few { AreFew result.deals.items }
    ensures fit { DealsFit W.Work result.deals.items }
    ensures workers { (length result.deals.items ≡ workers_in room) × (length result.deals.items ≤ 32) }
    ensures nodes { (result.nodes.items ≡ []) × (length nodes ≤ vec_capacity result.nodes) }
    ensures outs { (result.outs.items ≡ []) × (length nodes ≤ vec_capacity result.outs) }
{
    let mut nodes = nodes.into_vec();
    let WorkerRoom {
        mut outs,
        mut inns,
        takers,
        mut deals,
    } = room;
    while let Some(node) = nodes.pop() {
        let place = nodes.len();
        let out = outs.pop().flatten();
        let stage = place as u32;
        let seat = Seat { stage, node, out };
        give_to(
            &mut deals,
            takers[place],
            seat,
            ins.children(place),
            &mut inns,
        );
    }
    Dealt {
        deals,
        takers,
        nodes,
        outs,
    }
}
