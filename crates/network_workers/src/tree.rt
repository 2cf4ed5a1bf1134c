//! Trees of nodes that several workers run to their end, or up to a fault.

ghost use Rattle.std.specs.Prelude.{◌≡◌, ◌<◌, ◌≤◌, ◌-◌, length};
ghost use Rattle.network_theory.specs.Forest.{IsForest};
ghost use Rattle.network_solo.specs.Trees.{AreFresh};
ghost use Rattle.network_workers.specs.Crews.{HasRun};
ghost use Rattle.network_workers.specs.Gathered.{Turned, IsStart};
ghost use Rattle.network_workers.specs.RoomParts.{nodes_in, outs_of, inns_of};
ghost use Rattle.network_workers.specs.Seats.{DealsFit, DealsCarry, AreFew};
ghost use Rattle.network_workers.specs.Stopping.{DealsOver};

use crate::gathering::gather;
use crate::hands::{Dealt, deal};
use crate::rooms::WorkerRoom;
use crate::seats::Deal;
use crate::tail::{finish_deals, finish_deals_first};
use crate::workers::{run_workers, run_workers_first};
use cloud_points::Work;
use file_devices::Gate;
use network_core::{InsList, NodeList, Steps, Stop};
use std::marker::Brand;
use std::sync::Wait;
use std::sync::ledger::{Blank, Ledger};
use std::thread::Threads;

/// Lets the workers go round their nodes, and then the thread of the caller until all nodes are done, or as `stop` says one has a
/// fault.
fn take_turns<W: Work + Send, R: Threads + Wait + Sync, G: Gate, L: Ledger>(
    rt: &R,
    deals: &mut [Deal<W>],
    patience: u64,
    gate: &G,
    stop: Stop,
    steps: &mut Steps<L>,
)
    requires workers { length deals.old ≤ 32 }
    requires few { AreFew deals.old }
    requires fit { DealsFit W.Work deals.old }
    ensures fit { DealsFit W.Work deals.new }
    ensures carries { DealsCarry W.Work deals.old deals.new }
    ensures over { DealsOver stop deals.new }
{
    match stop {
        Stop::Last => {
            run_workers(rt, deals, patience, gate);
            finish_deals(rt, deals, steps);
        }
        Stop::First => {
            run_workers_first(rt, deals, patience, gate);
            finish_deals_first(rt, deals, steps);
        }
    }
}

/// The same of the workers of a list.
fn run_deals<W: Work + Send, R: Threads + Wait + Sync, G: Gate, L: Ledger>(
    rt: &R,
    deals: &mut Vec<Deal<W>>,
    patience: u64,
    gate: &G,
    stop: Stop,
    blank: Blank,
)
    requires workers { length deals.old.items ≤ 32 }
    requires few { AreFew deals.old.items }
    requires fit { DealsFit W.Work deals.old.items }
    requires name { blank.name ≡ L.name }
    requires parts { blank.parts ≡ L.parts }
    requires some { 0 < blank.parts }
    ensures fit { DealsFit W.Work deals.new.items }
    ensures carries { DealsCarry W.Work deals.old.items deals.new.items }
    ensures over { DealsOver stop deals.new.items }
{
    let mut steps = Steps::<L>::new(blank);
    let deals = deals.as_mut_slice();
    take_turns(rt, deals, patience, gate, stop, &mut steps);
}

/// Deals a tree of new nodes, lets them take turns until all are done, or as `stop` says one has a fault, and takes them back.
fn run_opened<W: Work + Send, R: Threads + Wait + Sync, G: Gate>(
    rt: &R,
    nodes: NodeList<W>,
    ins: &InsList,
    room: WorkerRoom<W>,
    patience: u64,
    gate: &G,
    stop: Stop,
) -> NodeList<W>
    ghost turned: { Turned W }
    requires tree { IsStart W.Work ins.now turned.start }
    requires few { length turned.start.nodes ≤ 64 }
    requires nodes { nodes ≡ turned.start.nodes }
    requires room { nodes_in room ≡ length turned.start.nodes }
    requires outs { outs_of room ≡ turned.start.outs }
    requires inns { inns_of room ≡ turned.start.inns }
    requires stop { stop ≡ turned.stop }
    ensures { HasRun W.Work turned.stop turned.start.nodes ins.now result }
{
    let Dealt {
        mut deals,
        takers,
        nodes,
        outs,
    } = deal(nodes, ins, room);
    run_deals::<W, R, G, Brand>(rt, &mut deals, patience, gate, stop, Blank::new(1));
    gather(deals, takers.as_slice(), ins, nodes, outs)
}

/// Lets new nodes take turns on several threads until all are done, or as `stop` says one has a fault, over the queues and the
/// workers of a room, and hands the nodes back. `ins` has the numbers of each node's children in the order of its inputs, and the
/// last node is the root.
///
/// Each worker goes round the nodes that were dealt to it, and stops when all of them are done or `patience` rounds in a row did no
/// work; a patience of 0 counts as 1. Before each turn it asks the gate with its own number and the node's. Then the thread of the
/// caller goes round all nodes until all are done. Whatever turns are taken, the nodes end as those that one thread runs, and all
/// that a node sent was got by its parent.
///
/// Where turns end at the first fault, a worker also stops once one of its own nodes has one, and with a fault among the nodes the
/// thread of the caller takes no turn. Each fault that stands at a node then is the one that was to come to it, and what was got
/// on each queue is a first part of what was sent. How much was read by then isn't bounded.
pub fn run_tree_by<W: Work + Send, R: Threads + Wait + Sync, G: Gate>(
    rt: &R,
    nodes: NodeList<W>,
    ins: InsList,
    room: WorkerRoom<W>,
    patience: u64,
    gate: &G,
    stop: Stop,
) -> NodeList<W>
    requires some { 0 < length nodes }
    requires few { length nodes ≤ 64 }
    requires fresh { AreFresh W.Work ins nodes }
    requires forest { IsForest ins (length nodes - 1) }
    requires room { nodes_in room ≡ length nodes }
    ensures { HasRun W.Work stop nodes ins result }
{
    run_opened(rt, nodes, &ins, room, patience, gate, stop)
}
