//! The memory in which the nodes of a tree take turns on several threads.

ghost use Rattle.std.specs.Prelude.{◌≡◌, ◌<◌, ◌==◌, IfOk, vec_capacity};
ghost use Rattle.std.specs.List.{count_by};
ghost use Rattle.network_workers.specs.Dealt.{own_count, workers_for};
ghost use Rattle.network_workers.specs.Rooms.{IsRoom};

use crate::seats::Deal;
use chunk_queue::{RuledIn, RuledOut, RuledQueue};
use std::alloc::{AllocError, Global};

/// The memory in which the nodes of a tree take turns on several threads: the queues between them, and room
/// for the nodes at each worker.
pub struct WorkerRoom<W> {
    /// For each node the end on which it sends, which the root lacks.
    pub(crate) outs: Vec<Option<RuledOut>>,

    /// For each node but the root the end at which its parent takes what was sent.
    pub(crate) inns: Vec<Option<RuledIn>>,

    /// For each node the number of the worker that takes it.
    pub(crate) takers: Vec<usize>,

    /// The workers, none of which has a node yet.
    pub(crate) deals: Vec<Deal<W>>,
    ghost sound: { IsRoom (vec_capacity outs) takers.items outs.items inns.items deals.items },
}

/// The two ends of the queue above each of several nodes.
#[derive(Drop)]
struct Ends {
    outs: Vec<Option<RuledOut>>,
    inns: Vec<Option<RuledIn>>,
}

impl Ends {
    ghost use Rattle.std.specs.Prelude.{◌≡◌, ◌<◌, ◌≤◌, vec_capacity, IfOk};
    ghost use Rattle.network_workers.specs.Rooms.{AreNewEnds, HaveCapacity};

    /// The two ends of a new queue above each of so many nodes but the last one.
    fn new(alloc: Global, nodes: usize, queue: usize) -> Result<Ends, AllocError>
        requires some { 0 < nodes }
        requires room { 0 < queue }
        requires small { queue ≤ 64 }
        ensures ends { IfOk result (λ ends. AreNewEnds nodes ends.outs.items ends.inns.items) }
        ensures queues { IfOk result (λ ends. HaveCapacity queue ends.outs.items) }
        ensures room { IfOk result (λ ends. vec_capacity ends.outs ≡ nodes) }
    {
        let mut outs = Vec::with_capacity(alloc, nodes)?;
        let mut inns = Vec::with_capacity(alloc, nodes - 1)?;
        for _node in 0..nodes - 1 {
            let mut edge = RuledQueue::new(alloc, queue)?;
            let (out, inn) = edge.split();
            outs.push_reserved(Some(out));
            inns.push_reserved(Some(inn));
        }
        outs.push_reserved(None);
        Ok(Ends { outs, inns })
    }
}

/// How many of a tree's nodes are its own.
fn own_count(own: &[bool]) -> usize
    ensures { result ≡ own_count own.now }
{
    own.iter().filter(|is_own| **is_own).count()
}

/// For each node the worker to whom it goes: own nodes to workers in turn.
fn takers_for(alloc: Global, own: &[bool], workers: usize) -> Result<Vec<usize>, AllocError>
    requires { 0 < workers }
    ensures { IfOk result (λ takers. takers.items ≡ workers_for workers own.now) }
{
    let mut takers = Vec::with_capacity(alloc, own.len())?;
    let mut before = 0;
    for is_own in own {
        takers.push_reserved(before % workers);
        before += usize::from(*is_own);
    }
    Ok(takers)
}

/// How many nodes go to a worker.
fn seats_of(takers: &[usize], worker: usize) -> usize
    ensures { result ≡ count_by (λ to. to == worker) takers.now }
{
    takers.iter().filter(|taker| **taker == worker).count()
}

impl<W> Deal<W> {
    ghost use Rattle.std.specs.Prelude.{◌≡◌, ℕ, IfOk};
    ghost use Rattle.network_workers.specs.Rooms.{IsIdle};

    /// A worker without a node, with room for so many seats and so many ends.
    fn new(alloc: Global, seats: usize, ends: usize) -> Result<Deal<W>, AllocError>
        ensures { IfOk result (λ deal. IsIdle seats ends deal) }
    {
        let ins = Vec::with_capacity(alloc, ends)?;
        let seats = Vec::with_capacity(alloc, seats)?;
        Ok(Deal { seats, ins })
    }
}

impl<W> WorkerRoom<W> {
    ghost use Rattle.std.specs.Prelude.{◌≡◌, ◌<◌, ◌≤◌, min, max, length, vec_len, IfOk};
    ghost use Rattle.network_theory.specs.Forest.{count_in};
    ghost use Rattle.network_workers.specs.Lists.{Each};
    ghost use Rattle.network_workers.specs.RoomParts.{HasQueues, nodes_in, workers_in, takers_in};
    ghost use Rattle.network_workers.specs.Rooms.{IsIdle};

    /// The memory of a tree's nodes, over queues of `queue` items, for `workers` workers. `own` says of each
    /// node whether it is the tree's own; the others are leaves that give nothing. More workers than own nodes
    /// there need not be, and own nodes go to them in turn. Refuses where memory is wanting.
    pub fn new(
        alloc: Global,
        own: &[bool],
        queue: usize,
        workers: u32,
    ) -> Result<WorkerRoom<W>, AllocError>
        requires some { 0 < length own.now }
        requires few { length own.now ≤ 64 }
        requires room { 0 < queue }
        requires small { queue ≤ 64 }
        requires one { 0 < workers }
        requires most { workers ≤ 32 }
        ensures nodes { IfOk result (λ room. nodes_in room ≡ length own.now) }
        ensures queues { IfOk result (HasQueues queue) }
        ensures workers { IfOk result (λ room. workers_in room ≡ min workers (max (own_count own.now) 1)) }
        ensures takers { IfOk result (λ room. takers_in room ≡ workers_for (workers_in room) own.now) }
    {
        let Ends { outs, inns } = Ends::new(alloc, own.len(), queue)?;
        let workers = (workers as usize).min(own_count(own).max(1));
        let takers = takers_for(alloc, own, workers)?;
        let deals = WorkerRoom::new_deals(alloc, takers.as_slice(), workers, own.len() - 1)?;
        Ok(WorkerRoom {
            outs,
            inns,
            takers,
            deals,
        })
    }

    /// Gives it back.
    pub fn let_go(self) {
        let WorkerRoom {
            deals,
            outs: _outs,
            inns: _inns,
            takers: _takers,
        } = self;
        WorkerRoom::end_deals(deals);
    }

    /// So many workers without a node, each with room for the seats of the nodes that go to it and for so many
    /// ends.
    fn new_deals(
        alloc: Global,
        takers: &[usize],
        workers: usize,
        ends: usize,
    ) -> Result<Vec<Deal<W>>, AllocError>
        ensures count { IfOk result (λ deals. length deals.items ≡ workers) }
        ensures idle { IfOk result (λ deals.
            Each (λ i deal. IsIdle (count_in i takers.now) ends deal) deals.items) }
    {
        let mut deals = Vec::with_capacity(alloc, workers)?;
        for worker in 0..workers {
            match Deal::new(alloc, seats_of(takers, worker), ends) {
                Ok(deal) => deals.push_reserved(deal),
                Err(error) => {
                    WorkerRoom::end_deals(deals);
                    return Err(error);
                }
            }
        }
        Ok(deals)
    }

    /// Ends workers without a node.
    pub(crate) fn end_deals(deals: Vec<Deal<W>>)
        requires { Each (λ i deal. vec_len deal.seats ≡ 0) deals.items }
    {
        let mut deals = deals;
        while let Some(deal) = deals.pop() {
            let Deal { seats, ins: _ins } = deal;
            seats.destroy_empty();
        }
        deals.destroy_empty();
    }
}
