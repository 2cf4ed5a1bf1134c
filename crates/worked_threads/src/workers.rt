//! Workers that go round their nodes.

ghost use Rattle.std.specs.Prelude.{◌≡◌, [], length, IfSome};
ghost use Rattle.network_workers.specs.Seats.{DealFits};

use chunk_queue::{RuledOut, RuledQueue};
use cloud_points::{Make, Point, PointFault, Spread, StageFault, Work};
use lasline_top::AlwaysOpen;
use network_core::{Node, Stop};
use network_workers::{Deal, Seat, run_workers, run_workers_first};
use std::alloc::Global;
use std::sync::Wait;
use std::thread::Threads;

/// A leaf gives its points one by one, the end of its view, and the end of all, or a cut end where its file is
/// cut; any other lets all through.
#[derive(Drop)]
struct Giver {
    leaf: bool,
    left: u64,
    viewed: bool,
    file_cut: bool,
}

impl Work for Giver {
    ghost use Rattle.std.specs.Prelude.{◌≡◌, true, false, None, cond, [], ◌++◌};
    ghost use Rattle.worked_threads.specs.PassingMeaning.{passing, passing_keeps};

    type State = ();

    ghost state = { λ _. tt };

    ghost meaning = { λ _. passing };

    ghost leaf = { λ w. w.leaf };

    ghost short = { λ _. false };

    ghost faults = { λ _. 0 };

    ghost op = { λ _. None };

    ghost tells = { λ _. false };

    ghost told = { λ _. [] };

    ghost told_fault = { λ _. None };

    ghost points_left = { λ w. w.left };

    ghost views_left = { λ w. cond w.viewed 0 1 };

    ghost extent = { λ _. None };

    ghost ahead = { λ _. 0 };

    ghost holds = { λ _ _. true };

    ghost cutting = { λ _. passing_keeps };

    fn is_leaf(&self) -> bool {
        self.leaf
    }

    fn make(&mut self, _chunk: usize, into: &mut Spread) -> Make {
        into.clear();
        if self.file_cut {
            return Make::End(true, Some(StageFault::Point(PointFault::Cut(0))));
        }
        if self.left > 0 {
            self.left -= 1;
            into.push(Point::zero());
            return Make::Points;
        }
        if self.viewed {
            return Make::End(false, None);
        }
        self.viewed = true;
        Make::EndView
    }

    fn on_chunk(&mut self, _points: &mut Spread) -> Option<StageFault> {
        None
    }

    fn on_end_view(&mut self) -> bool {
        true
    }

    fn on_end(&mut self, _cut: bool) -> bool {
        false
    }
}

/// A worker with one node, which gives three items, or a cut end.
fn leaf_deal(alloc: Global, stage: u32, out: RuledOut, file_cut: bool) -> Option<Deal<Giver>>
    requires new { out.sent ≡ [] }
    ensures few { IfSome result (λ deal. length deal.seats.items ≡ 1) }
    ensures fits { IfSome result (λ deal. DealFits ⟦<Giver as Work>⟧ deal) }
{
    let leaf = Giver {
        leaf: true,
        left: 1,
        viewed: false,
        file_cut,
    };
    let node = Node::new(leaf, 0, 64);
    let out = Some(out);
    let seats = vec![in alloc; Seat { stage, node, out }].ok()?;
    let ins = Vec::new(alloc);
    Some(Deal { seats, ins })
}

/// Whether the node of a worker is done, and how many points it counted.
fn came(deal: &Deal<Giver>) -> Option<(bool, u64)> {
    let seat = deal.seats.first()?;
    Some((seat.node.done(), seat.node.points()))
}

/// What two workers came to that stop at their first round without work, or at a fault. Their queues have room
/// for all that they give. The file of the first one's node is cut.
fn work_two<R: Threads + Wait + Sync>(
    rt: &R,
    alloc: Global,
    stop: Stop,
) -> Option<[Option<(bool, u64)>; 2]> {
    let mut one = RuledQueue::new(alloc, 8).ok()?;
    let mut other = RuledQueue::new(alloc, 8).ok()?;
    let (first, _first_in) = one.split();
    let (second, _second_in) = other.split();
    let mut deals = [
        leaf_deal(alloc, 0, first, true)?,
        leaf_deal(alloc, 1, second, false)?,
    ];
    match stop {
        Stop::Last => run_workers(rt, &mut deals, 1, &AlwaysOpen),
        Stop::First => run_workers_first(rt, &mut deals, 1, &AlwaysOpen),
    }
    Some([came(&deals[0]), came(&deals[1])])
}

/// A worker has its nodes done where nothing is in their way, also where one has a fault: no clause says that a
/// worker takes a turn.
pub fn a_worker_has_its_node_done<R: Threads + Wait + Sync>(rt: &R, alloc: Global) -> bool {
    work_two(rt, alloc, Stop::Last) == Some([Some((true, 0)), Some((true, 1))])
}

/// A worker that is to stop at a fault leaves the node that has it. Another one goes on until it is told, which may be before its
/// first round or behind its last.
pub fn a_worker_stops_at_a_fault<R: Threads + Wait + Sync>(rt: &R, alloc: Global) -> bool {
    let first = work_two(rt, alloc, Stop::First).and_then(|came| came[0]);
    first == Some((false, 0))
}
