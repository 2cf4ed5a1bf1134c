//! Workers, each on a thread of its own where one can be made.

ghost use Rattle.std.specs.Prelude.{◌≡◌, ◌<◌, ◌≤◌, ◌^◌, ℕ, length, slice_index_or};
ghost use Rattle.network_core.specs.declared.stop.Stop.TheVariants.{First};
ghost use Rattle.network_workers.specs.Seats.{DealFits, DealCarries, DealsFit, DealsCarry, AreFew};
ghost use Rattle.network_workers.specs.Stopping.{DealEnded, DealsEnded};

use crate::rounds::work;
use crate::seats::Deal;
use cloud_points::Work;
use file_devices::Gate;
use network_core::Stop;
use std::sync::Wait;
use std::sync::atomic::AtomicBool;
use std::thread;
use std::thread::Threads;

/// Lets each worker go round the nodes of its deal until all of them are done, `patience` rounds in a row did
/// no work, or as `stop` says one of them has a fault.
fn run_until<W: Work + Send, R: Threads + Wait + Sync, G: Gate>(
    rt: &R,
    deals: &mut [Deal<W>],
    patience: u64,
    gate: &G,
    stop: Stop,
)
    requires workers { length deals.old ≤ 32 }
    requires few { AreFew deals.old }
    requires fit { DealsFit W.Work deals.old }
    ensures fit { DealsFit W.Work deals.new }
    ensures carries { DealsCarry W.Work deals.old deals.new }
    ensures ended { DealsEnded stop deals.old deals.new }
{
    let count = deals.len();
    if count == 0 {
        return;
    }
    // Set once a worker saw a fault at which turns end, so that no other one waits out its patience then.
    let told = AtomicBool::new(false);
    thread::for_each_mut(
        rt,
        deals,
        count,
        &|i: usize, deal: &mut Deal<W>|
            requires { (i < 32) × (length deal.old.seats.items < 2 ^ 32) × DealFits W.Work deal.old }
            ensures { DealFits W.Work deal.new × DealCarries W.Work deal.old deal.new
                × DealEnded stop deal.old deal.new }
        {
            work(
                rt,
                i as u32,
                &mut deal.seats,
                &mut deal.ins,
                patience,
                gate,
                stop,
                &told,
            )
        },
    );
}

/// Lets each worker go round the nodes of its deal. It stops when all of them are done, and after `patience`
/// rounds in a row in which no turn did work; a patience of 0 counts as 1. Before each turn it asks the gate
/// with its own number and the node's stage.
///
/// Each node stays at its place with its ends. What it took in between is what the ends of its inputs got,
/// and where no event came what was taken is carried to what it gave, which is what was sent on its end.
pub fn run_workers<W: Work + Send, R: Threads + Wait + Sync, G: Gate>(
    rt: &R,
    deals: &mut [Deal<W>],
    patience: u64,
    gate: &G,
)
    requires workers { length deals.old ≤ 32 }
    requires few { AreFew deals.old }
    requires fit { DealsFit W.Work deals.old }
    ensures fit { DealsFit W.Work deals.new }
    ensures carries { DealsCarry W.Work deals.old deals.new }
{
    run_until(rt, deals, patience, gate, Stop::Last);
}

/// Lets each worker go round the nodes of its deal, as `run_workers` does. A worker also stops once one of its
/// nodes has a fault: no turn of its own comes after that, and where one has a fault at the start it takes
/// none. The others are told, and stop before their next round.
pub fn run_workers_first<W: Work + Send, R: Threads + Wait + Sync, G: Gate>(
    rt: &R,
    deals: &mut [Deal<W>],
    patience: u64,
    gate: &G,
)
    requires workers { length deals.old ≤ 32 }
    requires few { AreFew deals.old }
    requires fit { DealsFit W.Work deals.old }
    ensures fit { DealsFit W.Work deals.new }
    ensures carries { DealsCarry W.Work deals.old deals.new }
    ensures ended { DealsEnded First deals.old deals.new }
{
    run_until(rt, deals, patience, gate, Stop::First);
}
