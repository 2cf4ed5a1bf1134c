//! Rounds of one worker.

ghost use Rattle.std.specs.Prelude.{◌≡◌, ◌<◌, ◌^◌, true, false, length};
ghost use Rattle.network_workers.specs.Seats.{AreFit, AreDone, SeatsCarry};
ghost use Rattle.network_workers.specs.Stopping.{stops_in, Somewhere, Nowhere, AtMostOnce, OtherSeatsStay};

use crate::seats::{Seat, SeatIn};
use crate::stopping::{ends_behind, some_ends};
use crate::turns::turn_at;
use cloud_points::Work;
use file_devices::Gate;
use network_core::Stop;
use std::sync::Wait;
use std::sync::atomic::{AtomicBool, Ordering};
use std::thread::Parker;
use std::time::Duration;
use std::{hint, thread};

/// One or the other.
pub(crate) fn either(a: bool, b: bool) -> bool {
    a || b
}

/// A turn of the seat at a place, where the gate says so. Whether it did work.
fn turn_by_gate<W: Work, R: Wait, G: Gate>(
    rt: &R,
    worker: u32,
    seats: &mut Vec<Seat<W>>,
    ins: &mut Vec<SeatIn>,
    at: usize,
    gate: &G,
) -> bool
    requires place { at < length seats.old.items }
    requires few { length seats.old.items < 2 ^ 32 }
    requires fit { AreFit W.Work ins.old.items seats.old.items }
    ensures fit { AreFit W.Work ins.new.items seats.new.items }
    ensures carries { SeatsCarry W.Work ins.old.items ins.new.items seats.old.items seats.new.items }
    ensures others { OtherSeatsStay at seats.old.items seats.new.items }
{
    if !gate.before(worker, seats[at].stage) {
        return false;
    }
    turn_at(rt, seats, ins, at).did_work()
}

/// A turn of each seat for which the gate says so, up to one behind which turns end. Whether one of them did
/// work.
fn take_round<W: Work, R: Wait, G: Gate>(
    rt: &R,
    worker: u32,
    seats: &mut Vec<Seat<W>>,
    ins: &mut Vec<SeatIn>,
    gate: &G,
    stop: Stop,
) -> bool
    requires few { length seats.old.items < 2 ^ 32 }
    requires fit { AreFit W.Work ins.old.items seats.old.items }
    ensures fit { AreFit W.Work ins.new.items seats.new.items }
    ensures carries { SeatsCarry W.Work ins.old.items ins.new.items seats.old.items seats.new.items }
    ensures one { Nowhere (stops_in stop seats.old.items) → AtMostOnce (stops_in stop seats.new.items) }
{
    let mut worked = false;
    for at in 0..seats.len() {
        worked = either(worked, turn_by_gate(rt, worker, seats, ins, at, gate));
        if ends_behind(seats.as_slice(), at, stop) {
            return worked;
        }
    }
    worked
}

/// Whether all nodes are done.
pub(crate) fn are_done<W: Work>(seats: &[Seat<W>]) -> bool
    ensures { result ≡ true → AreDone seats.now }
{
    for at in 0..seats.len() {
        if !seats[at].node.done() {
            return false;
        }
    }
    true
}

/// So many rounds without work go on at once, and so many more only let another thread have the processor. From then
/// on a worker sleeps.
const SPINS: u64 = 64;

const YIELDS: u64 = 192;

/// The shortest sleep, in microseconds. So many sleeps in a row take the same time, and then twice that, as often as
/// this.
const SHORTEST: u64 = 32;

const EQUAL_SLEEPS: u64 = 16;

const DOUBLINGS: u64 = 10;

/// Waits behind so many rounds in a row that did no work, longer behind more of them. So a worker that waits for a
/// chunk takes it at once, and one whose nodes wait for another input to end costs next to nothing.
fn pause<R: Wait>(rt: &R, idle: u64) {
    if idle < SPINS {
        hint::spin_loop();
    } else if idle < SPINS + YIELDS {
        thread::yield_now();
    } else {
        let doublings = ((idle - SPINS - YIELDS) / EQUAL_SLEEPS).min(DOUBLINGS);
        let sleep = Duration::from_micros(SHORTEST << doublings);
        Parker::new().park_timeout(rt, sleep);
    }
}

/// Whether a worker's rounds are over: turns end behind one of its seats, which it then tells the others, another told it so, or all
/// its nodes are done.
fn are_over<W: Work>(seats: &[Seat<W>], stop: Stop, told: &AtomicBool) -> bool
    ensures { result ≡ false → Nowhere (stops_in stop seats.now) }
{
    if some_ends(seats, stop) {
        told.store(true, Ordering::Relaxed);
        return true;
    }
    told.load(Ordering::Relaxed) || are_done(seats)
}

/// Rounds of one worker, until all its nodes are done, `patience` rounds in a row did no work, or turns end
/// behind one of its seats, or behind one of another worker's as it was told.
pub(crate) fn work<W: Work, R: Wait, G: Gate>(
    rt: &R,
    worker: u32,
    seats: &mut Vec<Seat<W>>,
    ins: &mut Vec<SeatIn>,
    patience: u64,
    gate: &G,
    stop: Stop,
    told: &AtomicBool,
)
    requires few { length seats.old.items < 2 ^ 32 }
    requires fit { AreFit W.Work ins.old.items seats.old.items }
    ensures fit { AreFit W.Work ins.new.items seats.new.items }
    ensures carries { SeatsCarry W.Work ins.old.items ins.new.items seats.old.items seats.new.items }
    ensures stays { Somewhere (stops_in stop seats.old.items)
        → (seats.new ≡ seats.old) × (ins.new ≡ ins.old) }
    ensures one { Nowhere (stops_in stop seats.old.items) → AtMostOnce (stops_in stop seats.new.items) }
{
    let patience = patience.max(1);
    let mut idle = 0;
    for _ in rt.forever() {
        if idle >= patience || are_over(seats.as_slice(), stop, told) {
            break;
        }
        if take_round(rt, worker, seats, ins, gate, stop) {
            idle = 0;
        } else {
            idle += 1;
            pause(rt, idle);
        }
    }
}
