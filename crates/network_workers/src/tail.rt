//! The tail of a run, on the thread of the caller.

ghost use Rattle.std.specs.Prelude.{◌≡◌, ◌<◌, ◌^◌, true, false, length};
ghost use Rattle.network_core.specs.declared.stop.Stop.TheVariants.{First};
ghost use Rattle.network_workers.specs.Pays.{SeatsPaid, DealsPaid};
ghost use Rattle.network_workers.specs.Seats.{AreFit, SeatsCarry, DealsFit, DealsCarry, DealsDone, AreFew};
ghost use Rattle.network_workers.specs.Stopping.{stops_in, stops_among, Somewhere, Nowhere, AtMostOnce};
ghost use Rattle.network_workers.specs.Stopping.{TurnsTaken, EndedInTime, DealsOver};

use crate::rounds::are_done;
use crate::seats::{Deal, Seat, SeatIn};
use crate::stopping::{ends_behind, some_ends};
use crate::turns::turn_at;
use cloud_points::Work;
use network_core::{Steps, Stop};
use std::sync::Wait;
use std::sync::ledger::Ledger;

/// Whether all nodes of all deals are done.
fn all_done<W: Work>(deals: &[Deal<W>]) -> bool
    ensures { result ≡ true → DealsDone deals.now }
{
    for i in 0..deals.len() {
        if !are_done(deals[i].seats.as_slice()) {
            return false;
        }
    }
    true
}

/// Whether there is a seat of one of these deals behind which turns end.
fn some_end<W: Work>(deals: &[Deal<W>], stop: Stop) -> bool
    ensures some { result ≡ true → Somewhere (stops_among stop deals.now) }
    ensures none { result ≡ false → Nowhere (stops_among stop deals.now) }
{
    for i in 0..deals.len() {
        if some_ends(deals[i].seats.as_slice(), stop) {
            return true;
        }
    }
    false
}

/// Whether turns on all deals end.
fn are_over<W: Work>(deals: &[Deal<W>], stop: Stop) -> bool
    ensures over { result ≡ true → DealsOver stop deals.now }
    ensures none { result ≡ false → Nowhere (stops_among stop deals.now) }
{
    all_done(deals) || some_end(deals, stop)
}

/// A turn of each seat, up to one behind which turns end. Whether there was one.
fn turn_each<W: Work, R: Wait, L: Ledger>(
    rt: &R,
    seats: &mut Vec<Seat<W>>,
    ins: &mut Vec<SeatIn>,
    steps: &mut Steps<L>,
    stop: Stop,
) -> bool
    requires few { length seats.old.items < 2 ^ 32 }
    requires fit { AreFit W.Work ins.old.items seats.old.items }
    ensures fit { AreFit W.Work ins.new.items seats.new.items }
    ensures carries { SeatsCarry W.Work ins.old.items ins.new.items seats.old.items seats.new.items }
    ensures paid { SeatsPaid W.Work steps.old steps.new
        ins.old.items ins.new.items seats.old.items seats.new.items }
    ensures taken { TurnsTaken result (stops_in stop seats.old.items) (stops_in stop seats.new.items) }
{
    for at in 0..seats.len() {
        let worked = turn_at(rt, seats, ins, at).did_work();
        steps.count(worked);
        if ends_behind(seats.as_slice(), at, stop) {
            return true;
        }
    }
    false
}

/// A turn of each seat of a deal, up to one behind which turns end. Whether there was one.
fn turn_deal<W: Work, R: Wait, L: Ledger>(
    rt: &R,
    deals: &mut [Deal<W>],
    i: usize,
    steps: &mut Steps<L>,
    stop: Stop,
) -> bool
    requires place { i < length deals.old }
    requires few { AreFew deals.old }
    requires fit { DealsFit W.Work deals.old }
    ensures fit { DealsFit W.Work deals.new }
    ensures carries { DealsCarry W.Work deals.old deals.new }
    ensures paid { DealsPaid W.Work steps.old steps.new deals.old deals.new }
    ensures taken { TurnsTaken result (stops_among stop deals.old) (stops_among stop deals.new) }
{
    let deal = &mut deals[i];
    turn_each(rt, &mut deal.seats, &mut deal.ins, steps, stop)
}

/// A turn of each seat of all deals, up to one behind which turns end.
fn turn_all<W: Work, R: Wait, L: Ledger>(
    rt: &R,
    deals: &mut [Deal<W>],
    steps: &mut Steps<L>,
    stop: Stop,
)
    requires few { AreFew deals.old }
    requires fit { DealsFit W.Work deals.old }
    ensures few { AreFew deals.new }
    ensures fit { DealsFit W.Work deals.new }
    ensures carries { DealsCarry W.Work deals.old deals.new }
    ensures paid { DealsPaid W.Work steps.old steps.new deals.old deals.new }
    ensures one { Nowhere (stops_among stop deals.old) → AtMostOnce (stops_among stop deals.new) }
{
    for i in 0..deals.len() {
        if turn_deal(rt, deals, i, steps, stop) {
            return;
        }
    }
}

/// Turns the nodes of all deals until all are done, or as `stop` says one has a fault, and counts the turns
/// that did work.
fn finish_until<W: Work, R: Wait, L: Ledger>(
    rt: &R,
    deals: &mut [Deal<W>],
    steps: &mut Steps<L>,
    stop: Stop,
)
    requires few { AreFew deals.old }
    requires fit { DealsFit W.Work deals.old }
    ensures fit { DealsFit W.Work deals.new }
    ensures carries { DealsCarry W.Work deals.old deals.new }
    ensures paid { DealsPaid W.Work steps.old steps.new deals.old deals.new }
    ensures over { DealsOver stop deals.new }
    ensures ended { EndedInTime (stops_among stop) deals.old deals.new }
    ensures uncounted { Somewhere (stops_among stop deals.old) → steps.new ≡ steps.old }
{
    for _ in rt.forever() {
        if are_over(deals, stop) {
            return;
        }
        turn_all(rt, deals, steps, stop);
    }
    unreachable!()
}

/// Turns the nodes of all deals on the thread of the caller until all are done, and counts the turns that did
/// work in `steps`. Each of these turns lowers what is owed with what was sent by one at least, but for what
/// was got in between.
pub fn finish_deals<W: Work, R: Wait, L: Ledger>(
    rt: &R,
    deals: &mut [Deal<W>],
    steps: &mut Steps<L>,
)
    requires few { AreFew deals.old }
    requires fit { DealsFit W.Work deals.old }
    ensures fit { DealsFit W.Work deals.new }
    ensures carries { DealsCarry W.Work deals.old deals.new }
    ensures paid { DealsPaid W.Work steps.old steps.new deals.old deals.new }
    ensures done { DealsDone deals.new }
{
    finish_until(rt, deals, steps, Stop::Last);
}

/// Turns the nodes of all deals, as `finish_deals` does, until all are done or one has a fault. No turn comes
/// after a fault, and none at all where a node has one at the start: then the deals and the count of turns
/// stay as they were.
pub fn finish_deals_first<W: Work, R: Wait, L: Ledger>(
    rt: &R,
    deals: &mut [Deal<W>],
    steps: &mut Steps<L>,
)
    requires few { AreFew deals.old }
    requires fit { DealsFit W.Work deals.old }
    ensures fit { DealsFit W.Work deals.new }
    ensures carries { DealsCarry W.Work deals.old deals.new }
    ensures paid { DealsPaid W.Work steps.old steps.new deals.old deals.new }
    ensures over { DealsOver First deals.new }
    ensures ended { EndedInTime (stops_among First) deals.old deals.new }
    ensures uncounted { Somewhere (stops_among First deals.old) → steps.new ≡ steps.old }
{
    finish_until(rt, deals, steps, Stop::First);
}
