//! A turn of a node at its place in a deal.

ghost use Rattle.std.specs.Prelude.{◌≡◌, ◌<◌, ◌^◌, ◌&&◌, ◌==◌, [], cond, true, false, Some};
ghost use Rattle.std.specs.Prelude.{is_none, is_some, length};
ghost use Rattle.network_core.specs.Ruled.{RuledTurn};
ghost use Rattle.network_core.specs.Shown.{shown, current_of, turned};
ghost use Rattle.network_theory.specs.Net.{works};
ghost use Rattle.network_workers.specs.Ends.{first_at, sent_on, since, InGrew, OutGrew};
ghost use Rattle.network_workers.specs.Seats.{IsFit, AreFit, SeatsCarry, SentBy, node_of};
ghost use Rattle.network_workers.specs.Pays.{SeatsPaid};
ghost use Rattle.network_workers.specs.Stopping.{OtherSeatsStay};
ghost use Rattle.network_workers.specs.Turns.{CarriesTurn};

use crate::seats::{Seat, SeatIn};
use chunk_queue::RuledIn;
use cloud_points::Work;
use network_core::Turned;
use std::sync::Wait;

/// One and the other.
fn both(a: bool, b: bool) -> bool
    ensures { result ≡ a && b }
{
    a && b
}

/// The place of the end of an input of a seat, or the number of ends where it has none.
fn place_of(ins: &[SeatIn], seat: u32, input: u32) -> usize
    ensures { result ≡ first_at ins.now seat input }
{
    for at in 0..ins.len() {
        if both(ins[at].seat == seat, ins[at].input == input) {
            return at;
        }
    }
    ins.len()
}

/// A turn of a node that reads an input.
fn turn_reader<W: Work, R: Wait>(rt: &R, seat: &mut Seat<W>, input: &mut RuledIn) -> Turned
    requires reads { is_some (current_of (shown W.Work [] (node_of seat.old))) ≡ true }
    requires sent { SentBy W.Work (node_of seat.old) seat.old.out }
    ensures stage { seat.new.stage ≡ seat.old.stage }
    ensures turn { RuledTurn W.Work (is_none seat.old.out) true (node_of seat.old) (node_of seat.new) result
        (since input.old.got input.new.got) (since (sent_on seat.old.out) (sent_on seat.new.out)) }
    ensures read { InGrew input.old input.new }
    ensures out { OutGrew seat.old.out seat.new.out }
{
    match &mut seat.out {
        Some(out) => seat.node.turn_ruled_inner(rt, input, out),
        None => seat.node.turn_ruled_root(rt, input),
    }
}

/// A turn of a node that has no input to read.
fn turn_last<W: Work, R: Wait>(rt: &R, seat: &mut Seat<W>) -> Turned
    requires sent { SentBy W.Work (node_of seat.old) seat.old.out }
    ensures stage { seat.new.stage ≡ seat.old.stage }
    ensures turn { RuledTurn W.Work (is_none seat.old.out) false (node_of seat.old) (node_of seat.new) result
        [] (since (sent_on seat.old.out) (sent_on seat.new.out)) }
    ensures out { OutGrew seat.old.out seat.new.out }
{
    match &mut seat.out {
        Some(out) => seat.node.turn_ruled_leaf(rt, out),
        None => seat.node.turn_ruled_alone(),
    }
}

/// A turn of a seat, with the end of its current input.
fn turn_over<W: Work, R: Wait>(
    rt: &R,
    seat: &mut Seat<W>,
    ins: &mut Vec<SeatIn>,
    at: u32,
    input: u32,
) -> Turned
    requires current { current_of (shown W.Work [] (node_of seat.old)) ≡ Some input }
    requires fit { IsFit W.Work ins.old.items at seat.old }
    ensures turn { CarriesTurn W.Work at ins.old.items ins.new.items seat.old seat.new result }
{
    let place = place_of(ins.as_slice(), at, input);
    let entry = &mut ins[place];
    turn_reader(rt, seat, &mut entry.end)
}

/// A turn of a seat.
fn turn_seat<W: Work, R: Wait>(rt: &R, seat: &mut Seat<W>, ins: &mut Vec<SeatIn>, at: u32) -> Turned
    requires fit { IsFit W.Work ins.old.items at seat.old }
    ensures turn { CarriesTurn W.Work at ins.old.items ins.new.items seat.old seat.new result }
{
    match seat.node.current() {
        Some(input) => turn_over(rt, seat, ins, at, input),
        None => turn_last(rt, seat),
    }
}

/// A turn of the seat at a place.
pub(crate) fn turn_at<W: Work, R: Wait>(
    rt: &R,
    seats: &mut Vec<Seat<W>>,
    ins: &mut Vec<SeatIn>,
    at: usize,
) -> Turned
    requires place { at < length seats.old.items }
    requires few { length seats.old.items < 2 ^ 32 }
    requires fit { AreFit W.Work ins.old.items seats.old.items }
    ensures fit { AreFit W.Work ins.new.items seats.new.items }
    ensures carries { SeatsCarry W.Work ins.old.items ins.new.items seats.old.items seats.new.items }
    ensures others { OtherSeatsStay at seats.old.items seats.new.items }
    ensures paid { SeatsPaid W.Work 0 (cond (works (turned result)) 1 0)
        ins.old.items ins.new.items seats.old.items seats.new.items }
{
    let seat = &mut seats[at];
    turn_seat(rt, seat, ins, at as u32)
}
