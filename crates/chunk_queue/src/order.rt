//! The rule of a queue between two threads, and the steps under it.

ghost use Rattle.std.specs.Prelude.{◌≡◌, ℕ, [], true, false};
ghost use Rattle.crossbeam_queue.specs.Passes.{view, IsPassOf};
ghost use Rattle.chunk_queue.specs.Known.{known};

use crate::known::Known;
use crate::parcel::Parcel;
use crossbeam_queue::protocol::{Join, Lesson, Outcome, Protocol, Split};
use crossbeam_queue::{Pass, RuledArrayQueue};
use std::marker::{Brand, PhantomData};

/// What was got and what is held are what was sent, in its order. The one who sends knows what was sent, and
/// the one who takes knows what was got.
pub struct InOrder;

impl Protocol<Parcel, Known<Parcel>> for InOrder {
    ghost use Rattle.std.specs.Prelude.{true, []};
    ghost use Rattle.chunk_queue.specs.Rule.{item_number, item_ends};
    ghost use Rattle.chunk_queue.specs.Known.{known, IsKept};

    ghost holds = { IsKept item_number item_ends };

    ghost first = { known true true 0 [] [] };
}

/// A push, and a look by the one who sends.
pub(crate) struct Sends;

impl Outcome<Parcel, Known<Parcel>> for Sends {
    ghost use Rattle.chunk_queue.specs.Rule.{item_number, item_ends};
    ghost use Rattle.chunk_queue.specs.Known.{Sent};

    ghost then = { Sent item_number item_ends };
}

impl Lesson<Parcel, Known<Parcel>> for Sends {
    ghost use Rattle.chunk_queue.specs.Rule.{item_number, item_ends};
    ghost use Rattle.chunk_queue.specs.Known.{HeldBySender};

    ghost fact = { HeldBySender item_number item_ends };
}

/// A pop, and a look by the one who takes.
pub(crate) struct Takes;

impl Outcome<Parcel, Known<Parcel>> for Takes {
    ghost use Rattle.chunk_queue.specs.Rule.{item_number, item_ends};
    ghost use Rattle.chunk_queue.specs.Known.{Got};

    ghost then = { Got item_number item_ends };
}

impl Lesson<Parcel, Known<Parcel>> for Takes {
    ghost use Rattle.chunk_queue.specs.Rule.{item_number, item_ends};
    ghost use Rattle.chunk_queue.specs.Known.{HeldByTaker};

    ghost fact = { HeldByTaker item_number item_ends };
}

/// A look by the one who is both.
pub(crate) struct Settles;

impl Lesson<Parcel, Known<Parcel>> for Settles {
    ghost use Rattle.chunk_queue.specs.Rule.{item_number, item_ends};
    ghost use Rattle.chunk_queue.specs.Known.{HeldByBoth};

    ghost fact = { HeldByBoth item_number item_ends };
}

/// How much room a queue has.
pub(crate) trait Room {
    ghost room: { ℕ };
}

impl Room for Brand {
    ghost room = { 0 };
}

/// One who sends and one who takes, over a queue with this much room.
struct Roles<B> {
    of: PhantomData<B>,
}

impl<B: Room> Split<Known<Parcel>> for Roles<B> {
    ghost use Rattle.std.specs.Prelude.{true, false, []};
    ghost use Rattle.chunk_queue.specs.Known.{known};

    ghost left = { λ v. known true false B.room [] [] };

    ghost right = { λ v. known false true B.room [] [] };
}

/// The one who takes becomes the one who sends too.
pub(crate) struct Whole;

impl Join<Known<Parcel>> for Whole {
    ghost use Rattle.std.specs.Prelude.{true, false, []};
    ghost use Rattle.chunk_queue.specs.Known.{known};

    ghost both = { λ v u. known true true v.room u.sent v.got };

    ghost spent = { known false false 0 [] [] };
}

pub(crate) type Line = RuledArrayQueue<Parcel, Known<Parcel>, InOrder>;

pub(crate) type LinePass = Pass<Parcel, Known<Parcel>>;

/// Splits the one pass of a new queue into that of the one who sends and that of the one who takes.
pub(crate) fn give_roles<B: Room>(
    line: &Line,
    pass: LinePass,
    capacity: usize,
) -> (LinePass, LinePass)
    requires queue { IsPassOf line.now pass }
    requires fresh { view pass ≡ known true true 0 [] [] }
    requires room { capacity ≡ B.room }
    ensures queue { IsPassOf line.now result.0 × IsPassOf line.now result.1 }
    ensures out { view result.0 ≡ known true false capacity [] [] }
    ensures inn { view result.1 ≡ known false true capacity [] [] }
{
    let _room = capacity;
    let mut pass = pass;
    let other = line.another::<Roles<B>>(&mut pass);
    (pass, other)
}
