//! Turns over queues of one thread.

use super::{Begun, Node};
use crate::turned::{Turned, Why};
use chunk_queue::PlainQueue;
use cloud_points::Work;

impl<W: Work> Node<W> {
    ghost use Rattle.std.specs.Prelude.{◌≡◌, ◌<◌, ℕ, List, [], true, false, is_none};
    ghost use Rattle.cloud_points.specs.declared.point.Point.{Point};
    ghost use Rattle.cloud_points.specs.Bodies.{bodies, numbers};
    ghost use Rattle.cloud_points.specs.Marks.{Item};
    ghost use Rattle.network_theory.specs.Net as net;
    ghost use Rattle.network_theory.specs.History.{points_taken};
    ghost use Rattle.network_core.specs.Shown.{shown, current_of, choice};
    ghost use Rattle.network_core.specs.Shown.{left, turned};
    ghost use Rattle.network_core.specs.Table.{IsRow};
    ghost use Rattle.network_core.specs.Calm.{Obeys};
    ghost use Rattle.network_core.specs.Holding.{KeepsHolding, HoldsMore};
    ghost use Rattle.network_core.specs.Queues.{lent_items, room, room_left, left_items};

    /// One turn, which does the first of these that applies. An item in the hand is given: the root lays it
    /// down, another node puts it into `out`, or does nothing where that is full. A done node does nothing.
    /// An end that is still to come goes into the hand. A leaf makes its next item. Any other node takes the
    /// first item of `input`, or does nothing where there is none.
    ///
    /// `input` is the queue of the current input, and None exactly where there is none. `out` is None exactly
    /// for the root.
    pub fn turn(&mut self, input: Option<&mut PlainQueue>, out: Option<&mut PlainQueue>) -> Turned
        requires { is_none input ≡ is_none (current_of (shown W.Work [] self.old)) }
        ensures row { IsRow W.Work (is_none out.entry) (room out.entry) self.old self.new result
            (lent_items input.entry) (lent_items out.entry) (left_items input.exit) (left_items out.exit) }
        ensures above { numbers (left_items out.exit)
            ≡ net.numbers_above (is_none out.entry) (turned result) (numbers (lent_items out.entry))
            (shown W.Work [] self.old).sent }
        ensures left { numbers (left_items input.exit)
            ≡ net.numbers_left (turned result) (numbers (lent_items input.entry)) }
        ensures rooms { (room_left input.exit ≡ room input.entry) × (room_left out.exit ≡ room out.entry) }
        ensures obeys { Obeys W.Work self.old self.new }
        ensures holds { HoldsMore W.Work self.old self.new
            (points_taken (turned result) (bodies (lent_items input.entry))) }
    {
        let Some(out) = out else {
            let Some(input) = input else {
                return self.turn_alone();
            };
            return self.turn_root(input);
        };
        let Some(input) = input else {
            return self.turn_leaf(out);
        };
        self.turn_inner(input, out)
    }

    /// A turn of a node with an input and a parent.
    pub(crate) fn turn_inner(&mut self, input: &mut PlainQueue, out: &mut PlainQueue) -> Turned
        requires { self.old.ended < self.old.inputs }
        ensures row { IsRow W.Work false out.old.capacity self.old self.new result
            input.old.items out.old.items input.new.items out.new.items }
        ensures above { numbers out.new.items
            ≡ net.numbers_above false (turned result) (numbers out.old.items) self.old.given }
        ensures left { numbers input.new.items ≡ net.numbers_left (turned result) (numbers input.old.items) }
        ensures room { (input.new.capacity ≡ input.old.capacity) × (out.new.capacity ≡ out.old.capacity) }
        ensures obeys { Obeys W.Work self.old self.new }
        ensures holds { HoldsMore W.Work self.old self.new
            (points_taken (turned result) (bodies input.old.items)) }
    {
        match self.begin() {
            Begun::Give(kind) => self.give_to(kind, out),
            Begun::Take => self.take_from(input),
            Begun::Ended(turned) => turned,
        }
    }

    /// A turn of a node with a parent and no input to read.
    pub(crate) fn turn_leaf(&mut self, out: &mut PlainQueue) -> Turned
        ensures row { IsRow W.Work false out.old.capacity self.old self.new result
            [] out.old.items [] out.new.items }
        ensures above { numbers out.new.items
            ≡ net.numbers_above false (turned result) (numbers out.old.items) self.old.given }
        ensures left { net.numbers_left (turned result) [] ≡ [] }
        ensures room { out.new.capacity ≡ out.old.capacity }
        ensures obeys { Obeys W.Work self.old self.new }
        ensures holds { KeepsHolding W.Work self.old self.new }
    {
        match self.begin() {
            Begun::Give(kind) => self.give_to(kind, out),
            Begun::Take => Turned::Idle(Why::Empty),
            Begun::Ended(turned) => turned,
        }
    }

    /// A turn of a root with an input.
    pub(crate) fn turn_root(&mut self, input: &mut PlainQueue) -> Turned
        requires { self.old.ended < self.old.inputs }
        ensures row { (ins : List ℕ) (cap : ℕ) (out : List (Item Point))
            → left (shown W.Work ins self.new) (bodies input.new.items) out result
            ≡ net.turn true cap (choice W.Work self.old self.new) (shown W.Work ins self.old)
            (bodies input.old.items) out }
        ensures above { (ns : List ℕ) (number : ℕ) → net.numbers_above true (turned result) ns number ≡ ns }
        ensures left { numbers input.new.items ≡ net.numbers_left (turned result) (numbers input.old.items) }
        ensures room { input.new.capacity ≡ input.old.capacity }
        ensures obeys { Obeys W.Work self.old self.new }
        ensures holds { HoldsMore W.Work self.old self.new
            (points_taken (turned result) (bodies input.old.items)) }
    {
        match self.begin() {
            Begun::Give(kind) => self.lay_down(kind),
            Begun::Take => self.take_from(input),
            Begun::Ended(turned) => turned,
        }
    }

    /// A turn of a root with no input to read.
    pub(crate) fn turn_alone(&mut self) -> Turned
        ensures row { (ins : List ℕ) (cap : ℕ) (out : List (Item Point))
            → left (shown W.Work ins self.new) [] out result
            ≡ net.turn true cap (choice W.Work self.old self.new) (shown W.Work ins self.old) [] out }
        ensures above { (ns : List ℕ) (number : ℕ) → net.numbers_above true (turned result) ns number ≡ ns }
        ensures left { net.numbers_left (turned result) [] ≡ [] }
        ensures obeys { Obeys W.Work self.old self.new }
        ensures holds { KeepsHolding W.Work self.old self.new }
    {
        match self.begin() {
            Begun::Give(kind) => self.lay_down(kind),
            Begun::Take => Turned::Idle(Why::Empty),
            Begun::Ended(turned) => turned,
        }
    }
}
