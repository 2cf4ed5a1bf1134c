//! Turns over the ends of queues between threads.

ghost use Rattle.std.specs.Prelude.{◌≡◌, ◌<◌, ◌++◌, ℕ, List, [], Bool, true, false, Some, None, is_some};
ghost use Rattle.std.specs.Prelude.{is_none};
ghost use Rattle.cloud_points.specs.declared.point.Point.{Point};
ghost use Rattle.cloud_points.specs.declared.faults.StageFault.{StageFault};
ghost use Rattle.cloud_points.specs.Bodies.{bodies};
ghost use Rattle.cloud_points.specs.Marks.{Item};
ghost use Rattle.network_theory.specs.History.{all_item_points};
ghost use Rattle.network_theory.specs.Net as net;
ghost use Rattle.network_core.specs.Calm.{Calm, Told, Obeys};
ghost use Rattle.network_core.specs.Hands.{kind_item};
ghost use Rattle.network_core.specs.Holding.{KeepsHolding, HoldsMore};
ghost use Rattle.network_core.specs.LentEnds.{taken_lent, sent_lent, Before, After, Between};
ghost use Rattle.network_core.specs.Ruled.{taken, sent, MayHave, IsRuledRow, RuledTurn, Takes, Sends};
ghost use Rattle.network_core.specs.Ruled.{HasSent, Closes, is_read, is_gift};
ghost use Rattle.network_core.specs.Shown.{shown, current_of, chosen, left, turned};

use super::{Begun, Node};
use crate::turned::{Turned, Why};
use chunk_queue::{ItemKind, RuledIn, RuledOut, Tag};
use cloud_points::Work;
use std::sync::Wait;

impl<W: Work> Node<W> {
    /// What is in the hand is sent, where there is room.
    fn give_ruled<R: Wait>(&mut self, rt: &R, kind: ItemKind, out: &mut RuledOut) -> Turned
        requires hand { self.old.hand ≡ Some kind }
        requires sent { HasSent (shown W.Work [] self.old) out.old }
        ensures row { (ins : List ℕ) (reads : Bool) (cap : ℕ) (rest outs : List (Item Point))
            (ch : net.Choice W.State Point StageFault) → MayHave reads (turned result) cap rest outs
            → left (shown W.Work ins self.new) rest (outs ++ bodies (sent out.old out.new)) result
            ≡ net.with_hand false cap ch (shown W.Work ins self.old) rest outs
            (Some (kind_item kind self.old.spread.items)) }
        ensures sends { Sends out.old out.new (turned result) }
        ensures reads { is_read result ≡ false }
        ensures calm { Calm W.Work self.old self.new }
        ensures told { Told W.Work self.old → Told W.Work self.new }
        ensures holds { KeepsHolding W.Work self.old self.new }
    {
        let tag = Tag {
            no: self.given,
            kind,
        };
        let points = self.spread.points().len();
        if !self.spread.send(rt, tag, out) {
            return Turned::Idle(Why::Full);
        }
        self.hand = None;
        self.count_gift(kind, points);
        Turned::Gave
    }

    /// Takes an item, where there is one.
    fn take_ruled<R: Wait>(&mut self, rt: &R, input: &mut RuledIn) -> Turned
        requires inner { W.leaf self.old.work ≡ false }
        requires hand { self.old.hand ≡ None }
        requires undone { self.old.done ≡ false }
        requires no_end { self.old.ending ≡ false }
        requires more { self.old.ended < self.old.inputs }
        ensures row { (ins : List ℕ) (cap : ℕ) (rest outs : List (Item Point))
            → MayHave true (turned result) cap rest outs
            → left (shown W.Work ins self.new) rest outs result
            ≡ net.takes (chosen W.Work self.old self.new) (shown W.Work ins self.old)
            (bodies (taken input.old input.new) ++ rest) outs }
        ensures takes { Takes input.old input.new (turned result) }
        ensures gives { is_gift result ≡ false }
        ensures calm { Calm W.Work self.old self.new }
        ensures holds { HoldsMore W.Work self.old self.new
            (all_item_points (bodies (taken input.old input.new))) }
    {
        match self.spread.receive(rt, input) {
            None => Turned::Idle(Why::Empty),
            Some(tag) => {
                self.take(tag.kind);
                Turned::Took
            }
        }
    }

    /// A turn of a node with an input and a parent.
    fn step_inner<R: Wait>(&mut self, rt: &R, input: &mut RuledIn, out: &mut RuledOut) -> Turned
        requires more { self.old.ended < self.old.inputs }
        requires sent { HasSent (shown W.Work [] self.old) out.old }
        ensures row { IsRuledRow W.Work false true self.old self.new result (taken input.old input.new)
            (sent out.old out.new) }
        ensures takes { Takes input.old input.new (turned result) }
        ensures sends { Sends out.old out.new (turned result) }
        ensures obeys { Obeys W.Work self.old self.new }
        ensures holds { HoldsMore W.Work self.old self.new
            (all_item_points (bodies (taken input.old input.new))) }
    {
        match self.begin() {
            Begun::Give(kind) => self.give_ruled(rt, kind, out),
            Begun::Take => self.take_ruled(rt, input),
            Begun::Ended(turned) => turned,
        }
    }

    /// A turn of a node with a parent and no input to read.
    fn step_leaf<R: Wait>(&mut self, rt: &R, out: &mut RuledOut) -> Turned
        requires sent { HasSent (shown W.Work [] self.old) out.old }
        ensures row { IsRuledRow W.Work false false self.old self.new result [] (sent out.old out.new) }
        ensures sends { Sends out.old out.new (turned result) }
        ensures obeys { Obeys W.Work self.old self.new }
        ensures holds { KeepsHolding W.Work self.old self.new }
    {
        match self.begin() {
            Begun::Give(kind) => self.give_ruled(rt, kind, out),
            Begun::Take => Turned::Idle(Why::Empty),
            Begun::Ended(turned) => turned,
        }
    }

    /// A turn of a root with an input.
    fn step_root<R: Wait>(&mut self, rt: &R, input: &mut RuledIn) -> Turned
        requires more { self.old.ended < self.old.inputs }
        ensures row { IsRuledRow W.Work true true self.old self.new result (taken input.old input.new) [] }
        ensures takes { Takes input.old input.new (turned result) }
        ensures obeys { Obeys W.Work self.old self.new }
        ensures holds { HoldsMore W.Work self.old self.new
            (all_item_points (bodies (taken input.old input.new))) }
    {
        match self.begin() {
            Begun::Give(kind) => self.lay_down(kind),
            Begun::Take => self.take_ruled(rt, input),
            Begun::Ended(turned) => turned,
        }
    }

    /// One turn over the ends of queues between threads, which does what `turn` does. It may wait.
    ///
    /// `input` is the end of the queue of the current input, and None exactly where there is none. `out` is
    /// None exactly for the root, and has sent just what the node gave.
    pub fn turn_ruled<R: Wait>(
        &mut self,
        rt: &R,
        input: Option<&mut RuledIn>,
        out: Option<&mut RuledOut>,
    ) -> Turned
        requires reads { is_some input ≡ is_some (current_of (shown W.Work [] self.old)) }
        requires sent { Before (HasSent (shown W.Work [] self.old)) out }
        ensures turn { RuledTurn W.Work (is_none out.entry) (is_some input.entry) self.old self.new result
            (taken_lent input.entry input.exit) (sent_lent out.entry out.exit) }
        ensures takes { Between (λ old new. Takes old new (turned result)) input.entry input.exit }
        ensures closes { (ins : List ℕ) → Between
            (λ old new. Closes old new (shown W.Work ins self.old) (shown W.Work ins self.new)) input.entry
            input.exit }
        ensures sends { Between (λ old new. Sends old new (turned result)) out.entry out.exit }
        ensures sent { After (HasSent (shown W.Work [] self.new)) out.exit }
    {
        let Some(out) = out else {
            let Some(input) = input else {
                return self.turn_ruled_alone();
            };
            return self.turn_ruled_root(rt, input);
        };
        let Some(input) = input else {
            return self.turn_ruled_leaf(rt, out);
        };
        self.turn_ruled_inner(rt, input, out)
    }

    /// One turn of a node with an input that is being read and a parent, as `turn_ruled` has it.
    pub fn turn_ruled_inner<R: Wait>(
        &mut self,
        rt: &R,
        input: &mut RuledIn,
        out: &mut RuledOut,
    ) -> Turned
        requires reads { is_some (current_of (shown W.Work [] self.old)) ≡ true }
        requires sent { HasSent (shown W.Work [] self.old) out.old }
        ensures turn { RuledTurn W.Work false true self.old self.new result (taken input.old input.new)
            (sent out.old out.new) }
        ensures takes { Takes input.old input.new (turned result) }
        ensures closes { (ins : List ℕ) → Closes input.old input.new (shown W.Work ins self.old)
            (shown W.Work ins self.new) }
        ensures sends { Sends out.old out.new (turned result) }
        ensures sent { HasSent (shown W.Work [] self.new) out.new }
    {
        self.step_inner(rt, input, out)
    }

    /// One turn of a node with a parent and no input to read, as `turn_ruled` has it.
    pub fn turn_ruled_leaf<R: Wait>(&mut self, rt: &R, out: &mut RuledOut) -> Turned
        requires sent { HasSent (shown W.Work [] self.old) out.old }
        ensures turn { RuledTurn W.Work false false self.old self.new result [] (sent out.old out.new) }
        ensures sends { Sends out.old out.new (turned result) }
        ensures sent { HasSent (shown W.Work [] self.new) out.new }
    {
        self.step_leaf(rt, out)
    }

    /// One turn of a root with an input that is being read, as `turn_ruled` has it.
    pub fn turn_ruled_root<R: Wait>(&mut self, rt: &R, input: &mut RuledIn) -> Turned
        requires reads { is_some (current_of (shown W.Work [] self.old)) ≡ true }
        ensures turn { RuledTurn W.Work true true self.old self.new result (taken input.old input.new) [] }
        ensures takes { Takes input.old input.new (turned result) }
        ensures closes { (ins : List ℕ) → Closes input.old input.new (shown W.Work ins self.old)
            (shown W.Work ins self.new) }
    {
        self.step_root(rt, input)
    }

    /// One turn of a root with no input to read, as `turn_ruled` has it.
    pub fn turn_ruled_alone(&mut self) -> Turned
        ensures turn { RuledTurn W.Work true false self.old self.new result [] [] }
    {
        self.turn_alone()
    }
}
