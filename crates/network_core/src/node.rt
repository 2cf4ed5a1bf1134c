//! Nodes and their turns.

ghost use Rattle.std.specs.Prelude.{◌≡◌, ◌<◌, ◌≤◌, true, None};
ghost use Rattle.arrayvec.specs.ArrayVec.{array_vec_len};
ghost use Rattle.network_core.specs.Hands.{holds_points};

mod plain;
mod ruled;
mod taking;

use crate::parts::first;
use crate::tray::Tray;
use crate::turned::{Turned, Why};
use chunk_queue::{ItemKind, PlainQueue, Tag};
use cloud_points::{Make, StageFault, Work};

/// How a turn begins.
#[derive(Clone, Copy, Debug)]
enum Begun {
    Give(ItemKind),
    Take,
    Ended(Turned),
}

/// A stage that takes turns: its work, the inputs that it reads one after the other, and what it gives on.
#[derive(Drop)]
pub struct Node<W> {
    work: W,
    inputs: u32,
    ended: u32,
    chunk: usize,
    // What is to be given next. Points that are in the hand lie in `spread`.
    hand: Option<ItemKind>,
    spread: Tray,
    given: u64,
    cut: bool,
    fault: Option<StageFault>,
    ending: bool,
    done: bool,
    views: u64,
    points: u64,
    ghost some: { 0 < chunk },
    ghost most: { chunk ≤ 64 },
    ghost within: { ended ≤ inputs },
    ghost held: { holds_points hand ≡ true → 0 < array_vec_len spread },
    ghost rests: { done ≡ true → hand ≡ None },
}

impl<W: Work> Node<W> {
    ghost use Rattle.std.specs.Prelude.{◌≡◌, ◌<◌, ◌≤◌, ◌+◌, ◌↔◌, ℕ, List, [], Bool, true, false, Some, None};
    ghost use Rattle.std.specs.Prelude.{Option, is_none, is_some, length};
    ghost use Rattle.cloud_points.specs.declared.point.Point.{Point};
    ghost use Rattle.cloud_points.specs.declared.faults.StageFault.{StageFault};
    ghost use Rattle.cloud_points.specs.Bodies.{bodies, numbers};
    ghost use Rattle.cloud_points.specs.Marks.{Item};
    ghost use Rattle.network_theory.specs.Net as net;
    ghost use Rattle.network_theory.specs.Opening.{IsFresh};
    ghost use Rattle.network_theory.specs.History.{points_taken};
    ghost use Rattle.network_core.specs.Hands.{kind_item, seen_hand};
    ghost use Rattle.network_core.specs.Shown.{shown, new_node, work_of, current_of, chosen, choice};
    ghost use Rattle.network_core.specs.Shown.{left, turned};
    ghost use Rattle.network_core.specs.Table.{IsRow};
    ghost use Rattle.network_core.specs.Calm.{Calm, NoEvent, Told, Obeys};
    ghost use Rattle.network_core.specs.Holding.{KeepsHolding, HoldsMore};
    ghost use Rattle.network_core.specs.Ruled.{is_read};
    ghost use Rattle.network_core.specs.Begun.{Begins, TouchesNone, WillMake, made_by};
    ghost use Rattle.network_core.specs.Queues.{lent_items, room, room_left, left_items};

    /// A new node, with no inputs exactly for a leaf. A leaf makes at most `chunk` points at once, from 1 to
    /// 64.
    pub fn new(work: W, inputs: u32, chunk: usize) -> Node<W>
        requires leaf { (W.leaf work ≡ true) ↔ (inputs ≡ 0) }
        requires some { 0 < chunk }
        requires most { chunk ≤ 64 }
        ensures shown { (ins : List ℕ) → shown W.Work ins result ≡ new_node W.Work ins work inputs chunk }
        ensures work { work_of result ≡ work }
        ensures fresh { (ins : List ℕ) → length ins ≡ inputs → IsFresh (shown W.Work ins result) }
    {
        Node {
            work,
            inputs,
            ended: 0,
            chunk,
            hand: None,
            spread: Tray::new(),
            given: 0,
            cut: false,
            fault: None,
            ending: false,
            done: false,
            views: 0,
            points: 0,
        }
    }

    /// The input that is being read; None for a leaf and once all inputs ended.
    pub fn current(&self) -> Option<u32>
        ensures { result ≡ current_of (shown W.Work [] self.now) }
    {
        if self.ended < self.inputs {
            Some(self.ended)
        } else {
            None
        }
    }

    /// Whether it gave its End.
    pub fn done(&self) -> bool
        ensures { result ≡ (shown W.Work [] self.now).done }
    {
        self.done
    }

    /// Its first fault.
    pub fn fault(&self) -> Option<StageFault>
        ensures { result ≡ (shown W.Work [] self.now).machine.fault }
    {
        self.fault
    }

    /// How many views it gave on. The count stands at the greatest u64.
    pub fn views(&self) -> u64
        ensures { result ≡ (shown W.Work [] self.now).views }
    {
        self.views
    }

    /// How many points it gave on. The count stands at the greatest u64.
    pub fn points(&self) -> u64
        ensures { result ≡ (shown W.Work [] self.now).points }
    {
        self.points
    }

    /// Its work.
    pub fn work(&self) -> &W
        ensures { result.now ≡ work_of self.now }
    {
        &self.work
    }

    /// Gives its work back.
    pub fn into_work(self) -> W
        ensures { result ≡ work_of self }
    {
        self.work
    }

    /// What a turn does before it touches a queue. What is in the hand stays there.
    fn begin(&mut self) -> Begun
        ensures begins { Begins W.Work self.old self.new result }
        ensures alone { TouchesNone result }
        ensures calm { Calm W.Work self.old self.new }
        ensures within { WillMake W.Work self.old → (ins : List ℕ)
            → net.IsWithin (made_by W.Work self.old self.new) (shown W.Work ins self.old) }
        ensures part { NoEvent W.Work self.old self.new → Told W.Work self.old → WillMake W.Work self.old
            → (ins : List ℕ) → net.IsPart (made_by W.Work self.old self.new) (shown W.Work ins self.old) }
        ensures told { NoEvent W.Work self.old self.new → Told W.Work self.old → Told W.Work self.new }
        ensures holds { KeepsHolding W.Work self.old self.new }
    {
        if let Some(kind) = self.hand {
            return Begun::Give(kind);
        }
        if self.done {
            return Begun::Ended(Turned::Done);
        }
        if self.ending {
            self.make_end();
            return Begun::Ended(Turned::Made);
        }
        if self.work.is_leaf() {
            self.make_next();
            return Begun::Ended(Turned::Made);
        }
        Begun::Take
    }

    /// The end that was still to come goes into the hand.
    fn make_end(&mut self)
        requires hand { self.old.hand ≡ None }
        requires undone { self.old.done ≡ false }
        ensures calm { Calm W.Work self.old self.new }
        ensures told { Told W.Work self.old → Told W.Work self.new }
        ensures holds { KeepsHolding W.Work self.old self.new }
        ensures made { (ins : List ℕ) → shown W.Work ins self.new ≡ net.end_made (shown W.Work ins self.old) }
    {
        self.hand = Some(ItemKind::End(self.cut | self.fault.is_some()));
        self.ending = false;
    }

    /// A leaf makes its next item.
    fn make_next(&mut self)
        requires leaf { W.leaf self.old.work ≡ true }
        requires hand { self.old.hand ≡ None }
        requires undone { self.old.done ≡ false }
        ensures calm { Calm W.Work self.old self.new }
        ensures holds { KeepsHolding W.Work self.old self.new }
        ensures within { (ins : List ℕ) → net.IsWithin (made_by W.Work self.old self.new)
            (shown W.Work ins self.old) }
        ensures part { NoEvent W.Work self.old self.new → W.tells self.old.work ≡ true → self.old.fault ≡ None
            → (ins : List ℕ) → net.IsPart (made_by W.Work self.old self.new) (shown W.Work ins self.old) }
        ensures tells { NoEvent W.Work self.old self.new → W.tells self.old.work ≡ true
            → net.holds_end (seen_hand self.new.hand self.new.spread.items) ≡ false
            → (W.tells self.new.work ≡ true) × (self.new.fault ≡ self.old.fault) }
        ensures made { (ins : List ℕ) → shown W.Work ins self.new
            ≡ net.makes (made_by W.Work self.old self.new) (shown W.Work ins self.old) }
    {
        match self.spread.make(&mut self.work, self.chunk) {
            Make::Points => {
                self.hand = Some(ItemKind::Points);
            }
            Make::EndView => {
                self.hand = Some(ItemKind::EndView);
            }
            Make::End(cut, fault) => {
                self.hand = Some(ItemKind::End(cut));
                self.fault = first(self.fault, fault);
            }
        }
    }

    /// The root lays down what is in the hand.
    fn lay_down(&mut self, kind: ItemKind) -> Turned
        requires { self.old.hand ≡ Some kind }
        ensures row { (ins : List ℕ) (cap : ℕ) (input out : List (Item Point))
            (ch : net.Choice W.State Point StageFault)
            → left (shown W.Work ins self.new) input out result
            ≡ net.with_hand true cap ch (shown W.Work ins self.old) input out
            (Some (kind_item kind self.old.spread.items)) }
        ensures above { (ns : List ℕ) (number : ℕ) → net.numbers_above true (turned result) ns number ≡ ns }
        ensures reads { is_read result ≡ false }
        ensures left { (ns : List ℕ) → net.numbers_left (turned result) ns ≡ ns }
        ensures calm { Calm W.Work self.old self.new }
        ensures told { Told W.Work self.old → Told W.Work self.new }
        ensures holds { KeepsHolding W.Work self.old self.new }
    {
        self.count_up(kind);
        Turned::Gave
    }

    /// What is in the hand goes to the queue, where there is room.
    fn give_to(&mut self, kind: ItemKind, out: &mut PlainQueue) -> Turned
        requires { self.old.hand ≡ Some kind }
        ensures row { (ins : List ℕ) (input : List (Item Point)) (ch : net.Choice W.State Point StageFault)
            → left (shown W.Work ins self.new) input (bodies out.new.items) result
            ≡ net.with_hand false out.old.capacity ch (shown W.Work ins self.old) input (bodies out.old.items)
            (Some (kind_item kind self.old.spread.items)) }
        ensures numbers { numbers out.new.items
            ≡ net.numbers_above false (turned result) (numbers out.old.items) self.old.given }
        ensures calm { Calm W.Work self.old self.new }
        ensures told { Told W.Work self.old → Told W.Work self.new }
        ensures holds { KeepsHolding W.Work self.old self.new }
        ensures capacity { out.new.capacity ≡ out.old.capacity }
        ensures left { (ns : List ℕ) → net.numbers_left (turned result) ns ≡ ns }
    {
        if !out.has_room() {
            return Turned::Idle(Why::Full);
        }
        let tag = Tag {
            no: self.given,
            kind,
        };
        self.count_up(kind);
        self.spread.give(tag, out);
        Turned::Gave
    }

    /// Counts what is given, which leaves the hand.
    fn count_up(&mut self, kind: ItemKind)
        requires { self.old.hand ≡ Some kind }
        ensures given { (ins : List ℕ) → shown W.Work ins self.new
            ≡ net.given (shown W.Work ins self.old) (kind_item kind self.old.spread.items) }
        ensures calm { Calm W.Work self.old self.new }
        ensures told { Told W.Work self.old → Told W.Work self.new }
        ensures holds { KeepsHolding W.Work self.old self.new }
        ensures hand { self.new.hand ≡ None }
        ensures spread { self.new.spread ≡ self.old.spread }
    {
        let points = self.spread.points().len();
        self.hand = None;
        self.count_gift(kind, points);
    }

    /// Counts what left the hand, with so many points where it brings points.
    fn count_gift(&mut self, kind: ItemKind, points: usize)
        requires { self.old.hand ≡ None }
        ensures given { (ins : List ℕ) (ps : List Point) → length ps ≡ points
            → shown W.Work ins self.new ≡ net.given (shown W.Work ins self.old) (kind_item kind ps) }
        ensures calm { Calm W.Work self.old self.new }
        ensures holds { KeepsHolding W.Work self.old self.new }
        ensures same { (self.new.work ≡ self.old.work) × (self.new.fault ≡ self.old.fault) }
        ensures hand { self.new.hand ≡ None }
        ensures spread { self.new.spread ≡ self.old.spread }
    {
        let (views, points, end) = match kind {
            ItemKind::Points => (0, points as u64, false),
            ItemKind::EndView => (1, 0, false),
            ItemKind::End(_) => (0, 0, true),
        };
        self.given = self.given.saturating_add(1);
        self.views = self.views.saturating_add(views);
        self.points = self.points.saturating_add(points);
        self.done |= end;
    }

    /// Takes an item, where there is one.
    fn take_from(&mut self, input: &mut PlainQueue) -> Turned
        requires inner { W.leaf self.old.work ≡ false }
        requires hand { self.old.hand ≡ None }
        requires undone { self.old.done ≡ false }
        requires no_end { self.old.ending ≡ false }
        requires more { self.old.ended < self.old.inputs }
        ensures row { (ins : List ℕ) (out : List (Item Point))
            → left (shown W.Work ins self.new) (bodies input.new.items) out result
            ≡ net.takes (chosen W.Work self.old self.new) (shown W.Work ins self.old) (bodies input.old.items)
            out }
        ensures numbers { numbers input.new.items
            ≡ net.numbers_left (turned result) (numbers input.old.items) }
        ensures above { (root : Bool) (ns : List ℕ) (number : ℕ)
            → net.numbers_above root (turned result) ns number ≡ ns }
        ensures capacity { input.new.capacity ≡ input.old.capacity }
        ensures calm { Calm W.Work self.old self.new }
        ensures holds { HoldsMore W.Work self.old self.new
            (points_taken (turned result) (bodies input.old.items)) }
    {
        match self.spread.fetch(input) {
            None => Turned::Idle(Why::Empty),
            Some(tag) => {
                self.take(tag.kind);
                Turned::Took
            }
        }
    }
}
