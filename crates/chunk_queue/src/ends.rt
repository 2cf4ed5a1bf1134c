//! The two ends of a queue between two threads.

ghost use Rattle.std.specs.Prelude.{◌≡◌, ◌<◌, ◌≤◌, ◌||◌, true, false, length, OnOk, IfErr, IfSome, MatchOption};
ghost use Rattle.std.specs.Bool.{OnTrue, OnFalse};
ghost use Rattle.cloud_points.specs.Queue.{up_to_limit};
ghost use Rattle.chunk_queue.specs.Slots.{brings_points, kind_body, tag_item};
ghost use Rattle.chunk_queue.specs.Parcels.{LieIn};

use crate::order::{Line, LinePass, Sends, Takes};
use crate::parcel::Parcel;
use crate::plain::{body_of, fill_slot, swap_slots};
use crate::slots::{Slots, fill_free, put_free, take_free};
use crate::tag::{ItemKind, Tag};
use cloud_points::{Body, Item, Point, Spread};
use std::marker::Model;
use std::sync::{Arc, Wait};

/// What both ends of a queue share: its line of items, and its slots.
#[derive(Drop)]
pub(crate) struct Channel {
    pub(crate) line: Line,
    pub(crate) slots: Slots,
}

/// The end that sends. A clause sees which queue it is of, its capacity, and all that was sent.
#[derive(Drop)]
pub struct RuledOut {
    pub(crate) channel: Arc<Channel>,
    pub(crate) pass: LinePass,
    pub(crate) count: u64,
    // Whether one of the queue's slots was lent by this end.
    pub(crate) lent: bool,
}

impl Model for RuledOut {
    ghost use Rattle.std.specs.Arc.{arc_value};
    ghost use Rattle.chunk_queue.specs.Ends.{OutSeen, seen_out, IsOut};

    ghost Value = { OutSeen };

    ghost view = { λ o. seen_out (arc_value o.channel).line o.pass };

    ghost invariant = { λ o. IsOut (arc_value o.channel).line o.pass o.count };
}

/// The end that takes. A clause sees which queue it is of, its capacity, and all that was got.
#[derive(Drop)]
pub struct RuledIn {
    pub(crate) channel: Arc<Channel>,
    pub(crate) pass: LinePass,
    pub(crate) count: u64,
    pub(crate) ended: bool,
    // Whether one of the queue's slots was lent by this end.
    pub(crate) lent: bool,
}

impl Model for RuledIn {
    ghost use Rattle.std.specs.Arc.{arc_value};
    ghost use Rattle.chunk_queue.specs.Ends.{InSeen, seen_in, IsIn};

    ghost Value = { InSeen };

    ghost view = { λ i. seen_in (arc_value i.channel).line i.pass };

    ghost invariant = { λ i. IsIn (arc_value i.channel).line i.pass i.count i.ended };
}

impl RuledOut {
    ghost use Rattle.chunk_queue.specs.Ends.{ended, sends, HadRoom, WasFull};

    /// Sends the item that a tag and points make, or changes nothing where the queue was full at a step of
    /// the call. The points count only where the tag brings points, and then there are 1 to 64 of them.
    pub fn push_from<R: Wait>(&mut self, rt: &R, tag: Tag, points: &[Point]) -> bool
        requires number { tag.no ≡ up_to_limit (length self.old.sent) }
        requires goes_on { ended self.old.sent ≡ false }
        requires some { brings_points tag.kind ≡ true → 0 < length points.now }
        requires most { length points.now ≤ 64 }
        ensures pushed { OnTrue result (self.new ≡ sends self.old (tag_item tag points.now)) }
        ensures room { OnTrue result (HadRoom self.old) }
        ensures same { OnFalse result (self.new ≡ self.old) }
        ensures full { OnFalse result (WasFull self.old) }
    {
        if self.is_full() {
            return false;
        }
        let mut slot = take_free(rt, &self.channel.slots);
        fill_slot(&mut slot, tag.kind, points);
        match self.push_slot(rt, tag, slot) {
            Ok(()) => true,
            Err(slot) => {
                put_free(rt, &self.channel.slots, slot);
                false
            }
        }
    }

    /// As `push_from`, with points that lie in a slot. The queue keeps that slot and gives another for it, which
    /// may hold any points; where it was full at a step of the call, nothing changes.
    pub fn push_swap<R: Wait>(&mut self, rt: &R, tag: Tag, points: &mut Box<Spread>) -> bool
        requires number { tag.no ≡ up_to_limit (length self.old.sent) }
        requires goes_on { ended self.old.sent ≡ false }
        requires some { brings_points tag.kind ≡ true → 0 < length points.old.value.items }
        ensures pushed { OnTrue result (self.new ≡ sends self.old (tag_item tag points.old.value.items)) }
        ensures room { OnTrue result (HadRoom self.old) }
        ensures same { OnFalse result (self.new ≡ self.old) }
        ensures kept { OnFalse result (points.new.value ≡ points.old.value) }
        ensures full { OnFalse result (WasFull self.old) }
    {
        if self.is_full() {
            return false;
        }
        let mut slot = take_free(rt, &self.channel.slots);
        swap_slots(&mut slot, tag.kind, points);
        let Err(slot) = self.push_slot(rt, tag, slot) else {
            return true;
        };
        let mut slot = slot;
        swap_slots(points, tag.kind, &mut slot);
        put_free(rt, &self.channel.slots, slot);
        false
    }

    /// Whether the queue was full at a step of the call.
    fn is_full(&mut self) -> bool
        ensures same { self.new ≡ self.old }
        ensures full { OnTrue result (WasFull self.old) }
    {
        self.channel.line.is_full_as::<Sends>(&mut self.pass)
    }

    /// Sends the item of a tag whose points lie in the slot, or hands the slot back with these points where the
    /// queue was full at a step of the call.
    fn push_slot<R: Wait>(&mut self, rt: &R, tag: Tag, slot: Box<Spread>) -> Result<(), Box<Spread>>
        requires number { tag.no ≡ up_to_limit (length self.old.sent) }
        requires goes_on { ended self.old.sent ≡ false }
        requires some { brings_points tag.kind ≡ true → 0 < length slot.value.items }
        ensures pushed { OnOk result (self.new ≡ sends self.old (tag_item tag slot.value.items)) }
        ensures room { OnOk result (HadRoom self.old) }
        ensures full { IfErr result (λ back. (self.new ≡ self.old) × WasFull self.old) }
        ensures back { IfErr result (λ back. LieIn (kind_body tag.kind slot.value.items) back.value.items) }
    {
        let parcel = Parcel::with_slot(tag, slot);
        match self
            .channel
            .line
            .push_as::<Sends, R>(rt, &mut self.pass, parcel)
        {
            Ok(()) => {
                self.count = self.count.saturating_add(1);
                Ok(())
            }
            Err(parcel) => Err(parcel.into_slot()),
        }
    }

    /// A slot with these points, which the queue can do without; None where this end lent one before, or where
    /// no slot is free at the moment. It does not wait.
    pub fn spare_with<R: Wait>(&mut self, rt: &R, points: &Spread) -> Option<Box<Spread>>
        ensures same { self.new ≡ self.old }
        ensures points { IfSome result (λ slot. slot.value.items ≡ points.now.items) }
    {
        if self.lent {
            return None;
        }
        let slot = fill_free(rt, &self.channel.slots, points)?;
        self.lent = true;
        Some(slot)
    }

    /// Sends an item, or hands it back where the queue was full at a step of the call.
    pub fn push<R: Wait>(&mut self, rt: &R, item: Item) -> Result<(), Item>
        requires number { item.no ≡ up_to_limit (length self.old.sent) }
        requires goes_on { ended self.old.sent ≡ false }
        ensures pushed { OnOk result (self.new ≡ sends self.old item) }
        ensures room { OnOk result (HadRoom self.old) }
        ensures back { IfErr result (λ i. i ≡ item) }
        ensures full { IfErr result (λ i. (self.new ≡ self.old) × WasFull self.old) }
    {
        if self.push_body(rt, item.no, &item.body) {
            Ok(())
        } else {
            Err(item)
        }
    }

    /// Sends an item, or changes nothing where the queue was full at a step of the call.
    fn push_body<R: Wait>(&mut self, rt: &R, no: u64, body: &Body) -> bool
        requires number { no ≡ up_to_limit (length self.old.sent) }
        requires goes_on { ended self.old.sent ≡ false }
        ensures pushed { OnTrue result (self.new ≡ sends self.old (record { no = no; body = body.now })) }
        ensures room { OnTrue result (HadRoom self.old) }
        ensures same { OnFalse result (self.new ≡ self.old) }
        ensures full { OnFalse result (WasFull self.old) }
    {
        match body {
            Body::Points(chunk) => {
                let kind = ItemKind::Points;
                self.push_from(rt, Tag { no, kind }, chunk.points())
            }
            Body::EndView => {
                let kind = ItemKind::EndView;
                self.push_from(rt, Tag { no, kind }, &[])
            }
            Body::End(cut) => {
                let kind = ItemKind::End(*cut);
                self.push_from(rt, Tag { no, kind }, &[])
            }
        }
    }
}

impl RuledIn {
    ghost use Rattle.chunk_queue.specs.Ends.{takes, IsTaken, WasEmpty, WasFirst};

    /// Takes the first item, apart from its points, which are put in place of what the spread held. None
    /// comes where the queue was empty at a step of the call. The spread is unchanged where the item brings
    /// no points.
    pub fn pop_into<R: Wait>(&mut self, rt: &R, points: &mut Spread) -> Option<Tag>
        ensures { IsTaken self.old self.new result points.old.items points.new.items }
    {
        let parcel = self.pop_parcel(rt)?;
        let (tag, slot) = parcel.open(points);
        put_free(rt, &self.channel.slots, slot);
        Some(tag)
    }

    /// As `pop_into`, with a slot for the points. The queue keeps that slot and gives the one in which the item's
    /// points lie for it.
    pub fn pop_swap<R: Wait>(&mut self, rt: &R, points: &mut Box<Spread>) -> Option<Tag>
        ensures { IsTaken self.old self.new result points.old.value.items points.new.value.items }
    {
        let parcel = self.pop_parcel(rt)?;
        let (tag, slot) = parcel.open_swap(points);
        put_free(rt, &self.channel.slots, slot);
        Some(tag)
    }

    /// Takes the first item, in its parcel. None comes where the queue was empty at a step of the call.
    fn pop_parcel<R: Wait>(&mut self, rt: &R) -> Option<Parcel>
        ensures { MatchOption result ((self.new ≡ self.old) × WasEmpty self.old)
            (λ i. (self.new ≡ takes self.old i) × WasFirst self.old i) }
    {
        let parcel = self.channel.line.pop_as::<Takes, R>(rt, &mut self.pass)?;
        self.count = self.count.saturating_add(1);
        self.ended |= parcel.is_end();
        Some(parcel)
    }

    /// A slot with these points, which the queue can do without; None where this end lent one before, or where
    /// no slot is free at the moment. It does not wait.
    pub fn spare_with<R: Wait>(&mut self, rt: &R, points: &Spread) -> Option<Box<Spread>>
        ensures same { self.new ≡ self.old }
        ensures points { IfSome result (λ slot. slot.value.items ≡ points.now.items) }
    {
        if self.lent {
            return None;
        }
        let slot = fill_free(rt, &self.channel.slots, points)?;
        self.lent = true;
        Some(slot)
    }

    /// Takes the first item. None comes where the queue was empty at a step of the call.
    pub fn pop<R: Wait>(&mut self, rt: &R) -> Option<Item>
        ensures { MatchOption result ((self.new ≡ self.old) × WasEmpty self.old)
            (λ i. (self.new ≡ takes self.old i) × WasFirst self.old i) }
    {
        let mut points = Spread::new();
        let tag = self.pop_into(rt, &mut points)?;
        Some(Item {
            no: tag.no,
            body: body_of(tag.kind, &points),
        })
    }
}
