//! A queue on one thread.

ghost use Rattle.std.specs.Prelude.{◌≡◌, ◌<◌, ◌≤◌, ◌+◌, [], ◌∷◌, ◌++◌, ◌↔◌, length, drop, slice_get, true};
ghost use Rattle.std.specs.Prelude.{false, IfOk, IfErr, IfSome, OnOk, OnErr, IsOk, IsTrue, nat_lt, ◌==◌, ◌^◌};
ghost use Rattle.std.specs.Bool.{OnTrue, OnFalse};
ghost use Rattle.circular_buffer.specs.Buffer.{buffer};
ghost use Rattle.chunk_queue.specs.Rule.{StandsBetween, KeepsRuleOnPush, KeepsRuleOnPop, with_item};
ghost use Rattle.chunk_queue.specs.Slots.{filled, tag_item, kind_body, brings_points, IsPopped};

use crate::tag::{ItemKind, SlottedItem, Tag};
use circular_buffer::HeapCircularBuffer;
use cloud_points::{Body, Chunk, Item, Point, Spread, put_points};
use std::alloc::{AllocError, Global};
use std::marker::Model;
use std::mem;

/// The slots that a queue has besides one for each item there is room for: one for the stage at each end.
const SPARE_SLOTS: usize = 2;

/// A queue with room for a stated number of items, from 1 to 64. A clause sees the list of the items that it
/// holds, and its capacity.
///
/// Each call keeps the rule of a queue, whatever was sent and got before it: what was got and what is held
/// are what was sent, in its order, with the numbers 0, 1, .. and an End only last. A clause `rule` says so
/// of an item that goes in with the next number and before any End, and of each item that comes out.
///
/// The points of an item lie in a slot of their own. They go in and out by an exchange of slots, or else they are
/// copied, and no call but `new` takes memory. The slot that came free last is taken first, so that those in use
/// stay in the cache.
#[derive(Drop)]
pub struct PlainQueue {
    entries: HeapCircularBuffer<SlottedItem>,
    free: Vec<Box<Spread>>,
}

impl Model for PlainQueue {
    ghost use Rattle.std.specs.Prelude.{length, vec_capacity};
    ghost use Rattle.circular_buffer.specs.Buffer.{Buffer, buffer};
    ghost use Rattle.cloud_points.specs.declared.item.Item.{Item};

    ghost Value = { Buffer Item };

    ghost use Rattle.chunk_queue.specs.Slots.{held_items, IsSlotted};

    ghost view = { λ q. buffer (held_items q.entries.items) q.entries.capacity };

    ghost invariant = { λ q. IsSlotted q.entries (length q.free.items) (vec_capacity q.free) };
}

impl PlainQueue {
    /// An empty queue with this capacity.
    pub fn new(alloc: Global, capacity: usize) -> Result<PlainQueue, AllocError>
        requires some { 0 < capacity }
        requires most { capacity ≤ 64 }
        ensures empty { IfOk result (λ q. q ≡ buffer [] capacity) }
        ensures rule { IfOk result (λ q. StandsBetween [] [] q) }
    {
        let entries = HeapCircularBuffer::with_capacity(alloc, capacity)?;
        let slots = capacity + SPARE_SLOTS;
        let mut free = Vec::with_capacity(alloc, slots)?;
        for _ in 0..slots {
            free.push(Box::new(alloc, Spread::new())?)?;
        }
        Ok(PlainQueue { entries, free })
    }

    /// The first item, which leaves the queue; None exactly where the queue is empty.
    pub fn pop(&mut self) -> Option<Item>
        ensures value { result ≡ slice_get self.old.items 0 }
        ensures items { self.new ≡ buffer (drop 1 self.old.items) self.old.capacity }
        ensures rule { IfSome result (λ item. KeepsRuleOnPop self.old item self.new) }
    {
        let mut points = Spread::new();
        let tag = self.pop_into(&mut points)?;
        Some(Item {
            no: tag.no,
            body: body_of(tag.kind, &points),
        })
    }

    /// Appends an item, or hands it back exactly where the queue is full.
    pub fn push(&mut self, item: Item) -> Result<(), Item>
        ensures room { IsOk result ↔ (length self.old.items < self.old.capacity) }
        ensures ok { OnOk result (self.new ≡ with_item self.old item) }
        ensures err { OnErr result (self.new ≡ self.old) }
        ensures back { IfErr result (λ i. i ≡ item) }
        ensures rule { OnOk result (KeepsRuleOnPush self.old item self.new) }
    {
        if !self.has_room() {
            return Err(item);
        }
        self.put_body(item.no, &item.body);
        Ok(())
    }

    /// Whether there is room for an item.
    pub fn has_room(&self) -> bool
        ensures { result ≡ nat_lt (length self.now.items) self.now.capacity }
    {
        self.entries.len() < self.entries.capacity()
    }

    /// Whether it holds no item.
    pub fn is_empty(&self) -> bool
        ensures { result ≡ (length self.now.items == 0) }
    {
        self.entries.is_empty()
    }

    /// Appends the item that a tag and points make, or changes nothing exactly where the queue is full. The
    /// points count only where the tag brings points, and then there are 1 to 64 of them.
    pub fn push_from(&mut self, tag: Tag, points: &[Point]) -> bool
        requires some { brings_points tag.kind ≡ true → 0 < length points.now }
        requires most { length points.now ≤ 64 }
        ensures room { IsTrue result ↔ (length self.old.items < self.old.capacity) }
        ensures pushed { OnTrue result (self.new ≡ with_item self.old (tag_item tag points.now)) }
        ensures full { OnFalse result (self.new ≡ self.old) }
        ensures rule { OnTrue result (KeepsRuleOnPush self.old (tag_item tag points.now) self.new) }
    {
        if !self.has_room() {
            return false;
        }
        self.put(tag.no, tag.kind, points);
        true
    }

    /// The first item, which leaves the queue, apart from its points, which are put in place of what the
    /// spread held; None exactly where the queue is empty. The spread is unchanged where the item brings no
    /// points.
    pub fn pop_into(&mut self, points: &mut Spread) -> Option<Tag>
        ensures popped { IsPopped self.old.items result points.old.items points.new.items }
        ensures items { self.new ≡ buffer (drop 1 self.old.items) self.old.capacity }
        ensures rule { IfSome result
            (λ tag. KeepsRuleOnPop self.old (tag_item tag points.new.items) self.new) }
    {
        let SlottedItem { tag, slot } = self.entries.pop_front()?;
        take_slot(points, tag.kind, &slot);
        let _ = self.free.push(slot);
        Some(tag)
    }

    /// As `push_from`, with points that lie in a slot. The queue keeps that slot and gives another for it, which
    /// may hold any points; where it is full, the slot stays as it is.
    pub fn push_swap(&mut self, tag: Tag, points: &mut Box<Spread>) -> bool
        requires { brings_points tag.kind ≡ true → 0 < length points.old.value.items }
        ensures room { IsTrue result ↔ (length self.old.items < self.old.capacity) }
        ensures pushed { OnTrue result (self.new ≡ with_item self.old (tag_item tag points.old.value.items)) }
        ensures full { OnFalse result (self.new ≡ self.old) }
        ensures kept { OnFalse result (points.new ≡ points.old) }
        ensures rule { OnTrue result
            (KeepsRuleOnPush self.old (tag_item tag points.old.value.items) self.new) }
    {
        if !self.has_room() {
            return false;
        }
        self.put_slot(tag, points);
        true
    }

    /// As `pop_into`, with a slot for the points. The queue keeps that slot and gives the one in which the item's
    /// points lie for it.
    pub fn pop_swap(&mut self, points: &mut Box<Spread>) -> Option<Tag>
        ensures popped { IsPopped self.old.items result points.old.value.items points.new.value.items }
        ensures items { self.new ≡ buffer (drop 1 self.old.items) self.old.capacity }
        ensures rule { IfSome result
            (λ tag. KeepsRuleOnPop self.old (tag_item tag points.new.value.items) self.new) }
    {
        let SlottedItem { tag, slot } = self.entries.pop_front()?;
        let mut slot = slot;
        swap_slots(points, tag.kind, &mut slot);
        let _ = self.free.push(slot);
        Some(tag)
    }

    /// A slot with these points, which the queue can do without; None where it has no such slot left.
    pub fn spare_with(&mut self, points: &Spread) -> Option<Box<Spread>>
        ensures same { self.new ≡ self.old }
        ensures points { IfSome result (λ slot. slot.value.items ≡ points.now.items) }
    {
        let wanted = self.entries.capacity().saturating_sub(self.entries.len());
        if self.free.len() <= wanted {
            return None;
        }
        let mut slot = self.free.pop()?;
        put_points(&mut slot, points.as_slice());
        Some(slot)
    }

    /// Appends an item, with its points in a slot, where there is room.
    fn put_slot(&mut self, tag: Tag, points: &mut Box<Spread>)
        requires room { length self.old.items < self.old.capacity }
        requires some { brings_points tag.kind ≡ true → 0 < length points.old.value.items }
        ensures { self.new ≡ with_item self.old (tag_item tag points.old.value.items) }
    {
        let Some(mut slot) = self.free.pop() else {
            unreachable!()
        };
        swap_slots(&mut slot, tag.kind, points);
        let _ = self.entries.try_push_back(SlottedItem { tag, slot });
    }

    /// Appends an item where there is room.
    fn put_body(&mut self, no: u64, body: &Body)
        requires { length self.old.items < self.old.capacity }
        ensures { self.new ≡ with_item self.old (record { no = no; body = body.now }) }
    {
        match body {
            Body::Points(chunk) => self.put(no, ItemKind::Points, chunk.points()),
            Body::EndView => self.put(no, ItemKind::EndView, &[]),
            Body::End(cut) => self.put(no, ItemKind::End(*cut), &[]),
        }
    }

    /// Appends an item where there is room.
    fn put(&mut self, no: u64, kind: ItemKind, points: &[Point])
        requires room { length self.old.items < self.old.capacity }
        requires some { brings_points kind ≡ true → 0 < length points.now }
        requires most { length points.now ≤ 64 }
        ensures { self.new ≡ with_item self.old (tag_item (record { no = no; kind = kind }) points.now) }
    {
        let Some(mut slot) = self.free.pop() else {
            unreachable!()
        };
        fill_slot(&mut slot, kind, points);
        let tag = Tag { no, kind };
        let _ = self.entries.try_push_back(SlottedItem { tag, slot });
    }
}

/// What an item brings, with its points.
pub(crate) fn body_of(kind: ItemKind, points: &Spread) -> Body
    requires { brings_points kind ≡ true → 0 < length points.now.items }
    ensures { result ≡ kind_body kind points.now.items }
{
    match kind {
        ItemKind::Points => match Chunk::of(points) {
            Some(chunk) => Body::Points(chunk),
            None => unreachable!(),
        },
        ItemKind::EndView => Body::EndView,
        ItemKind::End(cut) => Body::End(cut),
    }
}

/// Puts the points of an item into its slot.
pub(crate) fn fill_slot(slot: &mut Spread, kind: ItemKind, points: &[Point])
    requires { length points.now ≤ 64 }
    ensures { slot.new.items ≡ filled kind slot.old.items points.now }
{
    match kind {
        ItemKind::Points => put_points(slot, points),
        ItemKind::EndView => {}
        ItemKind::End(_) => {}
    }
}

/// Takes the points of an item out of its slot.
pub(crate) fn take_slot(into: &mut Spread, kind: ItemKind, slot: &Spread)
    ensures { into.new.items ≡ filled kind into.old.items slot.now.items }
{
    match kind {
        ItemKind::Points => put_points(into, slot.as_slice()),
        ItemKind::EndView => {}
        ItemKind::End(_) => {}
    }
}

/// Exchanges a slot for that in which the points of an item lie.
pub(crate) fn swap_slots(into: &mut Box<Spread>, kind: ItemKind, points: &mut Box<Spread>)
    ensures into { into.new.value.items ≡ filled kind into.old.value.items points.old.value.items }
    ensures back { points.new.value.items ≡ filled kind points.old.value.items into.old.value.items }
{
    match kind {
        ItemKind::Points => mem::swap(into, points),
        ItemKind::EndView => {}
        ItemKind::End(_) => {}
    }
}
