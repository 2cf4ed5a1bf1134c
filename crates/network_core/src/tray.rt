//! The points that a node has in its hand.

ghost use Rattle.std.specs.Prelude.{◌≡◌, ◌<◌, ◌≤◌, ◌+◌, ◌++◌, List, [], true, false, None, drop, length, is_some, max};
ghost use Rattle.arrayvec.specs.ArrayVec.{array_vec_len};
ghost use Rattle.circular_buffer.specs.Buffer.{buffer};
ghost use Rattle.file_devices.specs.Counts.{Rose};
ghost use Rattle.cloud_points.specs.declared.point.Point.{Point};
ghost use Rattle.cloud_points.specs.Events.{happened, is_device, ran_short, first_fault, IsOf};
ghost use Rattle.cloud_points.specs.Marks.{marks, views_in};
ghost use Rattle.cloud_points.specs.Makes.{made, made_fault, gives_points, gives_end, ends_cut};
ghost use Rattle.std.specs.Bool.{OnTrue, OnFalse};
ghost use Rattle.cloud_points.specs.Queue.{up_to_limit};
ghost use Rattle.chunk_queue.specs.Ends.{ended, sends, HadRoom, WasFull, IsTaken};
ghost use Rattle.chunk_queue.specs.Rule.{with_item};
ghost use Rattle.chunk_queue.specs.Slots.{tag_item, brings_points, IsPopped};

use chunk_queue::{PlainQueue, RuledIn, RuledOut, Tag};
use cloud_points::{Make, Spread, StageFault, Work};
use std::marker::Model;
use std::sync::Wait;

/// The points of a chunk, in a slot that a queue lent, or before any did in a spread of its own. A clause sees
/// the list of the points.
#[derive(Drop)]
pub(crate) struct Tray {
    own: Spread,
    lent: Option<Box<Spread>>,
}

impl Model for Tray {
    ghost use Rattle.arrayvec.specs.ArrayVec.{ArrayVec};
    ghost use Rattle.cloud_points.specs.declared.point.Point.{Point};

    ghost Value = { ArrayVec Point };

    ghost use Rattle.network_core.specs.Trays.{lying};

    ghost view = { λ t. lying t.own t.lent };
}

impl Tray {
    /// A tray with no points.
    pub(crate) fn new() -> Tray
        ensures { result.items ≡ [] }
    {
        Tray {
            own: Spread::new(),
            lent: None,
        }
    }

    /// The points.
    pub(crate) fn points(&self) -> &Spread
        ensures { result.now ≡ self.now }
    {
        match &self.lent {
            Some(slot) => slot,
            None => &self.own,
        }
    }

    /// Has a leaf put its next points in place of these.
    pub(crate) fn make<W: Work>(&mut self, work: &mut W, chunk: usize) -> Make
        requires leaf { W.leaf work.old ≡ true }
        requires some { 0 < chunk }
        requires most { chunk ≤ 64 }
        ensures meaning { W.meaning work.new ≡ W.meaning work.old }
        ensures leaf { W.leaf work.new ≡ W.leaf work.old }
        ensures op { W.op work.new ≡ W.op work.old }
        ensures some { gives_points result ≡ true → 0 < array_vec_len self.new }
        ensures most { array_vec_len self.new ≤ chunk }
        ensures empty { gives_points result ≡ false → self.new.items ≡ [] }
        ensures cut { is_some (made_fault result) ≡ true → ends_cut result ≡ true }
        ensures part { W.tells work.old ≡ true → is_device (made_fault result) ≡ false
            → W.told work.old ≡ marks (made result self.new.items) ++ W.told work.new }
        ensures fault { W.tells work.old ≡ true → is_device (made_fault result) ≡ false
            → W.told_fault work.old ≡ first_fault (made_fault result) (W.told_fault work.new) }
        ensures last { W.tells work.old ≡ true → is_device (made_fault result) ≡ false → gives_end result ≡ true
            → W.told work.new ≡ [] }
        ensures last_fault { W.tells work.old ≡ true → is_device (made_fault result) ≡ false
            → gives_end result ≡ true → W.told_fault work.new ≡ None }
        ensures tells { W.tells work.old ≡ true → is_device (made_fault result) ≡ false
            → gives_end result ≡ false → W.tells work.new ≡ true }
        ensures extent { W.extent work.new ≡ W.extent work.old }
        ensures ahead { W.ahead work.new + array_vec_len self.new ≤ max chunk (W.ahead work.old) }
        ensures fewer_points { W.points_left work.new + array_vec_len self.new ≤ W.points_left work.old }
        ensures fewer_views { W.views_left work.new + views_in (made result self.new.items)
            ≤ W.views_left work.old }
        ensures cause { is_device (made_fault result) ≡ true → Rose (W.faults work.old) (W.faults work.new) }
        ensures calm { is_device (made_fault result) ≡ false → W.faults work.new ≡ W.faults work.old }
        ensures named { IsOf (W.op work.old) (made_fault result) }
        ensures count { W.faults work.old ≤ W.faults work.new }
        ensures holds { (before : List Point) → W.holds work.old before ≡ true
            → W.holds work.new before ≡ true }
        ensures stays_short { W.short work.new ≡ W.short work.old }
    {
        match &mut self.lent {
            Some(slot) => work.make(chunk, slot),
            None => work.make(chunk, &mut self.own),
        }
    }

    /// Has a work turn the points into those that go on.
    pub(crate) fn pass<W: Work>(&mut self, work: &mut W) -> Option<StageFault>
        requires inner { W.leaf work.old ≡ false }
        requires some { 0 < array_vec_len self.old }
        ensures meaning { W.meaning work.new ≡ W.meaning work.old }
        ensures leaf { W.leaf work.new ≡ W.leaf work.old }
        ensures op { W.op work.new ≡ W.op work.old }
        ensures state { happened result (W.short work.old) (W.short work.new) ≡ false
            → W.state work.new ≡ (W.meaning work.old).after (W.state work.old) self.old.items }
        ensures points { happened result (W.short work.old) (W.short work.new) ≡ false
            → self.new.items ≡ (W.meaning work.old).emit (W.state work.old) self.old.items }
        ensures fault { happened result (W.short work.old) (W.short work.new) ≡ false
            → result ≡ (W.meaning work.old).fault (W.state work.old) self.old.items }
        ensures event { happened result (W.short work.old) (W.short work.new) ≡ true → self.new.items ≡ [] }
        ensures alone { ran_short (W.short work.old) (W.short work.new) ≡ true → result ≡ None }
        ensures holds { happened result (W.short work.old) (W.short work.new) ≡ false → (before : List Point)
            → W.holds work.old before ≡ true → W.holds work.new (before ++ self.old.items) ≡ true }
        ensures cause { is_device result ≡ true → Rose (W.faults work.old) (W.faults work.new) }
        ensures calm { is_device result ≡ false → W.faults work.new ≡ W.faults work.old }
        ensures named { IsOf (W.op work.old) result }
        ensures count { W.faults work.old ≤ W.faults work.new }
        ensures stays_short { W.short work.old ≡ true → W.short work.new ≡ true }
    {
        match &mut self.lent {
            Some(slot) => work.on_chunk(slot),
            None => work.on_chunk(&mut self.own),
        }
    }

    /// Puts the item that a tag and the points make into a queue that has room. What points are left then isn't
    /// said.
    pub(crate) fn give(&mut self, tag: Tag, out: &mut PlainQueue)
        requires room { length out.old.items < out.old.capacity }
        requires some { brings_points tag.kind ≡ true → 0 < array_vec_len self.old }
        ensures { out.new ≡ with_item out.old (tag_item tag self.old.items) }
    {
        match &mut self.lent {
            Some(slot) => {
                let _ = out.push_swap(tag, slot);
            }
            None => {
                let _ = out.push_from(tag, self.own.as_slice());
                self.lent = out.spare_with(&self.own);
            }
        }
    }

    /// Takes the first item of a queue, apart from its points, which come in place of these; None exactly where
    /// the queue is empty. The points stay where the item brings none.
    pub(crate) fn fetch(&mut self, input: &mut PlainQueue) -> Option<Tag>
        ensures popped { IsPopped input.old.items result self.old.items self.new.items }
        ensures items { input.new ≡ buffer (drop 1 input.old.items) input.old.capacity }
    {
        match &mut self.lent {
            Some(slot) => input.pop_swap(slot),
            None => {
                let tag = input.pop_into(&mut self.own);
                self.lent = input.spare_with(&self.own);
                tag
            }
        }
    }

    /// Sends the item that a tag and the points make, or changes nothing where the queue between threads was full
    /// at a step of the call. What points are left after it was sent isn't said.
    pub(crate) fn send<R: Wait>(&mut self, rt: &R, tag: Tag, out: &mut RuledOut) -> bool
        requires number { tag.no ≡ up_to_limit (length out.old.sent) }
        requires goes_on { ended out.old.sent ≡ false }
        requires some { brings_points tag.kind ≡ true → 0 < array_vec_len self.old }
        ensures pushed { OnTrue result (out.new ≡ sends out.old (tag_item tag self.old.items)) }
        ensures room { OnTrue result (HadRoom out.old) }
        ensures same { OnFalse result (out.new ≡ out.old) }
        ensures kept { OnFalse result (self.new ≡ self.old) }
        ensures full { OnFalse result (WasFull out.old) }
    {
        match &mut self.lent {
            Some(slot) => out.push_swap(rt, tag, slot),
            None => {
                let sent = out.push_from(rt, tag, self.own.as_slice());
                self.lent = out.spare_with(rt, &self.own);
                sent
            }
        }
    }

    /// As `fetch` of a queue between threads. None comes where that was empty at a step of the call.
    pub(crate) fn receive<R: Wait>(&mut self, rt: &R, input: &mut RuledIn) -> Option<Tag>
        ensures { IsTaken input.old input.new result self.old.items self.new.items }
    {
        match &mut self.lent {
            Some(slot) => input.pop_swap(rt, slot),
            None => {
                let tag = input.pop_into(rt, &mut self.own);
                self.lent = input.spare_with(rt, &self.own);
                tag
            }
        }
    }
}
