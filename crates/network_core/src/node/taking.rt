//! What a node does with an item that it takes.

use super::Node;
use crate::parts::hand_of;
use chunk_queue::ItemKind;
use cloud_points::Work;

impl<W: Work> Node<W> {
    ghost use Rattle.std.specs.Prelude.{◌≡◌, ◌<◌, true, false, None, length};
    ghost use Rattle.cloud_points.specs.Marks as marks;
    ghost use Rattle.chunk_queue.specs.Slots.{brings_points};
    ghost use Rattle.network_theory.specs.History.{item_points};
    ghost use Rattle.network_core.specs.Hands.{kind_item};
    ghost use Rattle.network_core.specs.Table.{HasTaken};
    ghost use Rattle.network_core.specs.Calm.{Calm};
    ghost use Rattle.network_core.specs.Holding.{KeepsHolding, HoldsMore};

    /// Takes an item, whose points lie in the spread.
    pub(super) fn take(&mut self, kind: ItemKind)
        requires inner { W.leaf self.old.work ≡ false }
        requires hand { self.old.hand ≡ None }
        requires undone { self.old.done ≡ false }
        requires no_end { self.old.ending ≡ false }
        requires more { self.old.ended < self.old.inputs }
        requires some { brings_points kind ≡ true → 0 < length self.old.spread.items }
        ensures taken { HasTaken W.Work self.old self.new (kind_item kind self.old.spread.items) }
        ensures calm { Calm W.Work self.old self.new }
        ensures holds { HoldsMore W.Work self.old self.new
            (item_points (kind_item kind self.old.spread.items)) }
    {
        match kind {
            ItemKind::Points => self.take_points(),
            ItemKind::EndView => self.take_view(),
            ItemKind::End(cut) => self.take_end(cut),
        }
    }

    /// Points that were taken go through the work.
    fn take_points(&mut self)
        requires inner { W.leaf self.old.work ≡ false }
        requires hand { self.old.hand ≡ None }
        requires undone { self.old.done ≡ false }
        requires no_end { self.old.ending ≡ false }
        requires some { 0 < length self.old.spread.items }
        ensures taken { HasTaken W.Work self.old self.new (marks.Points self.old.spread.items) }
        ensures calm { Calm W.Work self.old self.new }
        ensures holds { HoldsMore W.Work self.old self.new self.old.spread.items }
    {
        if self.fault.is_some() {
            return;
        }
        self.fault = self.spread.pass(&mut self.work);
        self.hand = hand_of(self.spread.points());
    }

    /// The end of a view that was taken goes on where the work says so.
    fn take_view(&mut self)
        requires inner { W.leaf self.old.work ≡ false }
        requires hand { self.old.hand ≡ None }
        requires undone { self.old.done ≡ false }
        requires no_end { self.old.ending ≡ false }
        ensures taken { HasTaken W.Work self.old self.new marks.End_view }
        ensures calm { Calm W.Work self.old self.new }
        ensures holds { KeepsHolding W.Work self.old self.new }
    {
        if self.fault.is_some() {
            return;
        }
        if self.work.on_end_view() {
            self.hand = Some(ItemKind::EndView);
        }
    }

    /// An end that was taken leads to the next input, or ends the node's.
    fn take_end(&mut self, cut: bool)
        requires inner { W.leaf self.old.work ≡ false }
        requires hand { self.old.hand ≡ None }
        requires undone { self.old.done ≡ false }
        requires no_end { self.old.ending ≡ false }
        requires more { self.old.ended < self.old.inputs }
        ensures taken { HasTaken W.Work self.old self.new (marks.End_all cut) }
        ensures calm { Calm W.Work self.old self.new }
        ensures holds { KeepsHolding W.Work self.old self.new }
    {
        self.cut |= cut;
        self.ended += 1;
        if self.ended == self.inputs {
            let is_cut = self.cut | self.fault.is_some();
            if self.work.on_end(is_cut) {
                self.hand = Some(ItemKind::EndView);
                self.ending = true;
            } else {
                self.hand = Some(ItemKind::End(is_cut));
            }
        }
    }
}
