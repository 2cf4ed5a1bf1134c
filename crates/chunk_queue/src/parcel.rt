//! Items on their way between two threads.

ghost use Rattle.std.specs.Prelude.{◌≡◌, ◌<◌, true, length};
ghost use Rattle.cloud_points.specs.Bodies.{body_ends};
ghost use Rattle.chunk_queue.specs.Slots.{tag_item, brings_points};
ghost use Rattle.chunk_queue.specs.Parcels.{IsOpened, LieIn};

use crate::plain::{swap_slots, take_slot};
use crate::tag::{SlottedItem, Tag};
use cloud_points::Spread;
use std::marker::Model;

/// An item whose points lie in a slot. A clause sees the item.
#[derive(Drop)]
pub struct Parcel {
    entry: SlottedItem,
}

impl Model for Parcel {
    ghost use Rattle.cloud_points.specs.declared.item.Item.{Item};
    ghost use Rattle.chunk_queue.specs.Slots.{entry_item, HasPoints};

    ghost Value = { Item };

    ghost view = { λ p. entry_item p.entry };

    ghost invariant = { λ p. HasPoints (entry_item p.entry).body };
}

impl Parcel {
    /// The item of a tag whose points lie in the slot.
    pub(crate) fn with_slot(tag: Tag, slot: Box<Spread>) -> Parcel
        requires { brings_points tag.kind ≡ true → 0 < length slot.value.items }
        ensures { result ≡ tag_item tag slot.value.items }
    {
        Parcel {
            entry: SlottedItem { tag, slot },
        }
    }

    /// Whether the item is an End.
    pub(crate) fn is_end(&self) -> bool
        ensures { result ≡ body_ends self.now.body }
    {
        self.entry.tag.kind.is_end()
    }

    /// The item's tag and the slot; the item's points are put in place of what the spread held.
    pub(crate) fn open(self, points: &mut Spread) -> (Tag, Box<Spread>)
        ensures { IsOpened self result.0 points.old.items points.new.items }
    {
        let Parcel { entry } = self;
        let SlottedItem { tag, slot } = entry;
        take_slot(points, tag.kind, &slot);
        (tag, slot)
    }

    /// The item's tag and a slot, with the slot in which the item's points lie in place of the one that was
    /// handed in; where the item brings no points, that one stays.
    pub(crate) fn open_swap(self, points: &mut Box<Spread>) -> (Tag, Box<Spread>)
        ensures { IsOpened self result.0 points.old.value.items points.new.value.items }
    {
        let Parcel { entry } = self;
        let SlottedItem { tag, slot } = entry;
        let mut slot = slot;
        swap_slots(points, tag.kind, &mut slot);
        (tag, slot)
    }

    /// The slot, in which the item's points lie.
    pub(crate) fn into_slot(self) -> Box<Spread>
        ensures { LieIn self.body result.value.items }
    {
        let Parcel { entry } = self;
        let SlottedItem { slot, .. } = entry;
        slot
    }
}
