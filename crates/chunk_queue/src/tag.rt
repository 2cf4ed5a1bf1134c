//! An item apart from its points.

use cloud_points::Spread;

/// What an item brings, apart from its points.
#[derive(Clone, Copy, Debug, PartialEq, Eq)]
pub enum ItemKind {
    Points,
    EndView,
    End(bool),
}

impl ItemKind {
    ghost use Rattle.std.specs.Prelude.{◌≡◌, List};
    ghost use Rattle.cloud_points.specs.declared.point.Point.{Point};
    ghost use Rattle.cloud_points.specs.Bodies.{body_ends};
    ghost use Rattle.chunk_queue.specs.Slots.{kind_body};

    /// Whether it is an End.
    pub(crate) fn is_end(self) -> bool
        ensures { (points : List Point) → result ≡ body_ends (kind_body self points) }
    {
        match self {
            ItemKind::Points | ItemKind::EndView => false,
            ItemKind::End(_) => true,
        }
    }
}

/// An item apart from its points. Its number is its place among all items of a queue, counted from 0.
#[derive(Clone, Copy, Debug, PartialEq, Eq)]
pub struct Tag {
    pub no: u64,
    pub kind: ItemKind,
}

/// An item in a queue: its tag, and the slot in which its points lie.
#[derive(Drop)]
pub(crate) struct SlottedItem {
    pub(crate) tag: Tag,
    pub(crate) slot: Box<Spread>,
}
