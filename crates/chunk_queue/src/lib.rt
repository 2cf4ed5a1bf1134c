//! Bounded queues of numbered items between stages.
#![tactic(auto)]

mod ends;
mod known;
mod order;
mod parcel;
mod plain;
mod ruled;
mod slots;
mod tag;

pub use ends::{RuledIn, RuledOut};
pub use plain::PlainQueue;
pub use ruled::RuledQueue;
pub use tag::{ItemKind, Tag};
