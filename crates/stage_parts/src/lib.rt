//! The parts of a tree of nodes some of which gather: each part is a tree of its own.
#![tactic(auto)]

mod children;
mod homes;
mod laws;

pub use children::part_ins;
pub use homes::homes_of;
pub use laws::{homes_lie_above, parts_are_trees, strangers_give_nothing};
