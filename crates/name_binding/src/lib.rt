//! The options of a stage with dimensions in place of the names in them.
#![tactic(auto)]

mod binding;
mod ferries;
mod tiles;

pub use binding::{BoundFilter, BoundStage, bind};
