//! The tree of stages that a pipeline's text is: JSON (RFC 8259), as `serde_json` reads it.
#![tactic(auto)]

mod elements;
mod kinds;
mod laws;
mod reading;
mod stage;
mod takes;
mod tree;

pub use elements::member;
pub use laws::{piles_are_taken, stages_are_judged};
pub use reading::{MOST_BYTES, read_pipeline};
pub use stage::{RawStage, StageList};
pub use tree::RawTree;
