//! What the stages of a run came to: what each gave on and its fault, and which fault is the run's.
#![tactic(auto)]

mod ended;
mod judging;

pub use ended::{Ended, StageFaults};
pub use judging::outcome;
