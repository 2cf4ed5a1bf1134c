//! The steps in which the stages of a pipeline are run.
#![tactic(auto)]

mod ends;
mod planning;
mod steps;

pub use planning::plan;
pub use steps::{PlanStep, StepList};
