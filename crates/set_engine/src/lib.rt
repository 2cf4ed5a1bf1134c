//! The stages of a tree, evaluated one after the other on whole views: by plain loops, without chunks, queues or turns.
#![tactic(auto)]

mod evaluating;
mod filters;
mod gathering;
mod inputs;
mod leaves;
mod output;
mod showing;
mod stages;
mod writers;

pub use evaluating::evaluate_stages;
