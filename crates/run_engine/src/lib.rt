//! Runs pipelines: opens their files, lets their stages take turns, and keeps their outputs.
#![tactic(auto)]

mod counting;
mod engine;
mod job;
mod nodes;
mod preparing;
mod room;
mod run;
mod shape;
mod turns;
mod whole;

pub use engine::Engine;
pub use job::Job;
pub use preparing::prepare;
pub use run::run_pipeline;
pub use shape::Shape;
