//! The types of stages by their names, and why a pipeline is refused.
#![tactic(auto)]

mod faults;
mod kinds;
mod laws;

pub use faults::{PipeErr, PipeFault};
pub use kinds::KindName;
pub use laws::names_are_read_back;
