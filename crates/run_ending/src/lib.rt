//! The end of a run: its writers finish their files, which are then kept.
#![tactic(auto)]

mod all;
mod finishing;
mod keep;
mod views;

pub use all::keep_all;
pub use finishing::{Ran, finish};
