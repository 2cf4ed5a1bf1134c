//! What works hold of files is given back.
#![tactic(auto)]

mod release;

pub use release::{give_back, release_works};
