//! The members of a stage as its typed options, and the first fault of a tree's options.
#![tactic(auto)]

mod meeting;
mod members;
mod outputs;
mod text_files;
mod trees;
mod typing;
mod walks;

pub use outputs::first_same_output;
pub use trees::type_tree;
