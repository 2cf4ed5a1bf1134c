//! The filters that go by cells of space: views parted by squares, and the first point of each voxel; and what a stage does that
//! needs whole views.
#![tactic(auto)]

mod cells;
mod gathering;
mod tiles;

pub use cells::cell_of;
pub use gathering::gather;
pub use tiles::{splitter, voxel_first};
