//! Points in packed rows, which hold only the dimensions of a layout.
#![tactic(auto)]

mod cells;
mod joining;
mod keys;
mod known;
mod laws;
mod outside;
mod packing;
mod parts;
mod piece;
mod pieces;
mod places;
mod putting;
mod reordering;
mod rows;
mod taking;
mod whole;
mod widening;

pub use laws::widths_of_formats;
pub use packing::Packing;
pub use rows::PackedRows;
