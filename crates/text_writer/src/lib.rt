//! Writes points as text: a line with the names of the columns, and a line for each point.
#![tactic(auto)]

mod cells;
mod form;
mod header;
mod laws;
mod lines;
mod writer;

pub use form::{Column, ColumnList, Separator, TextBeginErr, TextForm};
pub use laws::{held_text_grows, text_grows, whole_numbers_are_whole};
pub use writer::TextWriter;
