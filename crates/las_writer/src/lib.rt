//! Writes points as a LAS file of version 1.2, 1.3 or 1.4 (ASPRS LAS Specification 1.4 R15): the header block, the
//! VLRs, a record for each point, and in 1.4 the EVLRs.
#![tactic(auto)]

mod blocks;
mod faults;
mod judging;
mod known;
mod laws;
mod lists;
mod records;
mod totals;
mod writer;

pub use faults::{ChunkErr, FinishErr, LasBeginErr, PutFault, RecordFault};
pub use judging::PointPlaces;
pub use laws::{forms_are_taken, raw_numbers_are_steps, refusals_are_cut, unfinished_grows};
pub use records::RefusedPoint;
pub use totals::Totals;
pub use writer::{LasWriter, WriterParts};
