//! Reads and writes the variable length records (VLRs) of a LAS file (ASPRS LAS Specification 1.4 R15), and the extended
//! ones (EVLRs) behind its points.
#![tactic(auto)]

mod entry;
mod laws;
mod lists;
mod reads;
mod writes;

pub use entry::{EXTRA_BYTES, STANDARD_USER, VLR_HEAD, Vlr, VlrErr, VlrFault};
pub use laws::{written_evlrs_are_read, written_vlrs_are_read};
pub use lists::VlrList;
pub use reads::{read_evlrs, read_vlrs};
pub use writes::{write_evlr, write_vlr};
