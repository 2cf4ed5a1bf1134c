//! Point data records (ASPRS LAS Specification 1.4 R15, "Point Data Record Format 0" to "8") and the points that they
//! stand for.
#![tactic(auto)]

mod angles;
mod decoding;
mod encoding;
mod grid;
mod laws;
mod layouts;

pub use decoding::decode;
pub use encoding::{EncodeFault, encode, encode_ready, raw_numbers};
pub use grid::{Grid, ReadyGrid};
pub use laws::{numbers_return, records_are_whole};
pub use layouts::dims;
