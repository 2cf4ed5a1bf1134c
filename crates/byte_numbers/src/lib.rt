//! Numbers and pieces in lists of bytes, the numbers with their lowest byte first, as LAS files have them.
#![tactic(auto)]

mod appending;
mod known;
mod reading;

pub use appending::{put, put_u32s, put_u64s};
pub use known::{known_u8, known_u16, known_u32, known_u64};
pub use reading::{i8_at, i16_at, i32_at, piece_at, u8_at, u16_at, u32_at, u64_at};
