//! What the texts of several languages have in common: spaces, letters, digits, and the form of a name.
#![tactic(auto)]

mod bytes;

pub use bytes::{is_digit, is_letter, is_name, is_space, is_word};
