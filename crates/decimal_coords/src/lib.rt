//! Decimal coordinates: whole numbers of nanounits (10^-9), their grids and their texts.
#![tactic(auto)]

mod fixed;
mod grid;
mod parse;
mod powers;
mod put;
mod scan;

pub use exact_numbers::half_away;
pub use fixed::print_fixed;
pub use grid::{NotHeld, Scale, raw, real};
pub use parse::{DecFault, decimal_of_text_is_parsed, parse_decimal, parsed_is_one};
pub use put::put_fixed;
