//! What a filter makes of whole views, by plain loops: where it stops, the views before that, and each of them by itself.
#![tactic(auto)]

mod filtering;
mod judging;
mod stops;
mod viewing;

pub use filtering::{Filtered, filter_views};
