//! Filters: each judges its points one after the other, in place.
#![tactic(auto)]

mod filter;
mod judge;
mod masks;
mod point_filter;
mod ranges;
mod rules;
mod writer_where;

pub use filter::Filter;
pub use judge::{fault_at, move_down};
pub use point_filter::PointFilter;
pub use rules::{Condition, Crop, Decimation, Head, PointRule, passes};
pub use writer_where::WriterWhere;
