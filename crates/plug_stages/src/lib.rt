//! Filters and tallies of the caller, and the stages that run one.
#![tactic(auto)]

mod bounds;
mod classes;
mod filter;
mod laws;
mod places;
mod plug_work;
mod spike;
mod spots;
mod tally;
mod tally_work;

pub use bounds::Bounds;
pub use classes::Classes;
pub use filter::{BoxedFilter, PlugFilter};
pub use laws::{plugs_fold, tallies_count};
pub use places::{Places, Plugs, has_filter, has_tally, put_back, take_filter, take_tally};
pub use plug_work::PlugWork;
pub use spike::Spike;
pub use spots::{Numbers, PlugSpot, TallySpot};
pub use tally::{BoxedTally, PlugTally};
pub use tally_work::TallyWork;
