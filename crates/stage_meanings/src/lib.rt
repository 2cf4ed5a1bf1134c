//! What filters mean: definitions over whole views and flows, and their laws. There is little code here.
#![tactic(auto)]

mod laws;
mod reason;
mod spot;

pub use laws::{filters_stream, heads_are_first, views_begin_anew};
pub use reason::Reason;
pub use spot::Spot;
