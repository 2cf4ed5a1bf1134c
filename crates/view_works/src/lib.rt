//! Held views as works: a root that collects the flow that it takes, and a leaf that gives such a flow on.
#![tactic(auto)]

mod collector;
mod held;
mod laws;

pub use collector::Collector;
pub use held::HeldViews;
pub use laws::collectors_keep_their_flow;
