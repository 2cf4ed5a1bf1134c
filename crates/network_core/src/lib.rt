//! Stages as nodes that take turns, and nets of nodes joined by bounded queues.
#![tactic(auto)]

mod among;
mod lists;
mod net;
mod node;
mod parts;
mod queues;
mod steps;
mod stop;
mod tray;
mod turned;

pub use lists::{InsList, NodeList};
pub use net::Net;
pub use node::Node;
pub use queues::Queues;
pub use steps::Steps;
pub use stop::Stop;
pub use turned::{Turned, Why};
