//! Nodes that take turns on several threads.
#![tactic(auto)]

mod crew;
mod gathering;
mod hands;
mod rooms;
mod rounds;
mod seats;
mod settling;
mod stopping;
mod tail;
mod tree;
mod turns;
mod workers;

pub use crew::Crew;
pub use rooms::WorkerRoom;
pub use seats::{Deal, Seat, SeatIn};
pub use settling::settle_ends;
pub use tail::{finish_deals, finish_deals_first};
pub use tree::run_tree_by;
pub use workers::{run_workers, run_workers_first};
