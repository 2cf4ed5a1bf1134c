//! The nodes of one worker.

use chunk_queue::{RuledIn, RuledOut};
use network_core::Node;

/// A node with the end on which it sends. None is the root's.
#[derive(Drop)]
pub struct Seat<W> {
    /// The number of its stage.
    pub stage: u32,

    /// The node.
    pub node: Node<W>,

    /// The end on which it sends.
    pub out: Option<RuledOut>,
}

/// The end that an input of a seat reads.
#[derive(Drop)]
pub struct SeatIn {
    /// The seat's place in its deal.
    pub seat: u32,

    /// The number of the input.
    pub input: u32,

    /// The end of the queue above the node that the input reads.
    pub end: RuledIn,
}

/// The nodes of one worker with their ends.
#[derive(Drop)]
pub struct Deal<W> {
    /// Its nodes.
    pub seats: Vec<Seat<W>>,

    /// The ends that their inputs read.
    pub ins: Vec<SeatIn>,
}
