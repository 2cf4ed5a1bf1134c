//! The queues of a net.

ghost use Rattle.std.specs.Prelude.{◌≡◌, ◌<◌, ◌≤◌, [], length, replicate, IfOk};
ghost use Rattle.circular_buffer.specs.Buffer.{buffer};

use chunk_queue::PlainQueue;
use std::alloc::{AllocError, Global};

/// Queues with nothing on them, each of which has room for `capacity` items, 1 to 64.
#[derive(Drop)]
pub struct Queues {
    pub(crate) edges: Vec<PlainQueue>,
    pub(crate) capacity: usize,
    ghost empty: { edges.items ≡ replicate (length edges.items) (buffer [] capacity) },
    ghost some: { 0 < capacity },
    ghost most: { capacity ≤ 64 },
}

impl Queues {
    /// So many queues with nothing on them, each of which has room for `capacity` items. Refuses where memory
    /// is wanting.
    pub fn new(alloc: Global, count: usize, capacity: usize) -> Result<Queues, AllocError>
        requires some { 0 < capacity }
        requires most { capacity ≤ 64 }
        ensures count { IfOk result (λ queues. length queues.edges.items ≡ count) }
        ensures room { IfOk result (λ queues. queues.capacity ≡ capacity) }
    {
        let mut edges = Vec::with_capacity(alloc, count)?;
        for _ in 0..count {
            edges.push(PlainQueue::new(alloc, capacity)?)?;
        }
        Ok(Queues { edges, capacity })
    }
}
