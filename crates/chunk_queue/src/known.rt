//! What the holder of a pass knows of a queue.

use std::collections::LinkedList;

/// Whether the holder sends or takes, how much room the queue has, and what was sent over it and got from it.
/// No value of it is made.
pub struct Known<T> {
    pub sends: bool,
    pub gets: bool,
    pub room: usize,
    pub sent: LinkedList<T>,
    pub got: LinkedList<T>,
}
