//! How the stages of a run are evaluated.

use crate::shape::Shape;

/// How the stages of a run are evaluated. What a run gives doesn't depend on it.
#[derive(Clone, Copy, Debug)]
pub enum Engine {
    /// They take turns, over queues, in pieces of this shape.
    Queues(Shape),

    /// One after the other, each on all the points that it takes.
    Whole,
}
