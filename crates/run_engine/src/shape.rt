//! How a run is cut into pieces.

ghost use Rattle.std.specs.Prelude.{◌≡◌, ◌<◌, ◌≤◌};

/// How many points a stage passes on at once, and how many items a queue between two stages holds, 1 to 64 each. What a run
/// gives doesn't depend on it.
#[derive(Clone, Copy, Debug)]
pub struct Shape {
    chunk: usize,
    queue: usize,
    ghost some_points: { 0 < chunk },
    ghost most_points: { chunk ≤ 64 },
    ghost some_items: { 0 < queue },
    ghost most_items: { queue ≤ 64 },
}

impl Shape {
    /// Pieces of at most `chunk` points, over queues of `queue` items.
    pub fn new(chunk: usize, queue: usize) -> Shape
        requires some_points { 0 < chunk }
        requires most_points { chunk ≤ 64 }
        requires some_items { 0 < queue }
        requires most_items { queue ≤ 64 }
        ensures { (result.chunk ≡ chunk) × (result.queue ≡ queue) }
    {
        Shape { chunk, queue }
    }

    /// The most points that are handed on at once.
    pub(crate) fn chunk(self) -> usize
        ensures value { result ≡ self.chunk }
        ensures some { 0 < result }
        ensures most { result ≤ 64 }
    {
        self.chunk
    }

    /// The most items of a queue.
    pub(crate) fn queue(self) -> usize
        ensures value { result ≡ self.queue }
        ensures some { 0 < result }
        ensures most { result ≤ 64 }
    {
        self.queue
    }
}
