//! How much the nodes of a net hold.

ghost use Rattle.std.specs.Prelude.{◌<◌, ◌≤◌};

/// How much the nodes of a net hold.
#[derive(Clone, Copy)]
pub(crate) struct Sizes {
    /// How many points a leaf makes at once: 1 to 64.
    pub(crate) chunk: usize,

    /// How many items wait between two nodes: 1 to 64.
    pub(crate) queue: usize,

    pub ghost some: { 0 < chunk },
    pub ghost most: { chunk ≤ 64 },
    pub ghost room: { 0 < queue },
    pub ghost small: { queue ≤ 64 },
}
