//! Where turns end.

/// Where the turns of the nodes of a net end.
#[derive(Clone, Copy, Debug, PartialEq, Eq)]
pub enum Stop {
    /// When all nodes are done.
    Last,
    /// When all are done, or one of them has a fault.
    First,
}
