//! What a turn was.

/// Why a turn did nothing.
#[derive(Clone, Copy, Debug, PartialEq, Eq)]
pub enum Why {
    /// The queue of the current input is empty.
    Empty,
    /// The queue to the parent is full.
    Full,
}

/// What a turn did.
#[derive(Clone, Copy, Debug, PartialEq, Eq)]
pub enum Turned {
    /// It took an item from the current input.
    Took,
    /// It gave an item on.
    Gave,
    /// It made an item, which is to be given next.
    Made,
    /// It changed nothing.
    Idle(Why),
    /// The node is done.
    Done,
}

impl Turned {
    ghost use Rattle.std.specs.Prelude.{◌≡◌};
    ghost use Rattle.network_theory.specs.Net.{works};
    ghost use Rattle.network_core.specs.Shown.{turned};

    /// Whether the node took, gave or made an item.
    pub fn did_work(self) -> bool
        ensures { result ≡ works (turned self) }
    {
        match self {
            Turned::Took | Turned::Gave | Turned::Made => true,
            Turned::Idle(_) | Turned::Done => false,
        }
    }
}
