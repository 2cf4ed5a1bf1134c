//! Why turns end before all nodes are done.

ghost use Rattle.std.specs.Prelude.{◌≡◌};
ghost use Rattle.stage_runs.specs.declared.halt.Halt.TheVariants.{Memory};

use std::alloc::AllocError;

/// Why turns end before all nodes are done.
#[derive(Clone, Copy, Debug, PartialEq, Eq)]
pub enum Halt {
    /// Memory was wanting.
    Memory,

    /// A node has a fault, and turns are to end at the first one.
    Fault,
}

impl From<AllocError> for Halt {
    ghost from_gives = { λ _ halt. halt ≡ Memory };

    fn from(_: AllocError) -> Self {
        Halt::Memory
    }
}
