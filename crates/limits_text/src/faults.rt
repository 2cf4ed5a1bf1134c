//! Why a text isn't read.

ghost use Rattle.std.specs.Prelude.{◌≡◌};
ghost use Rattle.limits_text.specs.declared.faults.TextErr.TheVariants.{Fault, Memory};

use std::alloc::AllocError;
use thiserror::Error;

/// The fault of a text.
#[derive(Clone, Copy, Debug, PartialEq, Eq, Error)]
#[error("the text is wrong at byte {at}")]
pub struct TextFault {
    /// The least place, in bytes from 0, at which the text is a prefix of no text of its grammar, or its length where it
    /// ends too early; or the first byte of a decimal that is too long or too large, of a pair in the wrong order, of the
    /// last corner of a ring that isn't closed or has too few corners, or of a part past the limit. The one that is found
    /// first from left to right.
    pub at: usize,
}

/// Why a text isn't read, where what it says takes memory.
#[derive(Clone, Copy, Debug, PartialEq, Eq, Error)]
pub enum TextErr {
    /// It has a fault.
    #[error("{0}")]
    Fault(TextFault),
    /// There was no memory.
    #[error("out of memory")]
    Memory,
}

impl From<TextFault> for TextErr {
    ghost from_gives = { λ f e. e ≡ Fault f };

    fn from(fault: TextFault) -> TextErr {
        TextErr::Fault(fault)
    }
}

impl From<AllocError> for TextErr {
    ghost from_gives = { λ _ e. e ≡ Memory };

    fn from(_: AllocError) -> TextErr {
        TextErr::Memory
    }
}
