//! Why a file of generated points isn't made.

ghost use Rattle.std.specs.Prelude.{◌≡◌};
ghost use Rattle.cloud_gen.specs.declared.faults.GenerateError.TheVariants.{Device as Broken, Memory as NoMemory};

use file_devices::Op;
use std::alloc::AllocError;
use thiserror::Error;

/// Why a file of generated points isn't made.
#[derive(Clone, Copy, Debug, PartialEq, Eq, Error)]
pub enum GenerateError {
    /// A device failed while the file was created, written, patched or kept.
    #[error("a device failed")]
    Device(Op),

    /// There was no memory.
    #[error("out of memory")]
    Memory,
}

impl From<Op> for GenerateError {
    ghost from_gives = { λ op e. e ≡ Broken op };

    fn from(op: Op) -> Self {
        GenerateError::Device(op)
    }
}

impl From<AllocError> for GenerateError {
    ghost from_gives = { λ _ e. e ≡ NoMemory };

    fn from(_: AllocError) -> Self {
        GenerateError::Memory
    }
}
