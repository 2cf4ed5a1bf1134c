//! What the type of a number says of it. These functions do nothing: their contracts are what callers want.

ghost use Rattle.std.specs.Prelude.{◌^◌, ◌<◌};

/// A number fits its type.
pub fn known_u8(number: u8)
    ensures { number < 2 ^ 8 }
{}

/// A number fits its type.
pub fn known_u16(number: u16)
    ensures { number < 2 ^ 16 }
{}

/// A number fits its type.
pub fn known_u32(number: u32)
    ensures { number < 2 ^ 32 }
{}

/// A number fits its type.
pub fn known_u64(number: u64)
    ensures { number < 2 ^ 64 }
{}
