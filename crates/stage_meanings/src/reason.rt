//! Why a stage stops at a point.

ghost use Rattle.std.specs.Prelude.{◌≡◌};
ghost use Rattle.stage_meanings.specs.Filters.{point_fault};
ghost use Rattle.stage_meanings.specs.Conditions.{arith_reason};
ghost use Rattle.stage_meanings.specs.Records.{encode_reason};

use cloud_points::{Dim, PointFault};
use expr_eval::ArithFault;
use point_formats::EncodeFault;

/// Why a stage can't judge a point.
#[derive(Clone, Copy, Debug, PartialEq, Eq)]
pub enum Reason {
    /// A value is outside the range of this dimension.
    OutOfRange(Dim),

    /// This coordinate isn't held by the scale of a file.
    NotHeld(Dim),

    /// An expression divides by zero.
    DivideByZero,

    /// An expression has a value above 10^27 in size, in nanounits.
    ArithOverflow,

    /// A file counts no point more.
    TooMany,
}

impl Reason {
    /// The fault of the point with this number.
    pub fn at(self, number: u64) -> PointFault
        ensures { result ≡ point_fault number self }
    {
        match self {
            Reason::OutOfRange(dim) => PointFault::ValueOutOfRange(number, dim),
            Reason::NotHeld(dim) => PointFault::NotHeld(number, dim),
            Reason::DivideByZero => PointFault::DivideByZero(number),
            Reason::ArithOverflow => PointFault::ArithOverflow(number),
            Reason::TooMany => PointFault::TooMany(number),
        }
    }
}

impl From<EncodeFault> for Reason {
    ghost from_gives = { λ fault reason. reason ≡ encode_reason fault };

    fn from(fault: EncodeFault) -> Reason {
        match fault {
            EncodeFault::NotHeld(dim) => Reason::NotHeld(dim),
            EncodeFault::ValueOutOfRange(dim) => Reason::OutOfRange(dim),
        }
    }
}

impl From<ArithFault> for Reason {
    ghost from_gives = { λ fault reason. reason ≡ arith_reason fault };

    fn from(fault: ArithFault) -> Reason {
        match fault {
            ArithFault::DivideByZero => Reason::DivideByZero,
            ArithFault::ArithOverflow => Reason::ArithOverflow,
        }
    }
}
