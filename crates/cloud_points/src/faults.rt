//! Why a stage ends before its input does, and what a leaf makes next.

use crate::Dim;
use file_devices::Op;

/// A fault in the points of a stage. The number is a point's in the stage's input, counted from 0 over all views, but for
/// `Cut`.
#[derive(Clone, Copy, Debug, PartialEq, Eq)]
pub enum PointFault {
    /// The file ends before the record with this number, counted from 0, is whole.
    Cut(u64),

    /// The coordinate of a point isn't held by the scale of a file.
    NotHeld(u64, Dim),

    /// A point's value is outside the range of a dimension, or of its field in a file.
    ValueOutOfRange(u64, Dim),

    /// A point's expression divides by zero.
    DivideByZero(u64),

    /// A point's expression has a value above 10^27 in size.
    ArithOverflow(u64),

    /// A file holds no point more than those that were written before this one.
    TooMany(u64),
}

/// The fault of a stage: its points', or its device's.
#[derive(Clone, Copy, Debug, PartialEq, Eq)]
pub enum StageFault {
    Point(PointFault),
    Device(Op),
}

/// What a stage without inputs makes next.
#[derive(Clone, Copy, Debug, PartialEq, Eq)]
pub enum Make {
    /// Points, at least one.
    Points,

    /// The end of a view.
    EndView,

    /// The end of all. The flag says whether it was cut short, and the fault, where there is one, why.
    End(bool, Option<StageFault>),
}
