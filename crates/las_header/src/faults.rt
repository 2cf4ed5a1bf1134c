//! Why a header isn't read.

use thiserror::Error;

/// An axis of the coordinates.
#[derive(Clone, Copy, Debug, PartialEq, Eq)]
pub enum HeaderAxis {
    X,
    Y,
    Z,
}

/// Why the header block of a file isn't read. Of several faults the first in this order is told; the scales of X, Y
/// and Z are tried in this order for both of their faults, and then the offsets.
#[derive(Clone, Copy, Debug, PartialEq, Eq, Error)]
pub enum HeaderFault {
    /// The file doesn't begin with the signature `LASF`.
    #[error("the file doesn't begin with LASF")]
    NotLas,
    /// The file has a version, and it isn't 1.2, 1.3 or 1.4.
    #[error("the version isn't 1.2, 1.3 or 1.4")]
    VersionNotRead,
    /// The file ends within the block of its version, which has 227, 235 or 375 bytes, or the block's size is given as less.
    #[error("the header block has fewer bytes than that of its version")]
    HeaderSize,
    /// The format byte is 128 or more.
    #[error("the points are compressed")]
    Compressed,
    /// The format byte isn't 0, 1, 2 or 3, nor, in LAS 1.4, 6, 7 or 8.
    #[error("the point format isn't 0 to 3, nor 6 to 8 of LAS 1.4")]
    FormatNotRead,
    /// A record has fewer bytes than the fields of its format.
    #[error("the point records are shorter than their format")]
    RecordTooShort,
    /// The points begin before the end of the header block.
    #[error("the points begin inside the header block")]
    PointsInHeader,
    /// The scale factor of this axis is 0 or has its sign bit set.
    #[error("a scale factor isn't positive")]
    ScaleNotPositive(HeaderAxis),
    /// The scale factor of this axis isn't the word of a decimal from 10^-9 to 1 with at most 9 places.
    #[error("a scale factor is no decimal of at most 9 places")]
    ScaleNotDecimal(HeaderAxis),
    /// The offset of this axis is no finite number, or has a size of 10^9 or more.
    #[error("an offset has a size of 10^9 or more")]
    OffsetOutOfRange(HeaderAxis),
}

/// Why a word stands for no scale.
#[derive(Clone, Copy, Debug, PartialEq, Eq, Error)]
pub enum ScaleFault {
    /// The word is 0 or has its sign bit set.
    #[error("the scale isn't positive")]
    NotPositive,
    /// The word isn't that of a decimal from 10^-9 to 1 with at most 9 places.
    #[error("the scale is no decimal of at most 9 places")]
    NotDecimal,
}
