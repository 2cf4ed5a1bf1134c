//! Rows of records, points and grids.

use las_header::Format;
use point_formats::EncodeFault;

/// A point of a file.
pub(super) struct Row {
    pub format: Format,
    /// The scales of X, Y and Z in nanounits, and then the offsets.
    pub grid: [i64; 6],
    /// X, Y, Z and the scan angle in nanounits.
    pub nano: [i64; 4],
    /// The word of the time.
    pub time: u64,
    /// The intensity, the source, red, green, blue and infrared.
    pub words: [u16; 6],
    /// The return number, the number of returns, the direction, the edge, the class, whether it is synthetic, a key point, withheld
    /// and in an overlap, the channel and the user data.
    pub bytes: [u8; 11],
    /// The bytes of the record, as many as its format has and zeros behind them, or why it does not hold the point.
    pub record: Result<[u8; 38], EncodeFault>,
}
