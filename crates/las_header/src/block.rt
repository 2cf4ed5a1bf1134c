//! The header that is read and written.

ghost use Rattle.std.specs.Prelude.{◌≡◌};
ghost use Rattle.las_header.specs.Counts.{points_in};

use crate::Format;
use decimal_coords::Scale;

/// The public header block, one field for each of its fields and in their order. A field that ends behind the block of its version
/// is 0.
#[derive(Clone, Copy, Debug, PartialEq, Eq)]
pub struct Header {
    /// File Signature, `LASF`.
    pub signature: [u8; 4],
    /// File Source ID.
    pub source_id: u16,
    /// Global Encoding.
    pub encoding: u16,
    /// Project ID (GUID), as its bytes stand.
    pub guid: [u8; 16],
    /// Version Major.
    pub major: u8,
    /// Version Minor.
    pub minor: u8,
    /// System Identifier.
    pub system: [u8; 32],
    /// Generating Software.
    pub software: [u8; 32],
    /// File Creation Day of Year.
    pub day: u16,
    /// File Creation Year.
    pub year: u16,
    /// Header Size, in bytes.
    pub header_size: u16,
    /// Offset to Point Data, in bytes from the start of the file.
    pub points_at: u32,
    /// Number of Variable Length Records.
    pub vlrs: u32,
    /// Point Data Record Format.
    pub format: Format,
    /// Point Data Record Length, in bytes.
    pub record_length: u16,
    /// Legacy Number of Point Records.
    pub legacy_count: u32,
    /// Legacy Number of Points by Return.
    pub legacy_returns: [u32; 5],
    /// X, Y and Z Scale Factor.
    pub scale: [Scale; 3],
    /// X, Y and Z Offset, in nanounits; those that are read are below 10^18 in size.
    pub offset: [i64; 3],
    /// Max X, Min X, Max Y, Min Y, Max Z and Min Z, as binary64 words.
    pub bounds: [u64; 6],
    /// Start of Waveform Data Packet Record, in bytes from the start of the file.
    pub waveform: u64,
    /// Start of First Extended Variable Length Record, in bytes from the start of the file.
    pub evlrs_at: u64,
    /// Number of Extended Variable Length Records.
    pub evlrs: u32,
    /// Number of Point Records.
    pub count: u64,
    /// Number of Points by Return.
    pub returns: [u64; 15],
}

impl Header {
    /// The number of point records: the count, or the legacy count where that is 0.
    pub fn points(&self) -> u64
        ensures { result ≡ points_in self.now }
    {
        if self.count == 0 {
            self.legacy_count as u64
        } else {
            self.count
        }
    }
}
