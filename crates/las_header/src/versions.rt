//! What differs between the versions of LAS.

ghost use Rattle.std.specs.Prelude.{◌≡◌, ◌≤◌};
ghost use Rattle.las_header.specs.Versions.{block_size, fits_count, is_version, takes_format};

use crate::Format;

/// The bytes of the longest header block, that of LAS 1.4.
pub const LONGEST_BLOCK: usize = 375;

/// Whether files of this minor version are read and written: 2, 3 or 4.
pub fn is_version(minor: u8) -> bool
    ensures { result ≡ is_version minor }
{
    matches!(minor, 2..=4)
}

/// The bytes of the header block in files of this minor version: 227 in LAS 1.2, 235 in 1.3 and 375 in 1.4. Of any other version it is
/// 26, as far as the version itself.
pub fn block_size(minor: u8) -> usize
    ensures size { result ≡ block_size minor }
    ensures long { 26 ≤ result }
    ensures short { result ≤ LONGEST_BLOCK }
{
    match minor {
        2 => 227,
        3 => 235,
        4 => LONGEST_BLOCK,
        _ => 26,
    }
}

/// Whether files of this minor version have points of the format: those of LAS 1.2 and 1.3 only points of formats 0 to 3.
pub fn takes_format(minor: u8, format: Format) -> bool
    ensures { result ≡ takes_format minor format }
{
    format.number() < 6 || minor == 4
}

/// Whether a header of this minor version counts so many points. It is false exactly where that is 2 or 3 and the number is above
/// 4,294,967,295.
pub fn fits_count(minor: u8, written: u64) -> bool
    ensures { result ≡ fits_count minor written }
{
    !matches!(minor, 2 | 3) || written <= u32::MAX as u64
}
