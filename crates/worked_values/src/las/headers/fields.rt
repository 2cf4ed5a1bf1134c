//! Fields of a header block, and words that stand in them.

use las_header::HeaderFault;

/// A field of the header block: its place and its bytes.
#[derive(Clone, Copy)]
pub(super) struct Field {
    pub at: usize,
    pub bytes: usize,
}

/// A line of a table of blocks.
#[derive(Clone, Copy)]
pub(super) enum Step {
    /// The block has this number in the place of that of a file without points.
    Has(Field, u64),
    /// This is the first fault of so many bytes of the block, and the next block begins.
    Told(usize, Option<HeaderFault>),
}

pub(super) const SIGNATURE: Field = Field { at: 0, bytes: 4 };

/// The source, the encoding and the first number of the project.
pub(super) const PROJECT: Field = Field { at: 4, bytes: 8 };

pub(super) const MAJOR: Field = Field { at: 24, bytes: 1 };

pub(super) const MINOR: Field = Field { at: 25, bytes: 1 };

/// Where the system stands, and the software.
pub(super) const SYSTEM: Field = Field { at: 26, bytes: 8 };

pub(super) const SOFTWARE: Field = Field { at: 58, bytes: 8 };

/// The day and the year.
pub(super) const CREATED: Field = Field { at: 90, bytes: 4 };

pub(super) const HEADER_SIZE: Field = Field { at: 94, bytes: 2 };

pub(super) const POINTS_AT: Field = Field { at: 96, bytes: 4 };

pub(super) const VLRS: Field = Field { at: 100, bytes: 4 };

pub(super) const FORMAT: Field = Field { at: 104, bytes: 1 };

pub(super) const LENGTH: Field = Field { at: 105, bytes: 2 };

pub(super) const LEGACY: Field = Field { at: 107, bytes: 4 };

/// The older counts of the first two returns, and of the third.
pub(super) const LEGACY_BY_RETURN: Field = Field { at: 111, bytes: 8 };

pub(super) const LEGACY_THIRD: Field = Field { at: 119, bytes: 8 };

pub(super) const X_SCALE: Field = Field { at: 131, bytes: 8 };

pub(super) const Y_SCALE: Field = Field { at: 139, bytes: 8 };

pub(super) const Z_SCALE: Field = Field { at: 147, bytes: 8 };

pub(super) const X_OFFSET: Field = Field { at: 155, bytes: 8 };

pub(super) const Y_OFFSET: Field = Field { at: 163, bytes: 8 };

pub(super) const Z_OFFSET: Field = Field { at: 171, bytes: 8 };

pub(super) const X_MAX: Field = Field { at: 179, bytes: 8 };

pub(super) const WAVES_AT: Field = Field { at: 227, bytes: 8 };

pub(super) const EVLRS_AT: Field = Field { at: 235, bytes: 8 };

pub(super) const COUNT: Field = Field { at: 247, bytes: 8 };

/// The count of the last of the returns.
pub(super) const LAST_RETURN: Field = Field { at: 367, bytes: 8 };

/// -0.
pub(super) const MINUS_ZERO: u64 = 0x8000_0000_0000_0000;
/// 10^-9.
pub(super) const NANO: u64 = 0x3E11_2E0B_E826_D695;
/// 2^-9.
pub(super) const ONE_512TH: u64 = 0x3F60_0000_0000_0000;
/// The word nearest to a third.
pub(super) const THIRD: u64 = 0x3FD5_5555_5555_5555;
/// The word before that of 0.01.
pub(super) const BELOW_CENT: u64 = 0x3F84_7AE1_47AE_147A;
/// The word nearest to 0.01.
pub(super) const CENT: u64 = 0x3F84_7AE1_47AE_147B;
/// The word behind that of 0.01.
pub(super) const ABOVE_CENT: u64 = 0x3F84_7AE1_47AE_147C;

pub(super) const MINUS_CENT: u64 = 0xBF84_7AE1_47AE_147B;
/// 1.
pub(super) const ONE: u64 = 0x3FF0_0000_0000_0000;
/// The word behind that of 1.
pub(super) const ABOVE_ONE: u64 = 0x3FF0_0000_0000_0001;
/// 2.
pub(super) const TWO: u64 = 0x4000_0000_0000_0000;
/// The word before that of 10^9.
pub(super) const BELOW_BILLION: u64 = 0x41CD_CD64_FFFF_FFFF;

pub(super) const BILLION: u64 = 0x41CD_CD65_0000_0000;

pub(super) const MINUS_BILLION: u64 = 0xC1CD_CD65_0000_0000;
/// About 10^300.
pub(super) const HUGE: u64 = 0x7E37_E43C_8800_759C;

pub(super) const INFINITE: u64 = 0x7FF0_0000_0000_0000;

pub(super) const NO_NUMBER: u64 = 0x7FF8_0000_0000_0000;

pub(super) const MINUS_NO_NUMBER: u64 = 0xFFF8_0000_0000_0000;
