//! Headers that are read, and the first fault of each kind.

mod blocks;
mod fields;

use crate::pieces::put_bytes;
use blocks::BLOCKS;
use fields::*;
use las_header::{
    Format, Header, HeaderFault, ScaleFault, read_header, scale_of_word, scales_have_their_words,
    write_header,
};

/// Puts a number into its field.
fn put(bytes: &mut [u8; 375], field: Field, number: u64) {
    let _ = put_bytes(bytes, field.at, &number.to_le_bytes()[..field.bytes.min(8)]);
}

/// The header block of a file of format 0 without points, and no more.
fn no_points() -> [u8; 375] {
    block_of(&[0; 375], &NO_POINTS)
}

/// A block with other numbers in these fields.
fn block_of(before: &[u8; 375], numbers: &[(Field, u64)]) -> [u8; 375] {
    let mut bytes = *before;
    for &(field, number) in numbers {
        put(&mut bytes, field, number);
    }
    bytes
}

const NO_POINTS: [(Field, u64); 9] = [
    (SIGNATURE, 0x4653_414C),
    (MAJOR, 1),
    (MINOR, 4),
    (HEADER_SIZE, 375),
    (POINTS_AT, 375),
    (LENGTH, 20),
    (X_SCALE, CENT),
    (Y_SCALE, CENT),
    (Z_SCALE, CENT),
];

const TWO_POINTS: [(Field, u64); 5] = [
    (COUNT, 2),
    (X_OFFSET, THIRD),
    (LEGACY, 7),
    (CREATED, 0x07E8_012D),
    // a survey
    (SYSTEM, 0x7965_7672_7573_2061),
];

/// Whether a header is that of two points.
fn is_of_two_points(header: &Header) -> bool {
    let texts = header.signature == *b"LASF"
        && (header.system[0], header.system[7], header.software[0]) == (b'a', b'y', 0);
    let kind = (header.major, header.minor) == (1, 4)
        && (header.day, header.year) == (301, 2024)
        && (header.format, header.record_length) == (Format::F0, 20);
    let grid = header.scale[2].nano() == 10_000_000 && header.offset == [333_333_333, 0, 0];
    let counts = (header.count, header.legacy_count, header.points()) == (2, 7, 2);
    texts && kind && grid && counts
}

pub fn a_header_of_two_points_is_read() -> bool {
    let bytes = block_of(&no_points(), &TWO_POINTS);
    let is_read = match read_header(&bytes) {
        Ok(header) => is_of_two_points(&header),
        Err(_) => false,
    };
    let older = block_of(&bytes, &[(MINOR, 2)]);
    let uncounted = block_of(&bytes, &[(COUNT, 0)]);
    is_read && (counts(&older), counts(&uncounted)) == (Some((0, 7)), Some((0, 7)))
}

/// The count of a block's header, and its points.
fn counts(bytes: &[u8; 375]) -> Option<(u64, u64)> {
    let header = read_header(bytes).ok()?;
    Some((header.count, header.points()))
}

/// The first fault of so many bytes of a block.
fn first_fault(bytes: &[u8; 375], length: usize) -> Option<HeaderFault> {
    read_header(&bytes[..length.min(375)]).err()
}

pub fn the_first_fault_is_told() -> bool {
    let mut right = true;
    let mut bytes = no_points();
    for step in &BLOCKS {
        match *step {
            Step::Has(field, word) => put(&mut bytes, field, word),
            Step::Told(length, fault) => {
                right &= first_fault(&bytes, length) == fault;
                bytes = no_points();
            }
        }
    }
    right
}

/// Words and the scales that they stand for in nanounits, from an independent reading of the standard.
const SCALES: [(u64, Result<i64, ScaleFault>); 42] = [
    (0, Err(ScaleFault::NotPositive)),
    (0x8000_0000_0000_0001, Err(ScaleFault::NotPositive)),
    (0xBEDD_3640_0000_0000, Err(ScaleFault::NotPositive)),
    (0xBFEF_BE76_C8B4_3958, Err(ScaleFault::NotPositive)),
    (0xC023_610A_4FDC_839B, Err(ScaleFault::NotPositive)),
    (0xC130_0000_2F29_0000, Err(ScaleFault::NotPositive)),
    (0xE483_9CAD_10B8_6300, Err(ScaleFault::NotPositive)),
    (0xFFF0_0000_0000_0000, Err(ScaleFault::NotPositive)),
    (0x3F45_4C98_5F06_F694, Ok(650_000)),
    (0x3F46_F006_8DB8_BAC7, Ok(700_000)),
    (0x3F50_624D_D2F1_A9FC, Ok(1_000_000)),
    (0x3F68_7A4A_48F9_6E16, Ok(2_988_000)),
    (0x3F84_7AE1_47AE_147B, Ok(10_000_000)),
    (0x3FAB_2BA7_F983_BA09, Ok(53_067_445)),
    (0x3FB1_EAE3_F98F_229D, Ok(69_990_395)),
    (0x3FC0_D973_36B6_FEE3, Ok(131_636_049)),
    (0x3FCD_9235_8A84_0591, Ok(231_024_449)),
    (0x3FD0_DF40_7123_1CA9, Ok(263_626_204)),
    (0x3FDA_483D_A25E_1F81, Ok(410_659_226)),
    (0x3FE0_0D34_92C8_88DF, Ok(501_611_983)),
    (0x3FE5_9507_F2F9_C361, Ok(674_442_267)),
    (0x3FEB_6E21_4903_87A8, Ok(857_193_606)),
    (0x3FEE_7FDE_77F8_92AC, Ok(953_109_011)),
    (0x01E2_7800_2181_0070, Err(ScaleFault::NotDecimal)),
    (0x076D_779A_A1E8_A87D, Err(ScaleFault::NotDecimal)),
    (0x3DB7_4991_F200_0000, Err(ScaleFault::NotDecimal)),
    (0x3E00_4324_0000_0000, Err(ScaleFault::NotDecimal)),
    (0x3F08_A43B_B40B_34E8, Err(ScaleFault::NotDecimal)),
    (0x3F50_0000_0000_0000, Err(ScaleFault::NotDecimal)),
    (0x3F4B_8597_8415_A3D7, Err(ScaleFault::NotDecimal)),
    (0x3F70_624D_D2F1_A9FB, Err(ScaleFault::NotDecimal)),
    (0x3F77_7B7C_7820_A30D, Err(ScaleFault::NotDecimal)),
    (0x3FAE_5C91_D14E_3BCC, Err(ScaleFault::NotDecimal)),
    (0x3FCF_8C0C_0BEB_B55E, Err(ScaleFault::NotDecimal)),
    (0x3FEA_8F5C_28F5_C290, Err(ScaleFault::NotDecimal)),
    (0x4000_0000_0000_0000, Err(ScaleFault::NotDecimal)),
    (0x4010_8B32_C7D3_68C8, Err(ScaleFault::NotDecimal)),
    (0x4050_1A3D_70A3_D70A, Err(ScaleFault::NotDecimal)),
    (0x41CD_CD65_0000_0000, Err(ScaleFault::NotDecimal)),
    (0x4BC5_63FB_531F_DCD9, Err(ScaleFault::NotDecimal)),
    (0x7FF0_0000_0000_0000, Err(ScaleFault::NotDecimal)),
    (0x7FF8_0000_0000_0000, Err(ScaleFault::NotDecimal)),
];

fn scale_nano(word: u64) -> Result<i64, ScaleFault> {
    Ok(scale_of_word(word)?.nano())
}

pub fn a_scale_is_the_decimal_of_its_word() -> bool {
    let mut right = true;
    for &(word, nano) in &SCALES {
        right &= scale_nano(word) == nano;
    }
    scales_have_their_words();
    right
}

const BY_HAND: [(Field, u64); 10] = [
    (PROJECT, 0x0007_0605_0403_0201),
    // by hand
    (SOFTWARE, 0x0064_6E61_6820_7962),
    (CREATED, 0x07E8_012D),
    (LEGACY_BY_RETURN, 0x0000_0002_0000_0001),
    (LEGACY_THIRD, 3),
    (X_OFFSET, 0xC11E_8480_4000_0000),
    (X_MAX, THIRD),
    (WAVES_AT, 0x0102_0304_0506_0708),
    (EVLRS_AT, 0x0807_0605_0403_0201),
    (LAST_RETURN, 0x0807_0605_0403_0201),
];

/// Whether the header of a block has this offset of X and no other, and is written as the first so many bytes of the block, and
/// those behind stay.
fn is_written_again(bytes: &[u8; 375], size: usize, offset: i64) -> bool {
    let Ok(header) = read_header(bytes) else {
        return false;
    };
    let mut out = [0xFF; 375];
    let written = write_header(&header, &mut out);
    let mut wanted = [0xFF; 375];
    let own = size.min(375);
    wanted[..own].copy_from_slice(&bytes[..own]);
    written == size && out == wanted && header.offset == [offset, 0, 0]
}

/// The minor version of a block, and the bytes that are written of it.
const SIZES: [(u64, usize); 3] = [(4, 375), (2, 227), (3, 235)];

pub fn a_written_header_is_read_again() -> bool {
    let bytes = block_of(&no_points(), &BY_HAND);
    let mut right = true;
    for &(minor, size) in &SIZES {
        let block = block_of(&bytes, &[(MINOR, minor)]);
        right &= is_written_again(&block, size, -500_000_062_500_000);
    }
    right
}
