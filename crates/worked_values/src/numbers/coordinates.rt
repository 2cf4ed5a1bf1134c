//! Texts of decimals, and coordinates on a grid.

use arrayvec::ArrayString;
use decimal_coords::{
    DecFault, NotHeld, Scale, decimal_of_text_is_parsed, parse_decimal, parsed_is_one, print_fixed,
    put_fixed, raw, real,
};

/// A number of nanounits, the places that are printed, and the text.
const PRINTED: [(i128, u32, &str); 15] = [
    (-5_000_000, 2, "-0.01"),
    (-4_999_999, 2, "0.00"),
    (2_500_000_000, 0, "3"),
    (-2_500_000_000, 0, "-3"),
    (-499_999_999, 0, "0"),
    (0, 9, "0.000000000"),
    (-1, 9, "-0.000000001"),
    (1, 8, "0.00000000"),
    (5, 8, "0.00000001"),
    (123_000_456_789, 9, "123.000456789"),
    (i64::MAX as i128, 9, "9223372036.854775807"),
    (i64::MIN as i128, 9, "-9223372036.854775808"),
    (i64::MIN as i128, 0, "-9223372037"),
    (i128::MIN, 9, "-170141183460469231731687303715.884105728"),
    (i128::MAX, 0, "170141183460469231731687303716"),
];

/// Whether this text is printed in place of another.
fn is_printed(nano: i128, places: u32, text: &str) -> bool {
    let mut out = ArrayString::new();
    print_fixed(-1, 9, &mut out);
    if places <= 9 {
        print_fixed(nano, places, &mut out);
    }
    out.as_str() == text
}

pub fn print_fixed_rounds_half_away() -> bool {
    let mut right = true;
    for &(nano, places, text) in &PRINTED {
        right &= is_printed(nano, places, text);
    }
    right
}

/// A number of nanounits, the places that are put, and the text.
const PUT: [(i64, u32, &str); 17] = [
    (-5_000_000, 2, "-0.01"),
    (-4_999_999, 2, "0.00"),
    (2_500_000_000, 0, "3"),
    (-499_999_999, 0, "0"),
    (0, 9, "0.000000000"),
    (-1, 9, "-0.000000001"),
    (5, 8, "0.00000001"),
    (1_234_567_891, 1, "1.2"),
    (1_250_000_000, 1, "1.3"),
    (12_345_678_900_000, 4, "12345.6789"),
    (12_345_678_900_000, 5, "12345.67890"),
    (999_999_500, 6, "1.000000"),
    (i64::MAX, 7, "9223372036.8547758"),
    (i64::MAX, 9, "9223372036.854775807"),
    (i64::MIN, 9, "-9223372036.854775808"),
    (i64::MIN, 3, "-9223372036.855"),
    (i64::MIN, 0, "-9223372037"),
];

/// Whether this text is put so that it ends at a place, and the byte there stays.
fn is_put(nano: i64, places: u32, text: &str) -> bool {
    let mut line = [b'x'; 40];
    if places > 9 {
        return false;
    }
    let at = put_fixed(nano, places, &mut line, 30);
    &line[at..30] == text.as_bytes() && line[30] == b'x'
}

pub fn put_fixed_ends_at_its_place() -> bool {
    let mut right = true;
    for &(nano, places, text) in &PUT {
        right &= is_put(nano, places, text);
    }
    right
}

/// A text and its nanounits, or why it has none.
const PARSED: [(&str, Result<i64, DecFault>); 23] = [
    ("-0.01", Ok(-10_000_000)),
    ("5.", Ok(5_000_000_000)),
    (".5", Ok(500_000_000)),
    ("+7", Ok(7_000_000_000)),
    ("-0", Ok(0)),
    ("0.123456789", Ok(123_456_789)),
    ("4000000000", Ok(4_000_000_000_000_000_000)),
    ("-4000000000.000000000", Ok(-4_000_000_000_000_000_000)),
    ("00000000000000000000000000001.5", Ok(1_500_000_000)),
    ("", Err(DecFault::Empty)),
    ("1e3", Err(DecFault::BadByte(1))),
    ("-", Err(DecFault::BadByte(1))),
    (".", Err(DecFault::BadByte(1))),
    (" 1", Err(DecFault::BadByte(0))),
    ("+-1", Err(DecFault::BadByte(1))),
    ("1.2.3", Err(DecFault::BadByte(3))),
    ("1.5 ", Err(DecFault::BadByte(3))),
    ("0.0000000001", Err(DecFault::Places)),
    ("9999999999.0000000000", Err(DecFault::Places)),
    ("4000000001", Err(DecFault::TooLarge)),
    ("4000000000.000000001", Err(DecFault::TooLarge)),
    (
        "-99999999999999999999999999999999999999",
        Err(DecFault::TooLarge),
    ),
    (
        "99999999999999999999999999999999999999x",
        Err(DecFault::BadByte(38)),
    ),
];

pub fn parse_decimal_reads_decimals_or_names_the_first_fault() -> bool {
    let mut right = true;
    for &(text, nano) in &PARSED {
        right &= parse_decimal(text) == nano;
    }
    parsed_is_one();
    decimal_of_text_is_parsed();
    right
}

/// The step of a hundredth, in nanounits.
const HUNDREDTH: i64 = 10_000_000;

/// The step of one.
const ONE: i64 = 1_000_000_000;

/// A number of nanounits, the step of a grid and its offset, and the raw number.
const RAWS: [(i64, i64, i64, Result<i32, NotHeld>); 10] = [
    (15_000_000, HUNDREDTH, 0, Ok(2)),
    (-15_000_000, HUNDREDTH, 0, Ok(-2)),
    (14_999_999, HUNDREDTH, 0, Ok(1)),
    (25_000_000, HUNDREDTH, 10_000_000, Ok(2)),
    (4_000_000_000_000_000_000, ONE, 0, Err(NotHeld)),
    (2_147_483_647_499_999_999, ONE, 0, Ok(2_147_483_647)),
    (2_147_483_647_500_000_000, ONE, 0, Err(NotHeld)),
    (-2_147_483_648_499_999_999, ONE, 0, Ok(-2_147_483_648)),
    (-2_147_483_648_500_000_000, ONE, 0, Err(NotHeld)),
    (
        -4_000_000_000_000_000_000,
        1,
        999_999_999_999_999_999,
        Err(NotHeld),
    ),
];

/// The raw number, where `raw` takes these numbers.
fn raw_of(nano: i64, step: i64, off: i64) -> Option<Result<i32, NotHeld>> {
    let scale = Scale::new(step)?;
    if nano.unsigned_abs() > 4_000_000_000_000_000_000
        || off.unsigned_abs() > 1_000_000_000_000_000_000
    {
        return None;
    }
    Some(raw(nano, scale, off))
}

pub fn raw_goes_to_the_nearest_step() -> bool {
    let mut right = true;
    for &(nano, step, off, number) in &RAWS {
        right &= raw_of(nano, step, off) == Some(number);
    }
    right
}

/// A raw number, the step of a grid and its offset, and the nanounits.
const REALS: [(i32, i64, i64, i64); 3] = [
    (-1, HUNDREDTH, 0, -10_000_000),
    (
        i32::MAX,
        ONE,
        999_999_999_999_999_999,
        3_147_483_646_999_999_999,
    ),
    (
        i32::MIN,
        ONE,
        -999_999_999_999_999_999,
        -3_147_483_647_999_999_999,
    ),
];

/// The nanounits, where `real` takes these numbers.
fn real_of(number: i32, step: i64, off: i64) -> Option<i64> {
    let scale = Scale::new(step)?;
    if off.unsigned_abs() > 1_000_000_000_000_000_000 {
        return None;
    }
    Some(real(number, scale, off))
}

/// Nanounits, and those of the scale that they make.
const STEPS: [(i64, Option<i64>); 3] = [(0, None), (1_000_000_001, None), (ONE, Some(ONE))];

fn nano_of(step: i64) -> Option<i64> {
    Some(Scale::new(step)?.nano())
}

pub fn real_is_on_the_grid() -> bool {
    let mut right = true;
    for &(number, step, off, nano) in &REALS {
        right &= real_of(number, step, off) == Some(nano);
    }
    for &(step, nano) in &STEPS {
        right &= nano_of(step) == nano;
    }
    right
}
