//! Quotients that are rounded.

use exact_numbers::{half_away, half_away_is_one};

/// Numbers, what they are divided by, and the nearest whole number to the quotient; from halves on away from zero.
const QUOTIENTS: [(i128, i128, i128); 13] = [
    (5, 2, 3),
    (-5, 2, -3),
    (1, 2, 1),
    (-1, 2, -1),
    (1, 3, 0),
    (2, 3, 1),
    (-2, 3, -1),
    (0, 7, 0),
    (7, 1, 7),
    (
        10_000_000_000_000_000_000_000_000_000_000_000_000,
        1,
        10_000_000_000_000_000_000_000_000_000_000_000_000,
    ),
    (
        -10_000_000_000_000_000_000_000_000_000_000_000_000,
        10_000_000_000_000_000_000_000_000_000,
        -1_000_000_000,
    ),
    (
        5_000_000_000_000_000_000_000_000_000,
        10_000_000_000_000_000_000_000_000_000,
        1,
    ),
    (
        4_999_999_999_999_999_999_999_999_999,
        10_000_000_000_000_000_000_000_000_000,
        0,
    ),
];

/// The greatest size of a number that is divided, and the greatest divisor.
const MOST: (u128, i128) = (
    10_000_000_000_000_000_000_000_000_000_000_000_000,
    10_000_000_000_000_000_000_000_000_000,
);

/// The nearest whole number to a quotient, where it is asked for within bounds.
fn rounded(number: i128, by: i128) -> Option<i128> {
    if number.unsigned_abs() > MOST.0 || by < 1 || by > MOST.1 {
        return None;
    }
    Some(half_away(number, by))
}

pub fn a_half_goes_away_from_zero() -> bool {
    let mut right = true;
    for &(number, by, nearest) in &QUOTIENTS {
        right &= rounded(number, by) == Some(nearest);
    }
    half_away_is_one();
    right
}
