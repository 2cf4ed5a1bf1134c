//! Exact arithmetic on whole numbers: powers of ten, quotients rounded half away from zero, and quotients by one number that are
//! found by products.
#![tactic(auto)]

mod divisor;

ghost use Rattle.std.specs.Prelude.{◌≡◌, ◌^◌, ◌≤◌, pos, ◌≤ℤ◌, unsigned_abs};
ghost use Rattle.exact_numbers.specs.Rounding.{half_away, HalfAwayIsOne, IsHalfAway};

pub use divisor::Divisor;

/// The powers of ten that a nanounit needs: `10^k`, `k` from 0 to 9.
pub const fn power_of_ten(k: u32) -> u64
    requires { k ≤ 9 }
    ensures value { result ≡ 10 ^ k }
    ensures positive { 1 ≤ result }
    ensures bound { result ≤ 1_000_000_000 }
{
    match k {
        0 => 1,
        1 => 10,
        2 => 100,
        3 => 1_000,
        4 => 10_000,
        5 => 100_000,
        6 => 1_000_000,
        7 => 10_000_000,
        8 => 100_000_000,
        _ => 1_000_000_000,
    }
}

/// These powers, each made ready for the division of many numbers: `10^k`, `k` from 0 to 9.
pub const fn divisor_of_ten(k: u32) -> Divisor
    requires { k ≤ 9 }
    ensures { result.by ≡ 10 ^ k }
{
    match k {
        0 => Divisor::new(1),
        1 => Divisor::new(10),
        2 => Divisor::new(100),
        3 => Divisor::new(1_000),
        4 => Divisor::new(10_000),
        5 => Divisor::new(100_000),
        6 => Divisor::new(1_000_000),
        7 => Divisor::new(10_000_000),
        8 => Divisor::new(100_000_000),
        _ => Divisor::new(1_000_000_000),
    }
}

/// The quotient `num / den` rounded to a whole number, a half away from zero.
///
/// `den` is from 1 to 10^28, and `num` is at most 10^37 in size.
pub fn half_away(num: i128, den: i128) -> i128
    requires size { unsigned_abs num ≤ 10 ^ 37 }
    requires low { pos 1 ≤ℤ den }
    requires high { den ≤ℤ pos (10 ^ 28) }
    ensures value { result ≡ half_away num (unsigned_abs den) }
    ensures nearest { IsHalfAway num (unsigned_abs den) result }
{
    let unit = den as u128;
    let size = (num.unsigned_abs() + unit / 2) / unit;
    if num < 0 {
        -(size as i128)
    } else {
        size as i128
    }
}

/// The law that a quotient has exactly one rounding half away from zero, which `half_away` computes.
pub fn half_away_is_one()
    ensures { HalfAwayIsOne }
{}
