ghost use Rattle.std.specs.Prelude.{◌≡◌, ◌≢◌, ℕ, ◌+◌, ◌-◌, ◌*◌, ◌/◌, ◌%◌, ◌^◌, ◌<◌, ◌≤◌};
ghost use Rattle.ieee_words.specs.Sizes.{IsNearestSize};

use exact_numbers::{Divisor, divisor_of_ten};

/// `size * 2^up = quotient * divisor + rest`, with 97 to 127 bits in the quotient.
#[derive(Clone, Copy)]
pub struct Quotient {
    up: u32,
    quotient: u128,
    rest: u64,
}

/// The 53 leading bits of a number: it is `kept * 2^down + cut`.
#[derive(Clone, Copy)]
pub struct Leading {
    down: u32,
    kept: u64,
    cut: u128,
}

fn divided(size: u64, divisor: Divisor) -> Quotient
    requires some { 0 < size }
    requires not_large { size ≤ 2 ^ 63 }
    requires divisor_small { divisor.by ≤ 1_000_000_000 }
    ensures value { size * 2 ^ result.up ≡ result.quotient * divisor.by + result.rest }
    ensures rest { result.rest < divisor.by }
    ensures low { 2 ^ 96 ≤ result.quotient }
    ensures high { result.quotient < 2 ^ 127 }
    ensures up_high { result.up ≤ 126 }
    ensures up_low { 63 ≤ result.up }
{
    let up = (size as u128).leading_zeros() - 1;
    let wide = (size as u128) << up;
    let (quotient, rest) = divisor.divide_wide(wide);
    Quotient { up, quotient, rest }
}

fn leading_bits(n: u128) -> Leading
    requires low { 2 ^ 96 ≤ n }
    requires high { n < 2 ^ 127 }
    ensures value { n ≡ result.kept * 2 ^ result.down + result.cut }
    ensures cut { result.cut < 2 ^ result.down }
    ensures low { 2 ^ 52 ≤ result.kept }
    ensures high { result.kept < 2 ^ 53 }
    ensures down_low { 44 ≤ result.down }
    ensures down_high { result.down ≤ 74 }
{
    let down = 75 - n.leading_zeros();
    let kept = n >> down;
    Leading {
        down,
        kept: kept as u64,
        cut: n - (kept << down),
    }
}

/// The word without a sign that is nearest to size / 10^k.
pub fn near_size(size: u64, k: u32) -> u64
    requires places { k ≤ 9 }
    requires some { 0 < size }
    requires not_large { size ≤ 2 ^ 63 }
    ensures { IsNearestSize size (10 ^ k) result }
{
    let scaled = divided(size, divisor_of_ten(k));
    let lead = leading_bits(scaled.quotient);
    let half = 1u128 << (lead.down - 1);
    let word = ((lead.down as u64 + 1074 - scaled.up as u64) << 52) + lead.kept;
    if lead.cut < half {
        return word;
    }
    if lead.cut > half || scaled.rest > 0 {
        return word + 1;
    }
    word + lead.kept % 2
}
