ghost use Rattle.std.specs.Prelude.{◌≡◌, ℕ, ◌+◌, ◌-◌, ◌*◌, ◌/◌, ◌%◌, ◌^◌, ◌<◌, ◌≤◌, ℤ, unsigned_abs, IfSome, IfNone, IfOk};
ghost use Rattle.ieee_words.specs.Word.{size_in_parts};
ghost use Rattle.ieee_words.specs.Near.{IsShort};
ghost use Rattle.ieee_words.specs.Sizes.{IsNearestCount, IsRounded};
ghost use Rattle.ieee_words.specs.Dec.{DecimalIsOne, IsDecimalOf};
ghost use Rattle.ieee_words.specs.DecimalOfWord.{decimal_of_word, DecimalOfWordIsDecimal};

use crate::near;
use exact_numbers::power_of_ten;
use thiserror::Error;

/// The decimal of a word: a number of nanounits (10^-9), and whether it is exact, that is,
/// the word's own short decimal and not its value rounded off.
#[derive(Clone, Copy, Debug, PartialEq, Eq)]
pub struct Dec {
    pub nano: i64,
    pub exact: bool,
}

/// Why a word has no decimal.
#[derive(Clone, Copy, Debug, PartialEq, Eq, Error)]
pub enum WordFault {
    /// The exponent bits are 2047: an infinity or not a number.
    #[error("the word is no finite number")]
    NotFinite,
    /// The value has a size of 10^9 or more.
    #[error("the value has a size of 10^9 or more")]
    TooLarge,
}

/// The size `kept * 2^up`, counted in parts of 2^-1074.
#[derive(Clone, Copy)]
struct Size {
    kept: u64,
    up: u32,
}

/// The word of infinity, the least without a sign that is no finite number.
const INFINITE: u64 = 0x7FF0_0000_0000_0000;

/// The word of 10^9.
pub const LARGE: u64 = 0x41CD_CD65_0000_0000;

/// The greatest number of 15 digits.
const MOST: u64 = 999_999_999_999_999;

fn size_of_word(size: u64) -> Size
    requires { size < LARGE }
    ensures value { size_in_parts size ≡ result.kept * 2 ^ result.up }
    ensures kept { result.kept < 2 ^ 53 }
    ensures up { result.up ≤ 1051 }
{
    let exponent = size >> 52;
    let fraction = size % (1 << 52);
    if exponent == 0 {
        Size {
            kept: fraction,
            up: 0,
        }
    } else {
        Size {
            kept: fraction + (1 << 52),
            up: exponent as u32 - 1,
        }
    }
}

fn rounded(wide: u128, down: u32) -> u64
    requires wide { wide < 2 ^ 83 }
    requires down_low { 23 ≤ down }
    requires down_high { down ≤ 84 }
    ensures { IsRounded wide down result }
{
    let whole = wide >> down;
    let cut = wide - (whole << down);
    let half = 1u128 << (down - 1);
    let whole = whole as u64;
    if cut < half {
        return whole;
    }
    if cut > half {
        return whole + 1;
    }
    whole + whole % 2
}

/// The whole number nearest to 10^k times the size of a word's value, ties to the even one.
fn nearest_whole(size: u64, k: u32) -> u64
    requires places { k ≤ 9 }
    requires small { size < LARGE }
    ensures nearest { IsNearestCount size (10 ^ k) result }
    ensures bound { result ≤ 10 ^ 9 * 10 ^ k }
{
    let parts = size_of_word(size);
    let down = 1074 - parts.up;
    if down > 84 {
        return 0;
    }
    rounded(parts.kept as u128 * power_of_ten(k) as u128, down)
}

/// The n below 10^15 in size for which n / 10^k has the nearest word `w`, if there is one.
pub fn short_at(w: u64, k: u32) -> Option<i64>
    requires places { k ≤ 9 }
    requires small { w % 2 ^ 63 < LARGE }
    ensures some { IfSome result (λ n. IsShort w n k) }
    ensures fits { IfSome result (λ n. unsigned_abs n ≤ 10 ^ 9 * 10 ^ k) }
    ensures none { IfNone result ((n : ℤ) → ¬ IsShort w n k) }
{
    let size = w % (1 << 63);
    let n = nearest_whole(size, k);
    if n > MOST {
        return None;
    }
    let signed = if size == w { n as i64 } else { -(n as i64) };
    if near(signed, k) == w {
        Some(signed)
    } else {
        None
    }
}

/// The decimal that a word stands for, in nanounits.
///
/// It is exact where some `n` of at most 15 digits and some `k` of at most 9 have the nearest word `w`:
/// then it is `n / 10^k` for the least such `k`. Otherwise it is the whole number of nanounits nearest
/// to the value, of two such numbers the even one. A word that is no finite number is refused, and so
/// is a value with a size of 10^9 or more. So the decimal has a size below 10^18 nanounits.
pub fn decimal(w: u64) -> Result<Dec, WordFault>
    ensures decimal { IsDecimalOf w result }
    ensures value { result ≡ decimal_of_word w }
    ensures size { IfOk result (λ d. unsigned_abs d.nano < 10 ^ 18) }
{
    let size = w % (1 << 63);
    if size >= INFINITE {
        return Err(WordFault::NotFinite);
    }
    if size >= LARGE {
        return Err(WordFault::TooLarge);
    }
    for k in 0..10 {
        if let Some(n) = short_at(w, k) {
            return Ok(Dec {
                nano: n * power_of_ten(9 - k) as i64,
                exact: true,
            });
        }
    }
    let n = nearest_whole(size, 9) as i64;
    Ok(Dec {
        nano: if size == w { n } else { -n },
        exact: false,
    })
}

/// The law that what `decimal_of_word` computes is the decimal of the word, or its refusal.
pub fn decimal_of_word_is_decimal()
    ensures { DecimalOfWordIsDecimal }
{}

/// The law that a word has one decimal, or one refusal.
pub fn decimal_is_one()
    ensures { DecimalIsOne }
{}
