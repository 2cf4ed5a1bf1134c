//! Binary64 words (IEEE 754-2019, section 3.4) and the decimals nearest to them, in whole numbers alone.
#![tactic(auto)]

mod decimals;
mod order;
mod rounding;
mod scales;

ghost use Rattle.std.specs.Prelude.{◌≡◌, ◌≤◌, ◌^◌};
ghost use Rattle.ieee_words.specs.Near.{IsNearest, NearestIsOne};
ghost use Rattle.ieee_words.specs.NearWord.{near_word, NearWordIsNearest};

pub use decimals::{Dec, WordFault, decimal, decimal_is_one, decimal_of_word_is_decimal};
pub use order::{order_keeps_values, word_order};
use rounding::near_size;
pub use scales::{scale_is_one, scale_nano};

/// The word of binary64 nearest to `n / 10^k`; of two such words, the one with the even fraction
/// (IEEE 754-2019, section 4.3.1, roundTiesToEven). `k` is at most 9, and 0 has the word 0.
pub fn near(n: i64, k: u32) -> u64
    requires { k ≤ 9 }
    ensures nearest { IsNearest n k result }
    ensures value { result ≡ near_word n k }
{
    if n == 0 {
        return 0;
    }
    let size = near_size(n.unsigned_abs(), k);
    if n < 0 { size + (1 << 63) } else { size }
}

/// The law that a decimal of at most 9 places has one nearest word.
pub fn nearest_is_one()
    ensures { NearestIsOne }
{}

/// The law that the word which `near_word` computes is the nearest one.
pub fn near_word_is_nearest()
    ensures { NearWordIsNearest }
{}
