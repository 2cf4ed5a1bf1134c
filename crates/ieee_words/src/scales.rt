ghost use Rattle.std.specs.Prelude.{◌≡◌, ℕ, ◌^◌, ◌<◌, ◌≤◌, MatchOption};
ghost use Rattle.ieee_words.specs.DecimalOfWord.{scale_of_word};
ghost use Rattle.ieee_words.specs.Scale.{HasScale, IsScaleOf, ScaleIsOne};

use crate::decimals::{LARGE, short_at};

/// The scale that a word stands for, in nanounits from 1 to 10^9: the word is the one nearest to it.
/// `None` exactly where no `n / 10^k`, with `k` at most 9 and `n` from 1 to `10^k`, has the nearest
/// word `w`.
pub fn scale_nano(w: u64) -> Option<i64>
    ensures scale { MatchOption result (¬ HasScale w) (IsScaleOf w) }
    ensures value { result ≡ scale_of_word w }
{
    if w >= LARGE {
        return None;
    }
    let Some(n) = short_at(w, 9) else {
        return None;
    };
    if 1 <= n && n <= 1_000_000_000 {
        Some(n)
    } else {
        None
    }
}

/// The law that a word has one scale.
pub fn scale_is_one()
    ensures { ScaleIsOne }
{}
