//! The scale factors of the header.

ghost use Rattle.std.specs.Prelude.{◌≡◌};
ghost use Rattle.las_header.specs.ScaleLaw.{ScalesHaveTheirWords};
ghost use Rattle.las_header.specs.ScaleWords.{IsScaleRead, scale_read};

use crate::ScaleFault;
use decimal_coords::Scale;
use ieee_words::scale_nano;

/// The scale that a word stands for: the word is the one nearest to it.
///
/// `NotPositive` exactly where the word is 0 or has its sign bit set, and otherwise `NotDecimal` exactly where no
/// `n / 10^k`, with `k` at most 9 and `n` from 1 to `10^k`, has the nearest word `w`.
pub fn scale_of_word(w: u64) -> Result<Scale, ScaleFault>
    ensures scale { IsScaleRead w result }
    ensures value { result ≡ scale_read w }
{
    if w == 0 || w >= 1 << 63 {
        return Err(ScaleFault::NotPositive);
    }
    match scale_nano(w) {
        Some(nano) => match Scale::new(nano) {
            Some(scale) => Ok(scale),
            None => Err(ScaleFault::NotDecimal),
        },
        None => Err(ScaleFault::NotDecimal),
    }
}

/// The law that the scales which are read are the decimals from 10^-9 to 1, of at most nine places, whose nearest words
/// stand at the places of X, Y and Z, that no other such decimal has one of these words, and that they are read wherever
/// such words stand there.
pub fn scales_have_their_words()
    ensures { ScalesHaveTheirWords }
{}
