//! Words: where one begins and ends.

ghost use Rattle.std.specs.Prelude.{◌≡◌, ℕ, ◌-◌, ◌<◌, ◌≤◌, ◌||◌, not, length, take, slice_index, slice_range, ◌∷◌, [], true, false, IfSome, IfNone};
ghost use Rattle.decimal_coords.specs.Scanning.{after, run};
ghost use Rattle.decimal_coords.specs.DecimalOfText.{is_dead};
ghost use Rattle.decimal_coords.specs.declared.scan.Scan.TheVariants.{Start, Dead};
ghost use Rattle.limits_text.specs.Words.{kind_from, front_of, words_in, is_gap, IsCut};
ghost use Rattle.text_bytes.specs.Bytes.{is_space};
ghost use Rattle.limits_text.specs.Digits.{scan_of};
ghost use Rattle.limits_text.specs.Behind.{IsWordTo};

use crate::control::WordKind;
use text_bytes::{is_digit, is_letter, is_space, is_word};

/// What was read of a decimal.
#[derive(Clone, Copy)]
pub(crate) enum Digits {
    Start,
    Signed,
    Whole,
    /// A point with no digit before it.
    Point,
    Places,
}

/// The sort of a word that begins so.
pub(crate) fn kind_from(b: u8) -> WordKind
    ensures value { result ≡ kind_from b }
    ensures ascii { result ≡ WordKind.Name → b < 128 }
{
    if is_letter(b) {
        WordKind::Name
    } else if is_digit(b) || b == b'+' || b == b'-' || b == b'.' {
        WordKind::Number
    } else {
        WordKind::Sign(b)
    }
}

/// With one more byte, if a decimal goes on so.
fn with_byte(digits: Digits, b: u8) -> Option<Digits>
    ensures some { IfSome result (λ d. scan_of d ≡ after (scan_of digits) b) }
    ensures none { IfNone result (after (scan_of digits) b ≡ Dead) }
    ensures ascii { IfSome result (λ d. b < 128) }
{
    match digits {
        Digits::Start if b == b'+' || b == b'-' => Some(Digits::Signed),
        Digits::Start | Digits::Signed => {
            if is_digit(b) {
                Some(Digits::Whole)
            } else {
                (b == b'.').then_some(Digits::Point)
            }
        }
        Digits::Whole => {
            if is_digit(b) {
                Some(Digits::Whole)
            } else {
                (b == b'.').then_some(Digits::Places)
            }
        }
        Digits::Point | Digits::Places => is_digit(b).then_some(Digits::Places),
    }
}

/// The first place from `at` on that has no space.
pub(crate) fn skip(text: &[u8], at: usize) -> usize
    requires within { at ≤ length text.now }
    requires cut { IsCut text.now at }
    ensures low { at ≤ result }
    ensures within { result ≤ length text.now }
    ensures cut { IsCut text.now result }
    ensures words { words_in (front_of (take result text.now)) ≡ words_in (front_of (take at text.now)) }
    ensures stops { result < length text.now → is_space (slice_index text.now result) ≡ false }
    ensures gap { at < result → is_gap (front_of (take result text.now)) ≡ true }
{
    let mut place = at;
    while place < text.len() && is_space(text[place]) {
        place += 1;
    }
    place
}

/// Where the name ends that begins at `start`.
fn name_end(text: &[u8], start: usize) -> usize
    requires within { start < length text.now }
    requires cut { IsCut text.now start }
    requires stops { is_space (slice_index text.now start) ≡ false }
    requires ascii { slice_index text.now start < 128 }
    requires name { kind_from (slice_index text.now start) ≡ WordKind.Name }
    ensures low { start < result }
    ensures within { result ≤ length text.now }
    ensures cut { IsCut text.now result }
    ensures ascii { slice_index text.now (result - 1) < 128 }
    ensures word { (k : ℕ) → start < k → k ≤ result → IsWordTo text.now start k }
{
    let mut end = start + 1;
    while end < text.len() && is_word(text[end]) {
        end += 1;
    }
    end
}

/// Where the number ends that begins at `start`.
fn number_end(text: &[u8], start: usize) -> usize
    requires within { start < length text.now }
    requires cut { IsCut text.now start }
    requires stops { is_space (slice_index text.now start) ≡ false }
    requires number { kind_from (slice_index text.now start) ≡ WordKind.Number }
    ensures low { start < result }
    ensures within { result ≤ length text.now }
    ensures cut { IsCut text.now result }
    ensures lives { not (is_dead (run Start (slice_range text.now start result))) ≡ true }
    ensures ascii { slice_index text.now (result - 1) < 128 }
    ensures word { (k : ℕ) → start < k → k ≤ result → IsWordTo text.now start k }
{
    let mut digits = Digits::Start;
    let mut end = start;
    while end < text.len() {
        let Some(more) = with_byte(digits, text[end]) else {
            return end;
        };
        digits = more;
        end += 1;
    }
    end
}

/// Where the word ends that begins at `start`.
pub(crate) fn word_end(text: &[u8], start: usize, kind: WordKind) -> usize
    requires within { start < length text.now }
    requires cut { IsCut text.now start }
    requires stops { is_space (slice_index text.now start) ≡ false }
    requires kind { kind ≡ kind_from (slice_index text.now start) }
    requires ascii { kind ≡ WordKind.Name → slice_index text.now start < 128 }
    ensures low { start < result }
    ensures within { result ≤ length text.now }
    ensures cut { IsCut text.now result }
    ensures lives { kind ≡ WordKind.Number
        → not (is_dead (run Start (slice_range text.now start result))) ≡ true }
    ensures ascii { kind ≡ WordKind.Number → slice_index text.now (result - 1) < 128 }
    ensures letters { kind ≡ WordKind.Name → slice_index text.now (result - 1) < 128 }
    ensures sign { (b : ℕ) → kind ≡ WordKind.Sign b → slice_range text.now start result ≡ b ∷ [] }
    ensures word { (k : ℕ) → start < k → k ≤ result → IsWordTo text.now start k }
{
    match kind {
        WordKind::Name => name_end(text, start),
        WordKind::Number => number_end(text, start),
        WordKind::Sign(_) => start + 1,
    }
}
