//! The next word of a text, and what may come behind it.

ghost use Rattle.std.specs.Prelude.{◌≡◌, ◌⊎◌, ◌↔◌, IsTrue, ℕ, ◌+◌, ◌-◌, ◌<◌, ◌≤◌, ◌||◌, not, length, take, slice_index, slice_range, true, false, Ok, Err, Some, None, IfOk, IfErr, OnOk, is_some};
ghost use Rattle.decimal_coords.specs.Scanning.{run};
ghost use Rattle.decimal_coords.specs.DecimalOfText.{decimal_of_text, is_dead};
ghost use Rattle.decimal_coords.specs.declared.scan.Scan.TheVariants.{Start};
ghost use Rattle.limits_text.specs.Words.{kind_from, front_of, words_in, is_gap, IsCut};
ghost use Rattle.limits_text.specs.Follows.{small, begins, keyword, is_name, behind, wants_space, is_end};
ghost use Rattle.limits_text.specs.Wrong.{is_unheld, first_wrong, is_past};
ghost use Rattle.limits_text.specs.Fronts.{IsText, IsFault, IsReached, IsBefore};
ghost use Rattle.limits_text.specs.Behind.{IsWordTo};
ghost use Rattle.limits_text.specs.Taken.{IsTaken};

use crate::control::{Control, WordKind, behind, is_end, keyword, wants_space};
use crate::faults::TextFault;
use crate::scan::{kind_from, skip, word_end};
use decimal_coords::{DecFault, parse_decimal};

/// A word that may stand where it does.
#[derive(Clone, Copy)]
pub(crate) struct NextWord {
    pub start: usize,
    pub end: usize,
    pub kind: WordKind,
    /// The value of a number.
    pub value: i64,
    /// What may come behind it.
    pub control: Control,
}

/// The small letter of a letter.
fn small(b: u8) -> u8
    ensures { result ≡ small b }
{
    if b'A' <= b && b <= b'Z' { b + 32 } else { b }
}

/// How many first bytes of a word are those of a keyword in small letters.
fn same_bytes(word: &[u8], keyword: &[u8]) -> usize
    ensures low { result ≤ length word.now }
    ensures within { result ≤ length keyword.now }
    ensures same { begins (take result word.now) keyword.now ≡ true }
    ensures stops { result < length word.now → begins (take (result + 1) word.now) keyword.now ≡ false }
{
    let mut same = 0;
    while same < word.len() && same < keyword.len() {
        if small(word[same]) != keyword[same] {
            return same;
        }
        same += 1;
    }
    same
}

/// Tells where a name stops being the keyword that must stand here.
fn check_name(
    text: &[u8],
    start: Control,
    control: Control,
    place: usize,
    end: usize,
) -> Result<(), TextFault>
    requires before { IsBefore start control text.now place }
    requires low { place < end }
    requires within { end ≤ length text.now }
    requires cut { IsCut text.now end }
    requires word { (k : ℕ) → place < k → k ≤ end → IsWordTo text.now place k }
    requires name { kind_from (slice_index text.now place) ≡ WordKind.Name }
    requires may { is_some (behind control WordKind.Name) ≡ true }
    ensures ok { OnOk result (is_name (keyword control) (slice_range text.now place end) ≡ true) }
    ensures fault { IfErr result (λ f. IsFault start text.now f.at) }
{
    let Some(keyword) = keyword(control) else {
        return Ok(());
    };
    let word = &text[place..end];
    let same = same_bytes(word, keyword);
    if same < word.len() {
        return Err(TextFault { at: place + same });
    }
    if same < keyword.len() {
        return Err(TextFault { at: end });
    }
    Ok(())
}

/// Whether a decimal is read whole but has too many places or is too large.
fn is_unheld(fault: DecFault) -> bool
    ensures { result ≡ is_unheld (Err fault) }
{
    matches!(fault, DecFault::Places | DecFault::TooLarge)
}

/// The value of a number.
fn read_number(
    text: &str,
    start: Control,
    control: Control,
    place: usize,
    end: usize,
) -> Result<i64, TextFault>
    requires before { IsBefore start control text.now place }
    requires low { place < end }
    requires within { end ≤ length text.now }
    requires cut { IsCut text.now end }
    requires word { IsWordTo text.now place end }
    requires number { kind_from (slice_index text.now place) ≡ WordKind.Number }
    requires may { is_some (behind control WordKind.Number) ≡ true }
    requires spaced { (is_gap (front_of (take place text.now)) || not (wants_space control)) ≡ true }
    requires lives { not (is_dead (run Start (slice_range text.now place end))) ≡ true }
    requires ascii { slice_index text.now (end - 1) < 128 }
    ensures ok { IfOk result (λ n. decimal_of_text (slice_range text.now place end) ≡ Ok n) }
    ensures fault { IfErr result (λ f. IsFault start text.now f.at) }
{
    match parse_decimal(&text[place..end]) {
        Ok(value) => Ok(value),
        Err(fault) if is_unheld(fault) => Err(TextFault { at: place }),
        Err(_) => Err(TextFault { at: end }),
    }
}

/// Whether a decimal may stand there, as far as spaces go.
fn is_apart(control: Control, spaced: bool) -> bool
    ensures { result ≡ (spaced || not (wants_space control)) }
{
    spaced || !wants_space(control)
}

/// The value of a number, or 0 for another word, where the word may stand as it is.
fn check_word(
    text: &str,
    start: Control,
    control: Control,
    place: usize,
    end: usize,
    kind: WordKind,
    spaced: bool,
) -> Result<i64, TextFault>
    requires before { IsBefore start control text.now place }
    requires low { place < end }
    requires within { end ≤ length text.now }
    requires cut { IsCut text.now end }
    requires word { (k : ℕ) → place < k → k ≤ end → IsWordTo text.now place k }
    requires kind { kind ≡ kind_from (slice_index text.now place) }
    requires may { is_some (behind control kind) ≡ true }
    requires spaced { spaced ≡ is_gap (front_of (take place text.now)) }
    requires lives { kind ≡ WordKind.Number
        → not (is_dead (run Start (slice_range text.now place end))) ≡ true }
    requires ascii { kind ≡ WordKind.Number → slice_index text.now (end - 1) < 128 }
    ensures name { kind ≡ WordKind.Name
        → OnOk result (is_name (keyword control) (slice_range text.now place end) ≡ true) }
    ensures apart { kind ≡ WordKind.Number
        → OnOk result ((is_gap (front_of (take place text.now)) || not (wants_space control)) ≡ true) }
    ensures value { kind ≡ WordKind.Number
        → IfOk result (λ n. decimal_of_text (slice_range text.now place end) ≡ Ok n) }
    ensures fault { IfErr result (λ f. IsFault start text.now f.at) }
{
    match kind {
        WordKind::Name => match check_name(text.as_bytes(), start, control, place, end) {
            Ok(()) => Ok(0),
            Err(fault) => Err(fault),
        },
        WordKind::Number => {
            if !is_apart(control, spaced) {
                return Err(TextFault { at: place });
            }
            read_number(text, start, control, place, end)
        }
        WordKind::Sign(_) => Ok(0),
    }
}

/// The word that begins at `place`, where no space stands.
fn word_at(
    text: &str,
    start: Control,
    control: Control,
    place: usize,
    spaced: bool,
) -> Result<NextWord, TextFault>
    requires before { IsBefore start control text.now place }
    requires within { place < length text.now }
    requires spaced { spaced ≡ is_gap (front_of (take place text.now)) }
    ensures ok { IfOk result (λ s. IsTaken start control text.now place s) }
    ensures fault { IfErr result (λ f. IsFault start text.now f.at) }
{
    let bytes = text.as_bytes();
    let kind = kind_from(bytes[place]);
    let Some(next) = behind(control, kind) else {
        return Err(TextFault { at: place });
    };
    let end = word_end(bytes, place, kind);
    match check_word(text, start, control, place, end, kind, spaced) {
        Ok(value) => Ok(NextWord {
            start: place,
            end,
            kind,
            value,
            control: next,
        }),
        Err(fault) => Err(fault),
    }
}

/// Whether no word stands right before `place`, where the word before ends at `at`.
fn is_behind_space(at: usize, place: usize) -> bool
    ensures { IsTrue result ↔ ((at < place) ⊎ (at ≡ 0)) }
{
    at < place || at == 0
}

/// The next word from `at` on, or nothing where the text ends well.
pub(crate) fn next_word(
    text: &str,
    start: Control,
    control: Control,
    at: usize,
) -> Result<Option<NextWord>, TextFault>
    requires reached { IsReached start control text.now at }
    requires right { first_wrong start (words_in (front_of (take at text.now))) ≡ None }
    requires room { is_past start (words_in (front_of (take at text.now))) ≡ false }
    ensures whole { result ≡ Ok None → IsText start text.now × (is_end control ≡ true)
        × (words_in (front_of text.now) ≡ words_in (front_of (take at text.now))) }
    ensures word { (s : NextWord) → result ≡ Ok (Some s) → IsTaken start control text.now at s }
    ensures fault { IfErr result (λ f. IsFault start text.now f.at) }
{
    let place = skip(text.as_bytes(), at);
    if place == text.len() {
        return if is_end(control) {
            Ok(None)
        } else {
            Err(TextFault { at: place })
        };
    }
    match word_at(text, start, control, place, is_behind_space(at, place)) {
        Ok(step) => Ok(Some(step)),
        Err(fault) => Err(fault),
    }
}

/// The fault where a part past the limit, or the end, comes next.
pub(crate) fn past_limit(text: &str, start: Control, control: Control, at: usize) -> TextFault
    requires reached { IsReached start control text.now at }
    requires right { first_wrong start (words_in (front_of (take at text.now))) ≡ None }
    requires past { is_past start (words_in (front_of (take at text.now))) ≡ true }
    requires further { is_end control ≡ false }
    ensures { IsFault start text.now result.at }
{
    TextFault {
        at: skip(text.as_bytes(), at),
    }
}
