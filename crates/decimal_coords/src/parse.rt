ghost use Rattle.std.specs.Prelude.{◌≡◌, ◌+◌, ◌-◌, ◌^◌, ◌<◌, ◌≤◌, ◌↔◌, min, IfNone, IfSome, IsTrue};
ghost use Rattle.decimal_coords.specs.DecimalOfText.{decimal_of_text, DecimalOfTextIsParsed};
ghost use Rattle.decimal_coords.specs.Grammar.{IsADecimal, IsBadPlace};
ghost use Rattle.decimal_coords.specs.Parsed.{IsParsed, ParsedIsOne};
ghost use Rattle.decimal_coords.specs.Scanning.{accepts, after, digits_in, places_in};

use crate::scan::Scan;
use exact_numbers::power_of_ten;
use thiserror::Error;

/// Why a text isn't read as a decimal.
#[derive(Clone, Copy, Debug, PartialEq, Eq, Error)]
pub enum DecFault {
    #[error("the text is empty")]
    Empty,
    /// The least place at which the text is the front of no decimal, or its length where it ends too early.
    #[error("no decimal goes on at byte {0}")]
    BadByte(usize),
    #[error("more than 9 digits after the point")]
    Places,
    #[error("more than 4 * 10^9 in size")]
    TooLarge,
}

/// The most digits after the point.
const PLACES: usize = 9;

/// The largest size that is read, in nanounits.
const LIMIT: u64 = 4_000_000_000_000_000_000;

fn after_byte(state: Scan, b: u8) -> Scan
    ensures { result ≡ after state b }
{
    let digit = b'0' <= b && b <= b'9';
    match state {
        Scan::Start => {
            if b == b'+' || b == b'-' {
                Scan::Signed
            } else if digit {
                Scan::Whole
            } else if b == b'.' {
                Scan::Point
            } else {
                Scan::Dead
            }
        }
        Scan::Signed => {
            if digit {
                Scan::Whole
            } else if b == b'.' {
                Scan::Point
            } else {
                Scan::Dead
            }
        }
        Scan::Whole => {
            if digit {
                Scan::Whole
            } else if b == b'.' {
                Scan::Places
            } else {
                Scan::Dead
            }
        }
        Scan::Point | Scan::Places => { if digit { Scan::Places } else { Scan::Dead } }
        Scan::Dead => Scan::Dead,
    }
}

fn is_dead(state: Scan) -> bool
    ensures { IsTrue result ↔ (state ≡ Scan.Dead) }
{
    match state {
        Scan::Dead => true,
        _ => false,
    }
}

fn is_whole(state: Scan) -> bool
    ensures { result ≡ accepts state }
{
    match state {
        Scan::Whole | Scan::Places => true,
        _ => false,
    }
}

/// Where the text stops being the front of a decimal.
fn bad_byte(text: &[u8]) -> Option<usize>
    ensures none { IfNone result (IsADecimal text.now) }
    ensures some { IfSome result (IsBadPlace text.now) }
{
    let mut state = Scan::Start;
    for (i, b) in text.iter().enumerate() {
        let next = after_byte(state, *b);
        if is_dead(next) {
            return Some(i);
        }
        state = next;
    }
    if is_whole(state) {
        None
    } else {
        Some(text.len())
    }
}

/// The number that all digits of the text show, at most the greatest u64.
fn number_in(text: &[u8]) -> u64
    ensures { result ≡ min (digits_in text.now) (2 ^ 64 - 1) }
{
    let mut number: u64 = 0;
    for b in text {
        if b'0' <= *b && *b <= b'9' {
            number = number.saturating_mul(10).saturating_add((*b - b'0') as u64);
        }
    }
    number
}

/// How many bytes stand behind the first point.
fn places_in(text: &[u8]) -> usize
    ensures { result ≡ places_in text.now }
{
    for (i, b) in text.iter().enumerate() {
        if *b == b'.' {
            return text.len() - i - 1;
        }
    }
    0
}

/// The decimal that the whole text shows, in nanounits: an optional `+` or `-`, then digits, digits `.`
/// digits, digits `.`, or `.` digits. It has at most 9 digits after the point, and is at most 4 * 10^9
/// in size. Of several faults the first in the order of [`DecFault`] is answered.
pub fn parse_decimal(text: &str) -> Result<i64, DecFault>
    ensures parsed { IsParsed text.now result }
    ensures value { result ≡ decimal_of_text text.now }
{
    let bytes = text.as_bytes();
    if bytes.is_empty() {
        return Err(DecFault::Empty);
    }
    if let Some(at) = bad_byte(bytes) {
        return Err(DecFault::BadByte(at));
    }
    let places = places_in(bytes);
    if places > PLACES {
        return Err(DecFault::Places);
    }
    let size = number_in(bytes).saturating_mul(power_of_ten((PLACES - places) as u32));
    if size > LIMIT {
        return Err(DecFault::TooLarge);
    }
    Ok(if bytes[0] == b'-' {
        -(size as i64)
    } else {
        size as i64
    })
}

/// The law that what `decimal_of_text` computes is the answer for the text.
pub fn decimal_of_text_is_parsed()
    ensures { DecimalOfTextIsParsed }
{}

/// The law that a text has one answer.
pub fn parsed_is_one()
    ensures { ParsedIsOne }
{}
