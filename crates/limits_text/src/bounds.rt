//! A box: `([a, b], [c, d])` or `([a, b], [c, d], [e, f])`.

ghost use Rattle.std.specs.Prelude.{◌≡◌, IfOk, IfErr, Some, None};
ghost use Rattle.limits_text.specs.Fronts.{IsFault};
ghost use Rattle.limits_text.specs.Pieces.{IsBoundsText};
ghost use Rattle.limits_text.specs.Texts.{bounds_of};
ghost use Rattle.limits_text.specs.Held.{IsBoxHeld};
ghost use Rattle.limits_text.specs.Boxes.{with_side, side, sides_with, is_reversed};

use crate::control::{Control, PairAxis};
use crate::faults::TextFault;
use crate::shapes::Box3;
use crate::steps::{NextWord, next_word};

/// What was read of a box, in nanounits.
#[derive(Clone, Copy)]
pub(crate) struct Sides {
    pub x: (i64, i64),
    pub y: (i64, i64),
    pub z: Option<(i64, i64)>,
    /// Where the latest pair begins.
    pub pair: usize,
    /// Its first decimal.
    pub low: i64,
}

/// With the pair of this axis.
fn with_side(axis: PairAxis, low: i64, high: i64, sides: &Sides) -> Sides
    ensures { result ≡ with_side axis (low, high) sides.now }
{
    let mut sides = *sides;
    match axis {
        PairAxis::X => sides.x = (low, high),
        PairAxis::Y => sides.y = (low, high),
        PairAxis::Z => sides.z = Some((low, high)),
    }
    sides
}

/// The pair of this axis.
fn side(axis: PairAxis, sides: &Sides) -> (i64, i64)
    ensures { result ≡ side axis sides.now }
{
    match axis {
        PairAxis::X => sides.x,
        PairAxis::Y => sides.y,
        PairAxis::Z => sides.z.unwrap_or((0, 0)),
    }
}

/// With a word, where `control` came before it.
fn sides_with(control: Control, step: &NextWord, sides: &Sides) -> Sides
    ensures { result ≡ sides_with control step.now sides.now }
{
    let mut new = *sides;
    match control {
        Control::Pair(_) => new.pair = step.start,
        Control::PairLow(_) => new.low = step.value,
        Control::PairHigh(axis) => return with_side(axis, sides.low, step.value, sides),
        _ => {}
    }
    new
}

/// Whether the pair that was read is in the wrong order.
fn is_reversed(control: Control, sides: &Sides) -> bool
    ensures { result ≡ is_reversed control sides.now }
{
    match control {
        Control::PairClose(axis) => {
            let pair = side(axis, sides);
            pair.1 < pair.0
        }
        _ => false,
    }
}

/// The box whose pieces a text shows.
fn read_bounds(text: &str) -> Result<Box3, TextFault>
    ensures ok { IfOk result (λ b. IsBoundsText text.now b) }
    ensures fault { IfErr result (λ f. IsFault Control.Box text.now f.at) }
{
    let mut sides = Sides {
        x: (0, 0),
        y: (0, 0),
        z: None,
        pair: 0,
        low: 0,
    };
    let mut control = Control::Box;
    let mut at = 0;
    loop {
        let Some(step) = next_word(text, Control::Box, control, at)? else {
            return Ok(Box3 {
                x: sides.x,
                y: sides.y,
                z: sides.z,
            });
        };
        if is_reversed(control, &sides) {
            return Err(TextFault { at: sides.pair });
        }
        sides = sides_with(control, &step, &sides);
        control = step.control;
        at = step.end;
    }
}

/// The box of `([a, b], [c, d])` or `([a, b], [c, d], [e, f])`, in nanounits, where the first of each pair is at most the
/// second; or the place of the text's fault.
pub fn parse_bounds(text: &str) -> Result<Box3, TextFault>
    ensures ok { IfOk result (λ b. bounds_of text.now ≡ Some b) }
    ensures held { IfOk result (λ b. IsBoxHeld b) }
    ensures fault { IfErr result (λ f. IsFault Control.Box text.now f.at) }
    ensures refused { IfErr result (λ f. bounds_of text.now ≡ None) }
{
    read_bounds(text)
}
