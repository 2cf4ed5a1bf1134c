//! A point: `POINT (x y)`.

ghost use Rattle.std.specs.Prelude.{◌≡◌, IfOk, IfErr, Some, None};
ghost use Rattle.limits_text.specs.Fronts.{IsFault};
ghost use Rattle.limits_text.specs.Pieces.{IsPointText};
ghost use Rattle.limits_text.specs.Points.{point_with};
ghost use Rattle.limits_text.specs.Texts.{point_of};
ghost use Rattle.limits_text.specs.Held.{IsHeld};

use crate::control::Control;
use crate::faults::TextFault;
use crate::steps::{NextWord, next_word};

/// With the value of a word, where `control` came before it.
fn point_with(control: Control, step: &NextWord, point: (i64, i64)) -> (i64, i64)
    ensures { result ≡ point_with control step.now.value point }
{
    match control {
        Control::PointX => (step.value, point.1),
        Control::PointY => (point.0, step.value),
        _ => point,
    }
}

/// The point whose pieces a text shows.
fn read_point(text: &str) -> Result<(i64, i64), TextFault>
    ensures ok { IfOk result (λ p. IsPointText text.now p) }
    ensures fault { IfErr result (λ f. IsFault Control.Point text.now f.at) }
{
    let mut point = (0, 0);
    let mut control = Control::Point;
    let mut at = 0;
    loop {
        let Some(step) = next_word(text, Control::Point, control, at)? else {
            return Ok(point);
        };
        point = point_with(control, &step, point);
        control = step.control;
        at = step.end;
    }
}

/// The two decimals of `POINT (x y)`, in nanounits and each at most 4 * 10^18 in size; or the place of the text's fault.
pub fn parse_point(text: &str) -> Result<(i64, i64), TextFault>
    ensures ok { IfOk result (λ p. point_of text.now ≡ Some p) }
    ensures held { IfOk result (λ p. IsHeld p.0 × IsHeld p.1) }
    ensures fault { IfErr result (λ f. IsFault Control.Point text.now f.at) }
    ensures refused { IfErr result (λ f. point_of text.now ≡ None) }
{
    read_point(text)
}
