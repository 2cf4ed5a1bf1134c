//! A polygon: `POLYGON ((x y, x y, ..))`.

ghost use Rattle.std.specs.Prelude.{◌≡◌, IfOk, IfErr, OnOk, ◌&&◌, not, Some};
ghost use Rattle.limits_text.specs.Wrong.{is_same, is_ring};
ghost use Rattle.limits_text.specs.Causes.{IsCause, IsRefused};
ghost use Rattle.limits_text.specs.Pieces.{IsPolygonText};
ghost use Rattle.limits_text.specs.Texts.{polygon_of};
ghost use Rattle.limits_text.specs.Rings.{is_full, ends_ring, x_with, place_with, corners_with};

use crate::control::{Control, WordKind};
use crate::faults::{TextErr, TextFault};
use crate::shapes::Polygon;
use crate::steps::{NextWord, next_word, past_limit};
use std::alloc::{AllocError, Global};

/// The most corners.
const CORNERS: usize = 1024;

/// What was read of a polygon, in nanounits.
#[derive(Drop)]
struct Ring {
    corners: Vec<(i64, i64)>,
    /// The first decimal of the latest corner.
    x: i64,
    /// Where the latest corner begins.
    corner: usize,
}

/// Whether two corners are the same.
fn is_same(p: (i64, i64), q: (i64, i64)) -> bool
    ensures { result ≡ is_same p q }
{
    p.0 == q.0 && p.1 == q.1
}

/// Whether there are at least four corners, the last one the first one.
fn is_ring(corners: &[(i64, i64)]) -> bool
    ensures { result ≡ is_ring corners.now }
{
    let count = corners.len();
    if count < 4 {
        return false;
    }
    is_same(corners[0], corners[count - 1])
}

/// Whether a further corner comes next and is one too many.
fn is_full(control: Control, count: usize) -> bool
    ensures { result ≡ is_full control count }
{
    matches!(control, Control::CornerX) && CORNERS <= count
}

/// Whether the word ends the ring.
fn ends_ring(control: Control, kind: WordKind) -> bool
    ensures { result ≡ ends_ring control kind }
{
    matches!(control, Control::Corner) && matches!(kind, WordKind::Sign(b')'))
}

/// Whether the word ends a ring that isn't one.
fn is_broken(control: Control, kind: WordKind, corners: &[(i64, i64)]) -> bool
    ensures { result ≡ (ends_ring control kind && not (is_ring corners.now)) }
{
    ends_ring(control, kind) && !is_ring(corners)
}

/// Adds a word, where `control` came before it.
fn add_word(ring: &mut Ring, control: Control, step: &NextWord) -> Result<(), AllocError>
    ensures corners { OnOk result (ring.new.corners.items
        ≡ corners_with control step.now ring.old.x ring.old.corners.items) }
    ensures x { OnOk result (ring.new.x ≡ x_with control step.now ring.old.x) }
    ensures corner { OnOk result (ring.new.corner ≡ place_with control step.now ring.old.corner) }
{
    match control {
        Control::CornerX => {
            ring.x = step.value;
            ring.corner = step.start;
        }
        Control::CornerY => ring.corners.push((ring.x, step.value))?,
        _ => {}
    }
    Ok(())
}

/// The corners whose pieces a text shows.
fn read_corners(alloc: Global, text: &str) -> Result<Vec<(i64, i64)>, TextErr>
    ensures ok { IfOk result (λ ps. IsPolygonText text.now ps.items) }
    ensures fault { IfErr result (λ e. IsCause Control.Polygon text.now e) }
{
    let mut ring = Ring {
        corners: Vec::new(alloc),
        x: 0,
        corner: 0,
    };
    let mut control = Control::Polygon;
    let mut at = 0;
    loop {
        if is_full(control, ring.corners.len()) {
            return Err(TextErr::Fault(past_limit(text, Control::Polygon, control, at)));
        }
        let Some(step) = next_word(text, Control::Polygon, control, at)? else {
            return Ok(ring.corners);
        };
        if is_broken(control, step.kind, ring.corners.as_slice()) {
            return Err(TextErr::Fault(TextFault { at: ring.corner }));
        }
        add_word(&mut ring, control, &step)?;
        control = step.control;
        at = step.end;
    }
}

/// The corners of `POLYGON ((x y, x y, ..))`, in nanounits: 4 to 1,024, the last one the first one. Or the place of the
/// text's fault, or that there was no memory.
pub fn parse_polygon(alloc: Global, text: &str) -> Result<Polygon, TextErr>
    ensures ok { IfOk result (λ ps. polygon_of text.now ≡ Some ps) }
    ensures fault { IfErr result (λ e. IsCause Control.Polygon text.now e) }
    ensures refused { IfErr result (λ e. IsRefused e (polygon_of text.now)) }
{
    match read_corners(alloc, text) {
        Ok(corners) => Ok(Polygon::new(corners)),
        Err(err) => Err(err),
    }
}
