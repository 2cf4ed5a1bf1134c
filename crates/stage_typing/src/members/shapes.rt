//! The shape of a crop by its members.

ghost use Rattle.std.specs.Prelude.{◌≡◌, IfOk};
ghost use Rattle.serde_json.specs.View.{members_view};
ghost use Rattle.stage_typing.specs.Typed.{box_in, ring_in, disc_in, shape_in};

use super::{decimal_in, given};
use geo_tests::{Area, Disc, Shape};
use limits_text::Polygon;
use serde_json::{Map, Value};
use std::alloc::{AllocError, Global};

/// The box of a crop.
fn box_in(options: &Map<String, Value>) -> Option<Shape>
    ensures { result ≡ box_in (members_view options.now.entries) }
{
    match given(options, "bounds")?.bounds() {
        Some(bounds) => Some(Shape::Box(bounds)),
        None => None,
    }
}

/// The ring of a crop.
fn ring_in(alloc: Global, options: &Map<String, Value>) -> Result<Option<Shape>, AllocError>
    ensures { IfOk result (λ o. o ≡ ring_in (members_view options.now.entries)) }
{
    let Some(given) = given(options, "polygon") else {
        return Ok(None);
    };
    match given.polygon(alloc)? {
        Some(polygon) => Ok(Some(Shape::Polygon(Area::new(polygon)))),
        None => Ok(None),
    }
}

/// The disc of a crop.
fn disc_in(options: &Map<String, Value>) -> Option<Shape>
    ensures { result ≡ disc_in (members_view options.now.entries) }
{
    let (x, y) = given(options, "point")?.point()?;
    let radius = decimal_in(options, "distance")?;
    Some(Shape::Disc(Disc { x, y, radius }))
}

/// The shape of a crop.
pub(crate) fn shape_in(alloc: Global, options: &Map<String, Value>) -> Result<Shape, AllocError>
    ensures { IfOk result (λ shape. shape ≡ shape_in (members_view options.now.entries)) }
{
    if let Some(shape) = box_in(options) {
        return Ok(shape);
    }
    if let Some(shape) = ring_in(alloc, options)? {
        return Ok(shape);
    }
    match disc_in(options) {
        Some(shape) => Ok(shape),
        None => Ok(Shape::Polygon(Area::new(Polygon::new(Vec::new(alloc))))),
    }
}
