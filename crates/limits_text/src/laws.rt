//! Laws that hold of all texts.

ghost use Rattle.std.specs.Prelude.{OnOk};
ghost use Rattle.limits_text.specs.declared.control.Control.{Control as Start};
ghost use Rattle.limits_text.specs.Pieces.{IsPointText, IsBoundsText, IsPolygonText, IsRangesText};
ghost use Rattle.limits_text.specs.Texts.{point_of, bounds_of, polygon_of, ranges_of};
ghost use Rattle.limits_text.specs.Laws.{IsReadAs, HasOneFault, SaysNothing, IsSaidOrFaulty};

use crate::bounds::parse_bounds;
use crate::control::Control;
use crate::faults::TextErr;
use crate::point::parse_point;
use crate::polygon::parse_polygon;
use crate::ranges::parse_ranges;
use std::alloc::{AllocError, Global};

/// A text says a value exactly where it shows the value's pieces.
pub fn texts_are_read()
    ensures points { IsReadAs IsPointText point_of }
    ensures boxes { IsReadAs IsBoundsText bounds_of }
    ensures polygons { IsReadAs IsPolygonText polygon_of }
    ensures ranges { IsReadAs IsRangesText ranges_of }
{}

/// A text has one fault at most in a grammar, so one place is told of it.
pub fn texts_have_one_fault()
    ensures { (start : Start) → HasOneFault start }
{}

/// A text never both says a value and has a fault.
pub fn faulty_texts_say_nothing()
    ensures points { SaysNothing Control.Point point_of }
    ensures boxes { SaysNothing Control.Box bounds_of }
    ensures polygons { SaysNothing Control.Polygon polygon_of }
    ensures ranges { SaysNothing Control.Name ranges_of }
{}

/// A text says a point or has a fault.
pub fn point_or_fault(text: &str)
    ensures { IsSaidOrFaulty Control.Point text.now (point_of text.now) }
{
    match parse_point(text) {
        Ok(_) => {}
        Err(_) => {}
    }
}

/// A text says a box or has a fault.
pub fn bounds_or_fault(text: &str)
    ensures { IsSaidOrFaulty Control.Box text.now (bounds_of text.now) }
{
    match parse_bounds(text) {
        Ok(_) => {}
        Err(_) => {}
    }
}

/// A text says a ring or has a fault. Refused only where there is no memory for the ring.
pub fn polygon_or_fault(alloc: Global, text: &str) -> Result<(), AllocError>
    ensures { OnOk result (IsSaidOrFaulty Control.Polygon text.now (polygon_of text.now)) }
{
    match parse_polygon(alloc, text) {
        Ok(_) | Err(TextErr::Fault(_)) => Ok(()),
        Err(TextErr::Memory) => Err(AllocError),
    }
}

/// A text says ranges or has a fault. Refused only where there is no memory for the ranges.
pub fn ranges_or_fault(alloc: Global, text: &str) -> Result<(), AllocError>
    ensures { OnOk result (IsSaidOrFaulty Control.Name text.now (ranges_of text.now)) }
{
    match parse_ranges(alloc, text) {
        Ok(_) | Err(TextErr::Fault(_)) => Ok(()),
        Err(TextErr::Memory) => Err(AllocError),
    }
}
