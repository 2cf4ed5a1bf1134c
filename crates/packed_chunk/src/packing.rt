//! How points are packed.

ghost use Rattle.std.specs.Prelude.{◌≡◌, ◌+◌, ◌≤◌, true, false};
ghost use Rattle.packed_chunk.specs.Rows.{row_size, size_of, AllAre, IsUsual, first_dims, middle_dims, late_dims, extra_dims};

use crate::cells::size_where;
use crate::known::{known_extras, known_numbers};
use crate::outside::{extra_outside, first_outside, late_outside, middle_outside};
use crate::parts::{put_extra, put_first, put_late, put_middle};
use crate::taking::{take_extra, take_first, take_late, take_middle};
use cloud_points::{Dim, Layout, Point};

/// How the points of a layout are packed: a row has the dimensions of the layout in their order.
#[derive(Clone, Copy, Debug)]
pub struct Packing {
    layout: Layout,
    width: usize,
    // Whether the layout has the dimensions that all formats have, and whether it has extra ones.
    usual: bool,
    extra: bool,
    ghost usual_held: { usual ≡ true → IsUsual layout },
    ghost no_extra: { extra ≡ false → AllAre false layout extra_dims },
    ghost width_is: { width ≡ row_size layout },
    ghost small: { width ≤ 128 },
}

impl Packing {
    ghost use Rattle.std.specs.Prelude.{true, ◌≡◌, ◌+◌, ◌≤◌, ◌++◌, ℕ, List, take, drop, length};
    ghost use Rattle.cloud_points.specs.Clearing.{IsWithin};
    ghost use Rattle.cloud_points.specs.Layouts.{holds};
    ghost use Rattle.cloud_points.specs.declared.point.Point.{Point};
    ghost use Rattle.packed_chunk.specs.Rows.{row, row_size};
    ghost use Rattle.packed_chunk.specs.Fitting.{FitsTypes};
    ghost use Rattle.packed_chunk.specs.Unpacked.{unpacked_at};

    /// That of a layout.
    pub fn of(layout: &Layout) -> Packing
        ensures { result.layout ≡ layout.now }
    {
        Packing {
            layout: *layout,
            usual: is_usual(layout),
            extra: has_extra(layout),
            width: first_size(layout)
                + middle_size(layout)
                + late_size(layout)
                + extra_size(layout),
        }
    }

    /// The layout.
    pub fn layout(&self) -> Layout
        ensures { result ≡ self.now.layout }
    {
        self.layout
    }

    /// How many bytes a row has.
    pub fn width(&self) -> usize
        ensures value { result ≡ row_size self.now.layout }
        ensures small { result ≤ 128 }
    {
        self.width
    }

    /// Writes the row of a point, which has 0 in every dimension outside the layout, at the front of `out`, and leaves the
    /// bytes behind it. The point comes back from it.
    #[inline(always)]
    pub fn pack(&self, p: &Point, out: &mut [u8])
        requires room { row_size self.now.layout ≤ length out.old }
        requires within { IsWithin (holds self.now.layout) p.now }
        ensures written { out.new ≡ row self.now.layout p.now ++ drop (row_size self.now.layout) out.old }
        ensures returns { unpacked_at self.now.layout 0 out.new ≡ p.now }
    {
        known_numbers(p);
        self.pack_at(p, out, 0);
    }

    /// The point of the row that stands at the front: where that is the row of a point, just this point.
    #[inline(always)]
    pub fn unpack(&self, bytes: &[u8]) -> Point
        requires { row_size self.now.layout ≤ length bytes.now }
        ensures value { result ≡ unpacked_at self.now.layout 0 bytes.now }
        ensures returns { (p : Point) (rest : List ℕ) → FitsTypes p → IsWithin (holds self.now.layout) p
            → bytes.now ≡ row self.now.layout p ++ rest → result ≡ p }
        ensures within { IsWithin (holds self.now.layout) result }
    {
        self.unpack_at(bytes, 0)
    }

    /// Whether a point has 0 in every dimension outside the layout.
    #[inline(always)]
    pub(crate) fn is_within(&self, p: &Point) -> bool
        ensures { result ≡ true → IsWithin (holds self.now.layout) p.now }
    {
        known_numbers(p);
        known_extras(p);
        let found = first_outside(&self.layout, p)
            | middle_outside(&self.layout, p)
            | late_outside(&self.layout, p)
            | extra_outside(&self.layout, p);
        if found != 0 {
            return false;
        }
        true
    }

    /// Writes the row of a point at a place, and leaves all other bytes.
    #[inline(always)]
    pub(crate) fn pack_at(&self, p: &Point, out: &mut [u8], at: usize)
        requires { at + row_size self.now.layout ≤ length out.old }
        ensures { out.new ≡ take at out.old
            ++ (row self.now.layout p.now ++ drop (at + row_size self.now.layout) out.old) }
    {
        let mut at = at;
        put_first(self.usual, &self.layout, p, out, &mut at);
        put_middle(self.usual, &self.layout, p, out, &mut at);
        put_late(self.usual, &self.layout, p, out, &mut at);
        put_extra(self.extra, &self.layout, p, out, &mut at);
    }

    /// The point of the row that stands at a place.
    #[inline(always)]
    pub(crate) fn unpack_at(&self, bytes: &[u8], at: usize) -> Point
        requires { at + row_size self.now.layout ≤ length bytes.now }
        ensures { result ≡ unpacked_at self.now.layout at bytes.now }
    {
        let mut point = Point::zero();
        let mut at = at;
        take_first(self.usual, &self.layout, bytes, &mut at, &mut point);
        take_middle(self.usual, &self.layout, bytes, &mut at, &mut point);
        take_late(self.usual, &self.layout, bytes, &mut at, &mut point);
        take_extra(self.extra, &self.layout, bytes, &mut at, &mut point);
        point
    }
}

// Whether a layout has the dimensions that all formats have, and the flags and the colours all or not at all.
fn is_usual(layout: &Layout) -> bool
    ensures { result ≡ true → IsUsual layout.now }
{
    if !layout.has(Dim::X) {
        return false;
    }
    if !layout.has(Dim::Y) {
        return false;
    }
    if !layout.has(Dim::Z) {
        return false;
    }
    if !layout.has(Dim::Intensity) {
        return false;
    }
    if !layout.has(Dim::ReturnNumber) {
        return false;
    }
    if !layout.has(Dim::NumberOfReturns) {
        return false;
    }
    if !layout.has(Dim::ScanDirectionFlag) {
        return false;
    }
    if !layout.has(Dim::EdgeOfFlightLine) {
        return false;
    }
    if !layout.has(Dim::Classification) {
        return false;
    }
    if !layout.has(Dim::Synthetic) {
        return false;
    }
    if !layout.has(Dim::KeyPoint) {
        return false;
    }
    if !layout.has(Dim::Withheld) {
        return false;
    }
    if !layout.has(Dim::ScanAngleRank) {
        return false;
    }
    if !layout.has(Dim::UserData) {
        return false;
    }
    if !layout.has(Dim::PointSourceId) {
        return false;
    }
    if layout.has(Dim::ScanChannel) != layout.has(Dim::Overlap) {
        return false;
    }
    if layout.has(Dim::Green) != layout.has(Dim::Red) {
        return false;
    }
    layout.has(Dim::Blue) == layout.has(Dim::Red)
}

// Whether a layout has an extra dimension.
fn has_extra(layout: &Layout) -> bool
    ensures { result ≡ false → AllAre false layout.now extra_dims }
{
    if layout.has(Dim::Extra(0)) {
        return true;
    }
    if layout.has(Dim::Extra(1)) {
        return true;
    }
    if layout.has(Dim::Extra(2)) {
        return true;
    }
    if layout.has(Dim::Extra(3)) {
        return true;
    }
    if layout.has(Dim::Extra(4)) {
        return true;
    }
    if layout.has(Dim::Extra(5)) {
        return true;
    }
    if layout.has(Dim::Extra(6)) {
        return true;
    }
    layout.has(Dim::Extra(7))
}

// How many bytes the first dimensions take.
#[tactic(auto, unfolding(crate::specs::Rows::size_of))]
fn first_size(layout: &Layout) -> usize
    ensures value { result ≡ size_of layout.now first_dims }
    ensures most { result ≤ 34 }
{
    size_where(layout.has(Dim::X), 8)
        + size_where(layout.has(Dim::Y), 8)
        + size_where(layout.has(Dim::Z), 8)
        + size_where(layout.has(Dim::Intensity), 2)
        + size_where(layout.has(Dim::ReturnNumber), 1)
        + size_where(layout.has(Dim::NumberOfReturns), 1)
        + size_where(layout.has(Dim::ScanDirectionFlag), 1)
        + size_where(layout.has(Dim::EdgeOfFlightLine), 1)
        + size_where(layout.has(Dim::Classification), 1)
        + size_where(layout.has(Dim::Synthetic), 1)
        + size_where(layout.has(Dim::KeyPoint), 1)
        + size_where(layout.has(Dim::Withheld), 1)
}

// How many bytes the middle ones take.
#[tactic(auto, unfolding(crate::specs::Rows::size_of))]
fn middle_size(layout: &Layout) -> usize
    ensures value { result ≡ size_of layout.now middle_dims }
    ensures most { result ≤ 13 }
{
    size_where(layout.has(Dim::Overlap), 1)
        + size_where(layout.has(Dim::ScanChannel), 1)
        + size_where(layout.has(Dim::ScanAngleRank), 8)
        + size_where(layout.has(Dim::UserData), 1)
        + size_where(layout.has(Dim::PointSourceId), 2)
}

// How many bytes the late ones take.
#[tactic(auto, unfolding(crate::specs::Rows::size_of))]
fn late_size(layout: &Layout) -> usize
    ensures value { result ≡ size_of layout.now late_dims }
    ensures most { result ≤ 16 }
{
    size_where(layout.has(Dim::GpsTime), 8)
        + size_where(layout.has(Dim::Red), 2)
        + size_where(layout.has(Dim::Green), 2)
        + size_where(layout.has(Dim::Blue), 2)
        + size_where(layout.has(Dim::Infrared), 2)
}

// How many bytes the extra ones take.
#[tactic(auto, unfolding(crate::specs::Rows::size_of))]
fn extra_size(layout: &Layout) -> usize
    ensures value { result ≡ size_of layout.now extra_dims }
    ensures most { result ≤ 64 }
{
    size_where(layout.has(Dim::Extra(0)), 8)
        + size_where(layout.has(Dim::Extra(1)), 8)
        + size_where(layout.has(Dim::Extra(2)), 8)
        + size_where(layout.has(Dim::Extra(3)), 8)
        + size_where(layout.has(Dim::Extra(4)), 8)
        + size_where(layout.has(Dim::Extra(5)), 8)
        + size_where(layout.has(Dim::Extra(6)), 8)
        + size_where(layout.has(Dim::Extra(7)), 8)
}
