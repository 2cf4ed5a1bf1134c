//! Takes the numbers of a point from a row, one part of the dimensions after the other.

ghost use Rattle.std.specs.Prelude.{◌≡◌, ◌+◌, ◌≤◌, length, replicate, pos, true, false};
ghost use Rattle.cloud_points.specs.Layouts.{holds};
ghost use Rattle.packed_chunk.specs.Rows.{size_of, size_where, AllAre, IsUsual, first_dims, middle_dims, late_dims, extra_dims};
ghost use Rattle.packed_chunk.specs.Unpacked.{number_where, numbers, with_first, with_middle, with_late, with_extras};

use crate::cells::{take_i64, take_u8, take_u16, take_u64};
use cloud_points::{Dim, Layout, Point};

// Whether a layout has a dimension; where it is known to be usual, this need not be looked up.
#[inline(always)]
fn held(usual: bool, layout: &Layout, dim: Dim) -> bool
    requires { usual ≡ true → holds layout.now dim ≡ true }
    ensures { result ≡ holds layout.now dim }
{
    usual || layout.has(dim)
}

/// The first dimensions, from a place on, which is then behind them. A usual layout has code of its own.
#[inline(always)]
pub fn take_first(usual: bool, layout: &Layout, row: &[u8], at: &mut usize, p: &mut Point)
    requires room { at.old + size_of layout.now first_dims ≤ length row.now }
    requires usual { usual ≡ true → IsUsual layout.now }
    ensures at { at.new ≡ at.old + size_of layout.now first_dims }
    ensures p { p.new ≡ with_first (numbers layout.now first_dims at.old row.now) p.old }
{
    if usual {
        take_each_first(true, layout, row, at, p);
    } else {
        take_each_first(false, layout, row, at, p);
    }
}

#[inline(always)]
#[tactic(auto, unfolding(crate::specs::Rows::size_of, crate::specs::Unpacked::numbers, crate::specs::Unpacked::with_first))]
fn take_each_first(usual: bool, layout: &Layout, row: &[u8], at: &mut usize, p: &mut Point)
    requires room { at.old + size_of layout.now first_dims ≤ length row.now }
    requires usual { usual ≡ true → IsUsual layout.now }
    ensures at { at.new ≡ at.old + size_of layout.now first_dims }
    ensures p { p.new ≡ with_first (numbers layout.now first_dims at.old row.now) p.old }
{
    p.x = take_i64(held(usual, layout, Dim::X), row, at);
    p.y = take_i64(held(usual, layout, Dim::Y), row, at);
    p.z = take_i64(held(usual, layout, Dim::Z), row, at);
    p.intensity = take_u16(held(usual, layout, Dim::Intensity), row, at);
    p.return_number = take_u8(held(usual, layout, Dim::ReturnNumber), row, at);
    p.number_of_returns = take_u8(held(usual, layout, Dim::NumberOfReturns), row, at);
    p.scan_direction_flag = take_u8(held(usual, layout, Dim::ScanDirectionFlag), row, at);
    p.edge_of_flight_line = take_u8(held(usual, layout, Dim::EdgeOfFlightLine), row, at);
    p.classification = take_u8(held(usual, layout, Dim::Classification), row, at);
    p.synthetic = take_u8(held(usual, layout, Dim::Synthetic), row, at);
    p.key_point = take_u8(held(usual, layout, Dim::KeyPoint), row, at);
    p.withheld = take_u8(held(usual, layout, Dim::Withheld), row, at);
}

/// The middle ones, from a place on, which is then behind them. A usual layout has code of its own.
#[inline(always)]
pub fn take_middle(usual: bool, layout: &Layout, row: &[u8], at: &mut usize, p: &mut Point)
    requires room { at.old + size_of layout.now middle_dims ≤ length row.now }
    requires usual { usual ≡ true → IsUsual layout.now }
    ensures at { at.new ≡ at.old + size_of layout.now middle_dims }
    ensures p { p.new ≡ with_middle (numbers layout.now middle_dims at.old row.now) p.old }
{
    if usual {
        take_usual_middle(layout, row, at, p);
    } else {
        take_each_middle(layout, row, at, p);
    }
}

// The two flags together.
#[inline(always)]
fn take_flags(held: bool, row: &[u8], at: &mut usize) -> (u8, u8)
    requires { at.old + (size_where held 1 + size_where held 1) ≤ length row.now }
    ensures overlap { result.0 ≡ number_where held at.old 1 row.now }
    ensures channel { result.1 ≡ number_where held (at.old + size_where held 1) 1 row.now }
    ensures at { at.new ≡ (at.old + size_where held 1) + size_where held 1 }
{
    if !held {
        return (0, 0);
    }
    let overlap = take_u8(true, row, at);
    let channel = take_u8(true, row, at);
    (overlap, channel)
}

#[inline(always)]
#[tactic(auto, unfolding(crate::specs::Rows::size_of, crate::specs::Unpacked::numbers, crate::specs::Unpacked::with_middle))]
fn take_usual_middle(layout: &Layout, row: &[u8], at: &mut usize, p: &mut Point)
    requires room { at.old + size_of layout.now middle_dims ≤ length row.now }
    requires usual { IsUsual layout.now }
    ensures at { at.new ≡ at.old + size_of layout.now middle_dims }
    ensures p { p.new ≡ with_middle (numbers layout.now middle_dims at.old row.now) p.old }
{
    let (overlap, channel) = take_flags(layout.has(Dim::Overlap), row, at);
    p.overlap = overlap;
    p.scan_channel = channel;
    p.scan_angle_rank = take_i64(true, row, at);
    p.user_data = take_u8(true, row, at);
    p.point_source_id = take_u16(true, row, at);
}

#[inline(always)]
#[tactic(auto, unfolding(crate::specs::Rows::size_of, crate::specs::Unpacked::numbers, crate::specs::Unpacked::with_middle))]
fn take_each_middle(layout: &Layout, row: &[u8], at: &mut usize, p: &mut Point)
    requires { at.old + size_of layout.now middle_dims ≤ length row.now }
    ensures at { at.new ≡ at.old + size_of layout.now middle_dims }
    ensures p { p.new ≡ with_middle (numbers layout.now middle_dims at.old row.now) p.old }
{
    p.overlap = take_u8(layout.has(Dim::Overlap), row, at);
    p.scan_channel = take_u8(layout.has(Dim::ScanChannel), row, at);
    p.scan_angle_rank = take_i64(layout.has(Dim::ScanAngleRank), row, at);
    p.user_data = take_u8(layout.has(Dim::UserData), row, at);
    p.point_source_id = take_u16(layout.has(Dim::PointSourceId), row, at);
}

/// The late ones, from a place on, which is then behind them. A usual layout has code of its own.
#[inline(always)]
pub fn take_late(usual: bool, layout: &Layout, row: &[u8], at: &mut usize, p: &mut Point)
    requires room { at.old + size_of layout.now late_dims ≤ length row.now }
    requires usual { usual ≡ true → IsUsual layout.now }
    ensures at { at.new ≡ at.old + size_of layout.now late_dims }
    ensures p { p.new ≡ with_late (numbers layout.now late_dims at.old row.now) p.old }
{
    if usual {
        take_usual_late(layout, row, at, p);
    } else {
        take_each_late(layout, row, at, p);
    }
}

// The three colours together.
#[inline(always)]
fn take_colours(held: bool, row: &[u8], at: &mut usize) -> (u16, u16, u16)
    requires { at.old + (size_where held 2 + (size_where held 2 + size_where held 2)) ≤ length row.now }
    ensures red { result.0 ≡ number_where held at.old 2 row.now }
    ensures green { result.1 ≡ number_where held (at.old + size_where held 2) 2 row.now }
    ensures blue { result.2 ≡ number_where held ((at.old + size_where held 2) + size_where held 2) 2 row.now }
    ensures at { at.new ≡ ((at.old + size_where held 2) + size_where held 2) + size_where held 2 }
{
    if !held {
        return (0, 0, 0);
    }
    let red = take_u16(true, row, at);
    let green = take_u16(true, row, at);
    let blue = take_u16(true, row, at);
    (red, green, blue)
}

#[inline(always)]
#[tactic(auto, unfolding(crate::specs::Rows::size_of, crate::specs::Unpacked::numbers, crate::specs::Unpacked::with_late))]
fn take_usual_late(layout: &Layout, row: &[u8], at: &mut usize, p: &mut Point)
    requires room { at.old + size_of layout.now late_dims ≤ length row.now }
    requires usual { IsUsual layout.now }
    ensures at { at.new ≡ at.old + size_of layout.now late_dims }
    ensures p { p.new ≡ with_late (numbers layout.now late_dims at.old row.now) p.old }
{
    p.gps_time = take_u64(layout.has(Dim::GpsTime), row, at);
    let (red, green, blue) = take_colours(layout.has(Dim::Red), row, at);
    p.red = red;
    p.green = green;
    p.blue = blue;
    p.infrared = take_u16(layout.has(Dim::Infrared), row, at);
}

#[inline(always)]
#[tactic(auto, unfolding(crate::specs::Rows::size_of, crate::specs::Unpacked::numbers, crate::specs::Unpacked::with_late))]
fn take_each_late(layout: &Layout, row: &[u8], at: &mut usize, p: &mut Point)
    requires { at.old + size_of layout.now late_dims ≤ length row.now }
    ensures at { at.new ≡ at.old + size_of layout.now late_dims }
    ensures p { p.new ≡ with_late (numbers layout.now late_dims at.old row.now) p.old }
{
    p.gps_time = take_u64(layout.has(Dim::GpsTime), row, at);
    p.red = take_u16(layout.has(Dim::Red), row, at);
    p.green = take_u16(layout.has(Dim::Green), row, at);
    p.blue = take_u16(layout.has(Dim::Blue), row, at);
    p.infrared = take_u16(layout.has(Dim::Infrared), row, at);
}

/// The extra ones, of which there may be none, from a place on, which is then behind them. They are 0 before.
#[inline(always)]
pub fn take_extra(any: bool, layout: &Layout, row: &[u8], at: &mut usize, p: &mut Point)
    requires room { at.old + size_of layout.now extra_dims ≤ length row.now }
    requires none { any ≡ false → AllAre false layout.now extra_dims }
    requires zero { p.old.extra ≡ replicate 8 (pos 0) }
    ensures at { at.new ≡ at.old + size_of layout.now extra_dims }
    ensures p { p.new ≡ with_extras (numbers layout.now extra_dims at.old row.now) p.old }
{
    if any {
        take_each_extra(layout, row, at, p);
    }
}

#[inline(always)]
#[tactic(auto, unfolding(crate::specs::Rows::size_of, crate::specs::Unpacked::numbers, crate::specs::Unpacked::with_extras))]
fn take_each_extra(layout: &Layout, row: &[u8], at: &mut usize, p: &mut Point)
    requires { at.old + size_of layout.now extra_dims ≤ length row.now }
    ensures at { at.new ≡ at.old + size_of layout.now extra_dims }
    ensures p { p.new ≡ with_extras (numbers layout.now extra_dims at.old row.now) p.old }
{
    p.extra = [
        take_i64(layout.has(Dim::Extra(0)), row, at),
        take_i64(layout.has(Dim::Extra(1)), row, at),
        take_i64(layout.has(Dim::Extra(2)), row, at),
        take_i64(layout.has(Dim::Extra(3)), row, at),
        take_i64(layout.has(Dim::Extra(4)), row, at),
        take_i64(layout.has(Dim::Extra(5)), row, at),
        take_i64(layout.has(Dim::Extra(6)), row, at),
        take_i64(layout.has(Dim::Extra(7)), row, at),
    ];
}
