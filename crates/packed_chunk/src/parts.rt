//! Puts the parts of a row, those of a usual layout by groups of bytes.

ghost use Rattle.std.specs.Prelude.{◌≡◌, ◌+◌, ◌≤◌, ◌++◌, length, take, drop, true, false};
ghost use Rattle.packed_chunk.specs.Rows.{cells, size_of, AllAre, IsUsual, first_dims, middle_dims, late_dims, extra_dims};

use crate::cells::{put, put_where};
use crate::putting::{put_each_extra, put_each_first, put_each_late, put_each_middle};
use crate::whole::{angle_bytes, colour_bytes, first_bytes, flag_bytes};
use cloud_points::{Dim, Layout, Point};

/// The first dimensions.
#[inline(always)]
pub fn put_first(usual: bool, layout: &Layout, p: &Point, out: &mut [u8], at: &mut usize)
    requires room { at.old + size_of layout.now first_dims ≤ length out.old }
    requires usual { usual ≡ true → IsUsual layout.now }
    ensures written { take at.new out.new ≡ take at.old out.old ++ cells layout.now p.now first_dims }
    ensures rest { drop at.new out.new ≡ drop at.new out.old }
    ensures at { at.new ≡ at.old + size_of layout.now first_dims }
{
    if usual {
        put(out, at, first_bytes(p));
        return;
    }
    put_each_first(layout, p, out, at);
}

/// The middle ones.
#[inline(always)]
pub fn put_middle(usual: bool, layout: &Layout, p: &Point, out: &mut [u8], at: &mut usize)
    requires room { at.old + size_of layout.now middle_dims ≤ length out.old }
    requires usual { usual ≡ true → IsUsual layout.now }
    ensures written { take at.new out.new ≡ take at.old out.old ++ cells layout.now p.now middle_dims }
    ensures rest { drop at.new out.new ≡ drop at.new out.old }
    ensures at { at.new ≡ at.old + size_of layout.now middle_dims }
{
    if usual {
        put_where(layout.has(Dim::Overlap), out, at, flag_bytes(p));
        put(out, at, angle_bytes(p));
        return;
    }
    put_each_middle(layout, p, out, at);
}

/// The late ones.
#[inline(always)]
pub fn put_late(usual: bool, layout: &Layout, p: &Point, out: &mut [u8], at: &mut usize)
    requires room { at.old + size_of layout.now late_dims ≤ length out.old }
    requires usual { usual ≡ true → IsUsual layout.now }
    ensures written { take at.new out.new ≡ take at.old out.old ++ cells layout.now p.now late_dims }
    ensures rest { drop at.new out.new ≡ drop at.new out.old }
    ensures at { at.new ≡ at.old + size_of layout.now late_dims }
{
    if usual {
        put_usual_late(layout, p, out, at);
        return;
    }
    put_each_late(layout, p, out, at);
}

#[inline(always)]
fn put_usual_late(layout: &Layout, p: &Point, out: &mut [u8], at: &mut usize)
    requires room { at.old + size_of layout.now late_dims ≤ length out.old }
    requires usual { IsUsual layout.now }
    ensures written { take at.new out.new ≡ take at.old out.old ++ cells layout.now p.now late_dims }
    ensures rest { drop at.new out.new ≡ drop at.new out.old }
    ensures at { at.new ≡ at.old + size_of layout.now late_dims }
{
    put_where(layout.has(Dim::GpsTime), out, at, p.gps_time.to_le_bytes());
    put_where(layout.has(Dim::Red), out, at, colour_bytes(p));
    put_where(layout.has(Dim::Infrared), out, at, p.infrared.to_le_bytes());
}

/// The extra ones, of which there may be none.
#[inline(always)]
pub fn put_extra(any: bool, layout: &Layout, p: &Point, out: &mut [u8], at: &mut usize)
    requires room { at.old + size_of layout.now extra_dims ≤ length out.old }
    requires none { any ≡ false → AllAre false layout.now extra_dims }
    ensures written { take at.new out.new ≡ take at.old out.old ++ cells layout.now p.now extra_dims }
    ensures rest { drop at.new out.new ≡ drop at.new out.old }
    ensures at { at.new ≡ at.old + size_of layout.now extra_dims }
{
    if any {
        put_each_extra(layout, p, out, at);
    }
}
