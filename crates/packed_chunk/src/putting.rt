//! Puts the numbers of a point into a row, one part of the dimensions after the other.

ghost use Rattle.std.specs.Prelude.{◌≡◌, ◌+◌, ◌≤◌, ◌++◌, length, take, drop};
ghost use Rattle.packed_chunk.specs.Rows.{cells, size_of, first_dims, middle_dims, late_dims, extra_dims};

use crate::cells::{put_byte_where, put_where};
use cloud_points::{Dim, Layout, Point};

/// The first dimensions, each where the layout has it.
#[inline(always)]
#[tactic(auto, unfolding(crate::specs::Rows::cells, crate::specs::Rows::size_of))]
pub fn put_each_first(layout: &Layout, p: &Point, out: &mut [u8], at: &mut usize)
    requires { at.old + size_of layout.now first_dims ≤ length out.old }
    ensures written { take at.new out.new ≡ take at.old out.old ++ cells layout.now p.now first_dims }
    ensures rest { drop at.new out.new ≡ drop at.new out.old }
    ensures at { at.new ≡ at.old + size_of layout.now first_dims }
{
    put_where(layout.has(Dim::X), out, at, p.x.to_le_bytes());
    put_where(layout.has(Dim::Y), out, at, p.y.to_le_bytes());
    put_where(layout.has(Dim::Z), out, at, p.z.to_le_bytes());
    put_where(
        layout.has(Dim::Intensity),
        out,
        at,
        p.intensity.to_le_bytes(),
    );
    put_byte_where(layout.has(Dim::ReturnNumber), out, at, p.return_number);
    put_byte_where(
        layout.has(Dim::NumberOfReturns),
        out,
        at,
        p.number_of_returns,
    );
    put_byte_where(
        layout.has(Dim::ScanDirectionFlag),
        out,
        at,
        p.scan_direction_flag,
    );
    put_byte_where(
        layout.has(Dim::EdgeOfFlightLine),
        out,
        at,
        p.edge_of_flight_line,
    );
    put_byte_where(layout.has(Dim::Classification), out, at, p.classification);
    put_byte_where(layout.has(Dim::Synthetic), out, at, p.synthetic);
    put_byte_where(layout.has(Dim::KeyPoint), out, at, p.key_point);
    put_byte_where(layout.has(Dim::Withheld), out, at, p.withheld);
}

/// The middle ones, each where the layout has it.
#[inline(always)]
#[tactic(auto, unfolding(crate::specs::Rows::cells, crate::specs::Rows::size_of))]
pub fn put_each_middle(layout: &Layout, p: &Point, out: &mut [u8], at: &mut usize)
    requires { at.old + size_of layout.now middle_dims ≤ length out.old }
    ensures written { take at.new out.new ≡ take at.old out.old ++ cells layout.now p.now middle_dims }
    ensures rest { drop at.new out.new ≡ drop at.new out.old }
    ensures at { at.new ≡ at.old + size_of layout.now middle_dims }
{
    put_byte_where(layout.has(Dim::Overlap), out, at, p.overlap);
    put_byte_where(layout.has(Dim::ScanChannel), out, at, p.scan_channel);
    put_where(
        layout.has(Dim::ScanAngleRank),
        out,
        at,
        p.scan_angle_rank.to_le_bytes(),
    );
    put_byte_where(layout.has(Dim::UserData), out, at, p.user_data);
    put_where(
        layout.has(Dim::PointSourceId),
        out,
        at,
        p.point_source_id.to_le_bytes(),
    );
}

/// The late ones, each where the layout has it.
#[inline(always)]
#[tactic(auto, unfolding(crate::specs::Rows::cells, crate::specs::Rows::size_of))]
pub fn put_each_late(layout: &Layout, p: &Point, out: &mut [u8], at: &mut usize)
    requires { at.old + size_of layout.now late_dims ≤ length out.old }
    ensures written { take at.new out.new ≡ take at.old out.old ++ cells layout.now p.now late_dims }
    ensures rest { drop at.new out.new ≡ drop at.new out.old }
    ensures at { at.new ≡ at.old + size_of layout.now late_dims }
{
    put_where(layout.has(Dim::GpsTime), out, at, p.gps_time.to_le_bytes());
    put_where(layout.has(Dim::Red), out, at, p.red.to_le_bytes());
    put_where(layout.has(Dim::Green), out, at, p.green.to_le_bytes());
    put_where(layout.has(Dim::Blue), out, at, p.blue.to_le_bytes());
    put_where(layout.has(Dim::Infrared), out, at, p.infrared.to_le_bytes());
}

/// The extra ones, each where the layout has it.
#[inline(always)]
#[tactic(auto, unfolding(crate::specs::Rows::cells, crate::specs::Rows::size_of))]
pub fn put_each_extra(layout: &Layout, p: &Point, out: &mut [u8], at: &mut usize)
    requires { at.old + size_of layout.now extra_dims ≤ length out.old }
    ensures written { take at.new out.new ≡ take at.old out.old ++ cells layout.now p.now extra_dims }
    ensures rest { drop at.new out.new ≡ drop at.new out.old }
    ensures at { at.new ≡ at.old + size_of layout.now extra_dims }
{
    put_where(layout.has(Dim::Extra(0)), out, at, p.extra[0].to_le_bytes());
    put_where(layout.has(Dim::Extra(1)), out, at, p.extra[1].to_le_bytes());
    put_where(layout.has(Dim::Extra(2)), out, at, p.extra[2].to_le_bytes());
    put_where(layout.has(Dim::Extra(3)), out, at, p.extra[3].to_le_bytes());
    put_where(layout.has(Dim::Extra(4)), out, at, p.extra[4].to_le_bytes());
    put_where(layout.has(Dim::Extra(5)), out, at, p.extra[5].to_le_bytes());
    put_where(layout.has(Dim::Extra(6)), out, at, p.extra[6].to_le_bytes());
    put_where(layout.has(Dim::Extra(7)), out, at, p.extra[7].to_le_bytes());
}
