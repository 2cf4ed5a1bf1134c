//! Layouts with the dimensions that a point needs.

ghost use Rattle.std.specs.Prelude.{◌≡◌, false};
ghost use Rattle.cloud_points.specs.Clearing.{IsWithin};
ghost use Rattle.cloud_points.specs.Layouts.{holds};
ghost use Rattle.packed_chunk.specs.Outside.{AreZero, IsWider};
ghost use Rattle.packed_chunk.specs.Rows.{first_dims, middle_dims, late_dims, extra_dims};

use crate::known::{known_extras, known_numbers};
use cloud_points::{Dim, Layout, Point};

/// The layout with each dimension in which the point has another number than 0.
pub fn widened(layout: &Layout, p: &Point) -> Layout
    ensures wider { IsWider layout.now result }
    ensures within { IsWithin (holds result) p.now }
{
    known_numbers(p);
    known_extras(p);
    let mut wide = *layout;
    widen_first(&mut wide, p);
    widen_middle(&mut wide, p);
    widen_late(&mut wide, p);
    widen_extra(&mut wide, p);
    wide
}

// Puts a dimension into a layout where the number in it isn't 0.
fn widen(layout: &mut Layout, dim: Dim, number: u64)
    ensures wider { IsWider layout.old layout.new }
    ensures here { holds layout.new dim ≡ false → number ≡ 0 }
{
    if number != 0 {
        layout.add(dim);
    }
}

// Puts those of the first dimensions into it that the point needs; so too below.
fn widen_first(layout: &mut Layout, p: &Point)
    ensures wider { IsWider layout.old layout.new }
    ensures zero { AreZero layout.new p.now first_dims }
{
    widen(layout, Dim::X, p.x.cast_unsigned());
    widen(layout, Dim::Y, p.y.cast_unsigned());
    widen(layout, Dim::Z, p.z.cast_unsigned());
    widen(layout, Dim::Intensity, p.intensity as u64);
    widen(layout, Dim::ReturnNumber, p.return_number as u64);
    widen(layout, Dim::NumberOfReturns, p.number_of_returns as u64);
    widen(layout, Dim::ScanDirectionFlag, p.scan_direction_flag as u64);
    widen(layout, Dim::EdgeOfFlightLine, p.edge_of_flight_line as u64);
    widen(layout, Dim::Classification, p.classification as u64);
    widen(layout, Dim::Synthetic, p.synthetic as u64);
    widen(layout, Dim::KeyPoint, p.key_point as u64);
    widen(layout, Dim::Withheld, p.withheld as u64);
}

// Those of the middle ones.
fn widen_middle(layout: &mut Layout, p: &Point)
    ensures wider { IsWider layout.old layout.new }
    ensures zero { AreZero layout.new p.now middle_dims }
{
    widen(layout, Dim::Overlap, p.overlap as u64);
    widen(layout, Dim::ScanChannel, p.scan_channel as u64);
    widen(
        layout,
        Dim::ScanAngleRank,
        p.scan_angle_rank.cast_unsigned(),
    );
    widen(layout, Dim::UserData, p.user_data as u64);
    widen(layout, Dim::PointSourceId, p.point_source_id as u64);
}

// Those of the late ones.
fn widen_late(layout: &mut Layout, p: &Point)
    ensures wider { IsWider layout.old layout.new }
    ensures zero { AreZero layout.new p.now late_dims }
{
    widen(layout, Dim::GpsTime, p.gps_time);
    widen(layout, Dim::Red, p.red as u64);
    widen(layout, Dim::Green, p.green as u64);
    widen(layout, Dim::Blue, p.blue as u64);
    widen(layout, Dim::Infrared, p.infrared as u64);
}

// Those of the extra ones.
fn widen_extra(layout: &mut Layout, p: &Point)
    ensures wider { IsWider layout.old layout.new }
    ensures zero { AreZero layout.new p.now extra_dims }
{
    widen(layout, Dim::Extra(0), p.extra[0].cast_unsigned());
    widen(layout, Dim::Extra(1), p.extra[1].cast_unsigned());
    widen(layout, Dim::Extra(2), p.extra[2].cast_unsigned());
    widen(layout, Dim::Extra(3), p.extra[3].cast_unsigned());
    widen(layout, Dim::Extra(4), p.extra[4].cast_unsigned());
    widen(layout, Dim::Extra(5), p.extra[5].cast_unsigned());
    widen(layout, Dim::Extra(6), p.extra[6].cast_unsigned());
    widen(layout, Dim::Extra(7), p.extra[7].cast_unsigned());
}
