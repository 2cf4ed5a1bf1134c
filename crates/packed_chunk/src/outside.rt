//! What a point has outside a layout.

ghost use Rattle.std.specs.Prelude.{◌≡◌, false};
ghost use Rattle.packed_chunk.specs.Outside.{AreZero};
ghost use Rattle.packed_chunk.specs.Rows.{first_dims, middle_dims, late_dims, extra_dims};

use cloud_points::{Dim, Layout, Point};

// A number whose dimension the layout lacks, and 0 in place of another.
#[inline(always)]
fn outside(held: bool, number: u64) -> u64
    ensures { held ≡ false → result ≡ number }
{
    if held { 0 } else { number }
}

// Puts the bits of a number whose dimension the layout lacks to those found so far.
#[inline(always)]
fn find(found: &mut u64, held: bool, number: u64)
    ensures before { found.new ≡ 0 → found.old ≡ 0 }
    ensures here { found.new ≡ 0 → held ≡ false → number ≡ 0 }
{
    *found |= outside(held, number);
}

/// The bits of the point's numbers in the first dimensions that the layout lacks: 0 where they all are 0. So too below.
#[inline(always)]
pub fn first_outside(layout: &Layout, p: &Point) -> u64
    ensures { result ≡ 0 → AreZero layout.now p.now first_dims }
{
    let mut found = 0;
    find(&mut found, layout.has(Dim::X), p.x.cast_unsigned());
    find(&mut found, layout.has(Dim::Y), p.y.cast_unsigned());
    find(&mut found, layout.has(Dim::Z), p.z.cast_unsigned());
    find(&mut found, layout.has(Dim::Intensity), p.intensity as u64);
    find(
        &mut found,
        layout.has(Dim::ReturnNumber),
        p.return_number as u64,
    );
    find(
        &mut found,
        layout.has(Dim::NumberOfReturns),
        p.number_of_returns as u64,
    );
    find(
        &mut found,
        layout.has(Dim::ScanDirectionFlag),
        p.scan_direction_flag as u64,
    );
    find(
        &mut found,
        layout.has(Dim::EdgeOfFlightLine),
        p.edge_of_flight_line as u64,
    );
    find(
        &mut found,
        layout.has(Dim::Classification),
        p.classification as u64,
    );
    find(&mut found, layout.has(Dim::Synthetic), p.synthetic as u64);
    find(&mut found, layout.has(Dim::KeyPoint), p.key_point as u64);
    find(&mut found, layout.has(Dim::Withheld), p.withheld as u64);
    found
}

/// Those of the middle ones.
#[inline(always)]
pub fn middle_outside(layout: &Layout, p: &Point) -> u64
    ensures { result ≡ 0 → AreZero layout.now p.now middle_dims }
{
    let mut found = 0;
    find(&mut found, layout.has(Dim::Overlap), p.overlap as u64);
    find(
        &mut found,
        layout.has(Dim::ScanChannel),
        p.scan_channel as u64,
    );
    find(
        &mut found,
        layout.has(Dim::ScanAngleRank),
        p.scan_angle_rank.cast_unsigned(),
    );
    find(&mut found, layout.has(Dim::UserData), p.user_data as u64);
    find(
        &mut found,
        layout.has(Dim::PointSourceId),
        p.point_source_id as u64,
    );
    found
}

/// Those of the late ones.
#[inline(always)]
pub fn late_outside(layout: &Layout, p: &Point) -> u64
    ensures { result ≡ 0 → AreZero layout.now p.now late_dims }
{
    let mut found = 0;
    find(&mut found, layout.has(Dim::GpsTime), p.gps_time);
    find(&mut found, layout.has(Dim::Red), p.red as u64);
    find(&mut found, layout.has(Dim::Green), p.green as u64);
    find(&mut found, layout.has(Dim::Blue), p.blue as u64);
    find(&mut found, layout.has(Dim::Infrared), p.infrared as u64);
    found
}

/// Those of the extra ones.
#[inline(always)]
pub fn extra_outside(layout: &Layout, p: &Point) -> u64
    ensures { result ≡ 0 → AreZero layout.now p.now extra_dims }
{
    let mut found = 0;
    find(
        &mut found,
        layout.has(Dim::Extra(0)),
        p.extra[0].cast_unsigned(),
    );
    find(
        &mut found,
        layout.has(Dim::Extra(1)),
        p.extra[1].cast_unsigned(),
    );
    find(
        &mut found,
        layout.has(Dim::Extra(2)),
        p.extra[2].cast_unsigned(),
    );
    find(
        &mut found,
        layout.has(Dim::Extra(3)),
        p.extra[3].cast_unsigned(),
    );
    find(
        &mut found,
        layout.has(Dim::Extra(4)),
        p.extra[4].cast_unsigned(),
    );
    find(
        &mut found,
        layout.has(Dim::Extra(5)),
        p.extra[5].cast_unsigned(),
    );
    find(
        &mut found,
        layout.has(Dim::Extra(6)),
        p.extra[6].cast_unsigned(),
    );
    find(
        &mut found,
        layout.has(Dim::Extra(7)),
        p.extra[7].cast_unsigned(),
    );
    found
}
