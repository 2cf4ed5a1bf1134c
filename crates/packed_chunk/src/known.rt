//! What the types of a point's numbers say of them.

ghost use Rattle.std.specs.Prelude.{◌≡◌, ◌^◌, ◌<◌, length, FitsSigned};
ghost use Rattle.std.specs.Int.{w64};
ghost use Rattle.packed_chunk.specs.Fitting.{FitsTypes};

use cloud_points::Point;

fn known_u8(number: u8)
    ensures { number < 2 ^ 8 }
{}

fn known_u16(number: u16)
    ensures { number < 2 ^ 16 }
{}

fn known_u64(number: u64)
    ensures { number < 2 ^ 64 }
{}

fn known_i64(number: i64)
    ensures { FitsSigned w64 number }
{}

/// The numbers of a point fit their types. It does nothing: its contract is what callers want.
pub fn known_numbers(p: &Point)
    ensures { FitsTypes p.now }
{
    known_i64(p.x);
    known_i64(p.y);
    known_i64(p.z);
    known_i64(p.scan_angle_rank);
    known_i64(p.extra[0]);
    known_i64(p.extra[1]);
    known_i64(p.extra[2]);
    known_i64(p.extra[3]);
    known_i64(p.extra[4]);
    known_i64(p.extra[5]);
    known_i64(p.extra[6]);
    known_i64(p.extra[7]);
    known_u64(p.gps_time);
    known_u16(p.intensity);
    known_u16(p.point_source_id);
    known_u16(p.red);
    known_u16(p.green);
    known_u16(p.blue);
    known_u16(p.infrared);
    known_u8(p.return_number);
    known_u8(p.number_of_returns);
    known_u8(p.scan_direction_flag);
    known_u8(p.edge_of_flight_line);
    known_u8(p.classification);
    known_u8(p.synthetic);
    known_u8(p.key_point);
    known_u8(p.withheld);
    known_u8(p.overlap);
    known_u8(p.scan_channel);
    known_u8(p.user_data);
}

/// A point has eight extra numbers.
pub fn known_extras(p: &Point)
    ensures { length p.now.extra ≡ 8 }
{
    let _extra = p.extra;
}
