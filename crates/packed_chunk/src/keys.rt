//! Keys of points, read from the bytes of their rows.

ghost use Rattle.std.specs.Prelude.{◌≡◌, ◌+◌, ◌<◌, ◌≤◌, length, get_or};
ghost use Rattle.cloud_points.specs.Points.{key_of, whole, zero_point};
ghost use Rattle.cloud_points.specs.declared.dims.Dim.TheVariants.{GpsTime};
ghost use Rattle.packed_chunk.specs.Keys.{short_key};
ghost use Rattle.packed_chunk.specs.Rows.{row_size};
ghost use Rattle.packed_chunk.specs.Unpacked.{unpacked_at};

use crate::{PackedRows, Packing};
use cloud_points::{Dim, Point};

/// The middle of the keys of times, which are 64 bits without a sign.
const MIDDLE: i128 = 1 << 63;

/// So many nanounits has one of a whole number.
const NANO: i64 = 1_000_000_000;

impl PackedRows {
    /// The key of the point at a place in a dimension, in 64 bits and in the order of its whole key. Of the row only the
    /// bytes of that dimension are read.
    pub fn short_key(&self, k: usize, dim: Dim) -> i64
        requires { k < length self.now.points }
        ensures { result ≡ short_key dim (key_of (get_or self.now.points k zero_point) dim) }
    {
        self.packing().short_key(self.row(k), dim)
    }
}

impl Packing {
    // The same of the row that stands at the front. Each arm unpacks the point for one of its numbers: the others are dead
    // code there.
    #[inline(always)]
    fn short_key(&self, row: &[u8], dim: Dim) -> i64
        requires { row_size self.now.layout ≤ length row.now }
        ensures { result ≡ short_key dim (key_of (unpacked_at self.now.layout 0 row.now) dim) }
    {
        match dim {
            Dim::X => self.unpack_at(row, 0).x,
            Dim::Y => self.unpack_at(row, 0).y,
            Dim::Z => self.unpack_at(row, 0).z,
            Dim::Intensity => nano_of(self.unpack_at(row, 0).intensity),
            Dim::ReturnNumber => nano_of(self.unpack_at(row, 0).return_number as u16),
            Dim::NumberOfReturns => nano_of(self.unpack_at(row, 0).number_of_returns as u16),
            Dim::ScanDirectionFlag => nano_of(self.unpack_at(row, 0).scan_direction_flag as u16),
            Dim::EdgeOfFlightLine => nano_of(self.unpack_at(row, 0).edge_of_flight_line as u16),
            Dim::Classification => nano_of(self.unpack_at(row, 0).classification as u16),
            Dim::Synthetic => nano_of(self.unpack_at(row, 0).synthetic as u16),
            Dim::KeyPoint => nano_of(self.unpack_at(row, 0).key_point as u16),
            Dim::Withheld => nano_of(self.unpack_at(row, 0).withheld as u16),
            Dim::Overlap => nano_of(self.unpack_at(row, 0).overlap as u16),
            Dim::ScanChannel => nano_of(self.unpack_at(row, 0).scan_channel as u16),
            Dim::ScanAngleRank => self.unpack_at(row, 0).scan_angle_rank,
            Dim::UserData => nano_of(self.unpack_at(row, 0).user_data as u16),
            Dim::PointSourceId => nano_of(self.unpack_at(row, 0).point_source_id),
            Dim::GpsTime => time_key(self.unpack_at(row, 0).gps_time),
            Dim::Red => nano_of(self.unpack_at(row, 0).red),
            Dim::Green => nano_of(self.unpack_at(row, 0).green),
            Dim::Blue => nano_of(self.unpack_at(row, 0).blue),
            Dim::Infrared => nano_of(self.unpack_at(row, 0).infrared),
            Dim::Extra(place) => self.unpack_at(row, 0).extra[place.min(7) as usize],
        }
    }
}

// A whole number in nanounits.
#[inline(always)]
fn nano_of(number: u16) -> i64
    ensures { result ≡ whole number }
{
    number as i64 * NANO
}

// The key of a time.
fn time_key(word: u64) -> i64
    ensures { result ≡ short_key GpsTime (key_of (record zero_point { gps_time = word }) GpsTime) }
{
    let mut point = Point::zero();
    point.gps_time = word;
    (point.key(Dim::GpsTime) - MIDDLE) as i64
}
