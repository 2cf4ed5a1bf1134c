//! A point.

ghost use Rattle.std.specs.Prelude.{◌≡◌, ◌≤◌, ◌^◌, unsigned_abs, Some, None, OnOk, OnErr, int_le, true, pos, ◌≤ℤ◌};
ghost use Rattle.cloud_points.specs.Dims.{kind_of, greatest, low_of, high_of};
ghost use Rattle.cloud_points.specs.Points.{get, with_fixed, with_whole, point_with, point_with_kind, key_of, zero_point};
ghost use Rattle.cloud_points.specs.declared.dims.Kind.TheVariants.{Fixed, Whole};

use crate::dims::extra_place;
use crate::{Dim, Kind, OutOfRange};
use exact_numbers::half_away;
use ieee_words::word_order;

/// One unit in nanounits.
const NANO: i128 = 1_000_000_000;

/// The greatest size of a coordinate or an extra value, in nanounits. No dimension of whole numbers holds more.
pub const MOST_NANO: i128 = 4_000_000_000_000_000_000;

/// A point: what an ASPRS LAS point data record holds, and eight extra values, in the units of `Dim`.
///
/// Coordinates and extra values are whole counts of nanounits, 10^-9 of the file's unit, and the angle of 10^-9 degree.
/// The GPS time is carried as its binary64 word. A dimension that a record lacks is 0.
///
/// It takes 128 bytes, two lines of a cache. The wide fields stand first, so that no room is lost between them.
#[derive(Clone, Copy, Debug, Default, PartialEq, Eq)]
pub struct Point {
    /// X coordinate in nanounits.
    pub x: i64,
    /// Y coordinate in nanounits.
    pub y: i64,
    /// Z coordinate in nanounits.
    pub z: i64,
    /// Angle of the pulse in degrees, 10^-9 of it.
    pub scan_angle_rank: i64,
    /// Time as a binary64 word.
    pub gps_time: u64,
    /// The extra dimensions in their order, in nanounits.
    pub extra: [i64; 8],
    /// Pulse return magnitude.
    pub intensity: u16,
    /// The file that the point came from.
    pub point_source_id: u16,
    /// Red image channel.
    pub red: u16,
    /// Green image channel.
    pub green: u16,
    /// Blue image channel.
    pub blue: u16,
    /// Near infrared image channel.
    pub infrared: u16,
    /// Return number of a pulse.
    pub return_number: u8,
    /// Number of returns of a pulse.
    pub number_of_returns: u8,
    /// 1 where the mirror moved from left to right.
    pub scan_direction_flag: u8,
    /// 1 at the end of a scan line.
    pub edge_of_flight_line: u8,
    /// Class of a point.
    pub classification: u8,
    /// 1 where the point was made by other means than lidar.
    pub synthetic: u8,
    /// 1 where the point is a model key point.
    pub key_point: u8,
    /// 1 where the point is not to be used.
    pub withheld: u8,
    /// 1 where the point is in the overlap of swaths.
    pub overlap: u8,
    /// Channel of a multi-channel system.
    pub scan_channel: u8,
    /// For the user.
    pub user_data: u8,
}

const _: () = prove!(size_of::<Point>() == 128);

impl Point {
    /// The point that has 0 in every dimension.
    pub fn zero() -> Self
        ensures { result ≡ zero_point }
    {
        Point {
            x: 0,
            y: 0,
            z: 0,
            scan_angle_rank: 0,
            gps_time: 0,
            extra: [0; 8],
            intensity: 0,
            point_source_id: 0,
            red: 0,
            green: 0,
            blue: 0,
            infrared: 0,
            return_number: 0,
            number_of_returns: 0,
            scan_direction_flag: 0,
            edge_of_flight_line: 0,
            classification: 0,
            synthetic: 0,
            key_point: 0,
            withheld: 0,
            overlap: 0,
            scan_channel: 0,
            user_data: 0,
        }
    }

    /// The value in a dimension times 10^9. A GPS time has no number, and gives 0.
    pub fn get(&self, dim: Dim) -> i128
        ensures value { result ≡ get self.now dim }
        ensures small { unsigned_abs result ≤ 10 ^ 20 }
    {
        match dim {
            Dim::X => self.x as i128,
            Dim::Y => self.y as i128,
            Dim::Z => self.z as i128,
            Dim::Intensity => self.intensity as i128 * NANO,
            Dim::ReturnNumber => self.return_number as i128 * NANO,
            Dim::NumberOfReturns => self.number_of_returns as i128 * NANO,
            Dim::ScanDirectionFlag => self.scan_direction_flag as i128 * NANO,
            Dim::EdgeOfFlightLine => self.edge_of_flight_line as i128 * NANO,
            Dim::Classification => self.classification as i128 * NANO,
            Dim::Synthetic => self.synthetic as i128 * NANO,
            Dim::KeyPoint => self.key_point as i128 * NANO,
            Dim::Withheld => self.withheld as i128 * NANO,
            Dim::Overlap => self.overlap as i128 * NANO,
            Dim::ScanChannel => self.scan_channel as i128 * NANO,
            Dim::ScanAngleRank => self.scan_angle_rank as i128,
            Dim::UserData => self.user_data as i128 * NANO,
            Dim::PointSourceId => self.point_source_id as i128 * NANO,
            Dim::GpsTime => 0,
            Dim::Red => self.red as i128 * NANO,
            Dim::Green => self.green as i128 * NANO,
            Dim::Blue => self.blue as i128 * NANO,
            Dim::Infrared => self.infrared as i128 * NANO,
            Dim::Extra(place) => self.extra[extra_place(place)] as i128,
        }
    }

    /// Sets the value in a dimension, given times 10^9. A dimension of whole numbers takes the nearest one, a half away
    /// from zero.
    ///
    /// It is refused exactly where the value is then outside the range of the dimension, and for a GPS time, which has no
    /// number. The point then stays as it was.
    pub fn set(&mut self, dim: Dim, nano: i128) -> Result<(), OutOfRange>
        ensures ok { OnOk result (point_with self.old dim nano ≡ Some self.new) }
        ensures refused { OnErr result (point_with self.old dim nano ≡ None) }
        ensures unchanged { OnErr result (self.new ≡ self.old) }
    {
        match dim.kind() {
            Kind::Fixed => self.set_fixed(dim, nano),
            Kind::Whole => self.set_whole(dim, nano),
            Kind::Word => Err(OutOfRange),
        }
    }

    /// The GPS time, a binary64 word.
    pub fn gps(&self) -> u64
        ensures { result ≡ self.now.gps_time }
    {
        self.gps_time
    }

    /// Sets the GPS time, a binary64 word; any word will do.
    pub fn set_gps(&mut self, word: u64)
        ensures { self.new ≡ record self.old { gps_time = word } }
    {
        self.gps_time = word;
    }

    /// A number in whose order the values of a dimension stand: for a GPS time the order of its word, and for the others
    /// the value times 10^9.
    pub fn key(&self, dim: Dim) -> i128
        ensures { result ≡ key_of self.now dim }
    {
        match dim {
            Dim::GpsTime => word_order(self.gps_time) as i128,
            _ => self.get(dim),
        }
    }

    fn set_fixed(&mut self, dim: Dim, nano: i128) -> Result<(), OutOfRange>
        requires { kind_of dim ≡ Fixed }
        ensures ok { OnOk result (point_with_kind Fixed self.old dim nano ≡ Some self.new) }
        ensures refused { OnErr result (point_with_kind Fixed self.old dim nano ≡ None) }
        ensures unchanged { OnErr result (self.new ≡ self.old) }
    {
        if nano < dim.low() as i128 || nano > dim.high() as i128 {
            return Err(OutOfRange);
        }
        self.put_fixed(dim, nano as i64);
        Ok(())
    }

    fn set_whole(&mut self, dim: Dim, nano: i128) -> Result<(), OutOfRange>
        requires { kind_of dim ≡ Whole }
        ensures ok { OnOk result (point_with_kind Whole self.old dim nano ≡ Some self.new) }
        ensures refused { OnErr result (point_with_kind Whole self.old dim nano ≡ None) }
        ensures unchanged { OnErr result (self.new ≡ self.old) }
    {
        if nano < -MOST_NANO || nano > MOST_NANO {
            return Err(OutOfRange);
        }
        let number = half_away(nano, NANO);
        if number < 0 || number > dim.greatest() as i128 {
            return Err(OutOfRange);
        }
        self.put_whole(dim, number as u16);
        Ok(())
    }

    fn put_fixed(&mut self, dim: Dim, nano: i64)
        ensures { self.new ≡ with_fixed self.old dim nano }
    {
        match dim {
            Dim::X => self.x = nano,
            Dim::Y => self.y = nano,
            Dim::Z => self.z = nano,
            Dim::ScanAngleRank => self.scan_angle_rank = nano,
            Dim::Extra(place) => self.extra[extra_place(place)] = nano,
            _ => {}
        }
    }

    fn put_whole(&mut self, dim: Dim, number: u16)
        requires { number ≤ greatest dim }
        ensures { self.new ≡ with_whole self.old dim number }
    {
        match dim {
            Dim::Intensity => self.intensity = number,
            Dim::ReturnNumber => self.return_number = number as u8,
            Dim::NumberOfReturns => self.number_of_returns = number as u8,
            Dim::ScanDirectionFlag => self.scan_direction_flag = number as u8,
            Dim::EdgeOfFlightLine => self.edge_of_flight_line = number as u8,
            Dim::Classification => self.classification = number as u8,
            Dim::Synthetic => self.synthetic = number as u8,
            Dim::KeyPoint => self.key_point = number as u8,
            Dim::Withheld => self.withheld = number as u8,
            Dim::Overlap => self.overlap = number as u8,
            Dim::ScanChannel => self.scan_channel = number as u8,
            Dim::UserData => self.user_data = number as u8,
            Dim::PointSourceId => self.point_source_id = number,
            Dim::Red => self.red = number,
            Dim::Green => self.green = number,
            Dim::Blue => self.blue = number,
            Dim::Infrared => self.infrared = number,
            _ => {}
        }
    }
}
