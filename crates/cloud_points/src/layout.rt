//! Sets of dimensions.

ghost use Rattle.std.specs.Prelude.{◌≡◌, ◌||◌, false, pos};
ghost use Rattle.cloud_points.specs.Clearing.{cleared, kept, kept_extras};
ghost use Rattle.cloud_points.specs.Layouts.{holds, is_same};
ghost use Rattle.cloud_points.specs.declared.dims.Dim.{Dim};

use crate::dims::COUNT;
use crate::{Dim, Point};

/// A set of dimensions: those that the points of a file or of a stage have.
#[derive(Clone, Copy, Debug, PartialEq, Eq)]
pub struct Layout {
    held: [bool; COUNT],
}

impl Layout {
    /// The set of no dimension.
    pub fn none() -> Self
        ensures { (dim : Dim) → holds result dim ≡ false }
    {
        Layout {
            held: [false; COUNT],
        }
    }

    /// Puts a dimension into the set.
    pub fn add(&mut self, dim: Dim)
        ensures { (other : Dim) → holds self.new other ≡ (is_same dim other || holds self.old other) }
    {
        self.held[dim.number()] = true;
    }

    /// Whether the set has a dimension.
    pub fn has(&self, dim: Dim) -> bool
        ensures { result ≡ holds self.now dim }
    {
        self.held[dim.number()]
    }

    /// Puts the dimensions of another set into this one.
    pub fn join(&mut self, other: &Layout)
        ensures { (dim : Dim) → holds self.new dim ≡ (holds self.old dim || holds other.now dim) }
    {
        for (k, cell) in self.held.iter_mut().enumerate() {
            *cell = *cell || other.held[k];
        }
    }

    /// Sets every dimension of a point that is outside the set to 0.
    pub fn clear(&self, p: &mut Point)
        ensures { p.new ≡ cleared (holds self.now) p.old }
    {
        *p = Point {
            x: self.fixed(Dim::X, p.x),
            y: self.fixed(Dim::Y, p.y),
            z: self.fixed(Dim::Z, p.z),
            scan_angle_rank: self.fixed(Dim::ScanAngleRank, p.scan_angle_rank),
            gps_time: self.word(Dim::GpsTime, p.gps_time),
            extra: self.extras(&p.extra),
            intensity: self.number(Dim::Intensity, p.intensity),
            point_source_id: self.number(Dim::PointSourceId, p.point_source_id),
            red: self.number(Dim::Red, p.red),
            green: self.number(Dim::Green, p.green),
            blue: self.number(Dim::Blue, p.blue),
            infrared: self.number(Dim::Infrared, p.infrared),
            return_number: self.byte(Dim::ReturnNumber, p.return_number),
            number_of_returns: self.byte(Dim::NumberOfReturns, p.number_of_returns),
            scan_direction_flag: self.byte(Dim::ScanDirectionFlag, p.scan_direction_flag),
            edge_of_flight_line: self.byte(Dim::EdgeOfFlightLine, p.edge_of_flight_line),
            classification: self.byte(Dim::Classification, p.classification),
            synthetic: self.byte(Dim::Synthetic, p.synthetic),
            key_point: self.byte(Dim::KeyPoint, p.key_point),
            withheld: self.byte(Dim::Withheld, p.withheld),
            overlap: self.byte(Dim::Overlap, p.overlap),
            scan_channel: self.byte(Dim::ScanChannel, p.scan_channel),
            user_data: self.byte(Dim::UserData, p.user_data),
        };
    }

    /// The values of the extra dimensions, or 0 in place of those that the set has not.
    fn extras(&self, values: &[i64; 8]) -> [i64; 8]
        ensures { result ≡ kept_extras (holds self.now) values.now }
    {
        [
            self.fixed(Dim::Extra(0), values[0]),
            self.fixed(Dim::Extra(1), values[1]),
            self.fixed(Dim::Extra(2), values[2]),
            self.fixed(Dim::Extra(3), values[3]),
            self.fixed(Dim::Extra(4), values[4]),
            self.fixed(Dim::Extra(5), values[5]),
            self.fixed(Dim::Extra(6), values[6]),
            self.fixed(Dim::Extra(7), values[7]),
        ]
    }

    /// A value of a dimension, or 0 where the set has not that dimension; so too below.
    fn fixed(&self, dim: Dim, nano: i64) -> i64
        ensures { result ≡ kept (holds self.now) dim nano (pos 0) }
    {
        if self.has(dim) { nano } else { 0 }
    }

    fn word(&self, dim: Dim, word: u64) -> u64
        ensures { result ≡ kept (holds self.now) dim word 0 }
    {
        if self.has(dim) { word } else { 0 }
    }

    fn number(&self, dim: Dim, number: u16) -> u16
        ensures { result ≡ kept (holds self.now) dim number 0 }
    {
        if self.has(dim) { number } else { 0 }
    }

    fn byte(&self, dim: Dim, number: u8) -> u8
        ensures { result ≡ kept (holds self.now) dim number 0 }
    {
        if self.has(dim) { number } else { 0 }
    }
}
