//! Reads points from records.

ghost use Rattle.std.specs.Prelude.{◌≡◌, ◌+◌, ◌≤◌, length, take, Ok};
ghost use Rattle.las_header.specs.Formats.{format_size};
ghost use Rattle.byte_numbers.specs.Bytes.{number_at};
ghost use Rattle.las_header.specs.declared.form.Format.TheVariants.{F0, F6};
ghost use Rattle.point_formats.specs.Grids.{IsNear};
ghost use Rattle.cloud_points.specs.Points.{zero_point};
ghost use Rattle.point_formats.specs.Formats.{coordinates, old_returns, old_class, new_returns, new_flags};
ghost use Rattle.point_formats.specs.Records.{decoded, with_items, with_bits};
ghost use Rattle.point_formats.specs.Encoded.{encoded};

use crate::Grid;
use crate::grid::{coordinate, known_steps};
use byte_numbers::{i8_at, i16_at, i32_at, u16_at, u64_at};
use cloud_points::Point;
use las_header::Format;

/// The nanodegrees of a degree, in which formats 0 to 3 count angles.
const DEGREE: i64 = 1_000_000_000;

/// The nanodegrees of 0.006 degree, in which formats 6 to 8 count angles.
const ANGLE_STEP: i64 = 6_000_000;

/// The point at the coordinates of a record, with 0 in the other dimensions.
fn located(bytes: &[u8], grid: &Grid) -> Point
    requires size { 12 ≤ length bytes.now }
    requires near { IsNear grid.now }
    ensures { result ≡ with_items grid.now bytes.now 0 zero_point coordinates }
{
    let mut point = Point::zero();
    point.x = coordinate(grid, 0, i32_at(bytes, 0));
    point.y = coordinate(grid, 1, i32_at(bytes, 4));
    point.z = coordinate(grid, 2, i32_at(bytes, 8));
    point
}

/// Puts the bit fields of byte 14 in formats 0 to 3.
fn put_old_returns(byte: u8, point: &mut Point)
    ensures { point.new ≡ with_bits point.old byte 0 old_returns }
{
    point.return_number = byte % 8;
    point.number_of_returns = byte / 8 % 8;
    point.scan_direction_flag = byte / 64 % 2;
    point.edge_of_flight_line = byte / 128;
}

/// Puts the bit fields of byte 15 in formats 0 to 3.
fn put_old_class(byte: u8, point: &mut Point)
    ensures { point.new ≡ with_bits point.old byte 0 old_class }
{
    point.classification = byte % 32;
    point.synthetic = byte / 32 % 2;
    point.key_point = byte / 64 % 2;
    point.withheld = byte / 128;
}

/// The point of a record of format 0, with which those of formats 1 to 3 begin.
fn old_point(bytes: &[u8], grid: &Grid) -> Point
    requires size { 20 ≤ length bytes.now }
    requires near { IsNear grid.now }
    ensures { result ≡ decoded F0 grid.now bytes.now }
{
    let mut point = located(bytes, grid);
    point.intensity = u16_at(bytes, 12);
    put_old_returns(bytes[14], &mut point);
    put_old_class(bytes[15], &mut point);
    point.scan_angle_rank = i8_at(bytes, 16) as i64 * DEGREE;
    point.user_data = bytes[17];
    point.point_source_id = u16_at(bytes, 18);
    point
}

/// Puts the bit fields of byte 14 in formats 6 to 8.
fn put_new_returns(byte: u8, point: &mut Point)
    ensures { point.new ≡ with_bits point.old byte 0 new_returns }
{
    point.return_number = byte % 16;
    point.number_of_returns = byte / 16;
}

/// Puts the bit fields of byte 15 in formats 6 to 8.
fn put_new_flags(byte: u8, point: &mut Point)
    ensures { point.new ≡ with_bits point.old byte 0 new_flags }
{
    point.synthetic = byte % 2;
    point.key_point = byte / 2 % 2;
    point.withheld = byte / 4 % 2;
    point.overlap = byte / 8 % 2;
    point.scan_channel = byte / 16 % 4;
    point.scan_direction_flag = byte / 64 % 2;
    point.edge_of_flight_line = byte / 128;
}

/// The point of a record of format 6, with which those of formats 7 and 8 begin.
fn new_point(bytes: &[u8], grid: &Grid) -> Point
    requires size { 30 ≤ length bytes.now }
    requires near { IsNear grid.now }
    ensures { result ≡ decoded F6 grid.now bytes.now }
{
    let mut point = located(bytes, grid);
    point.intensity = u16_at(bytes, 12);
    put_new_returns(bytes[14], &mut point);
    put_new_flags(bytes[15], &mut point);
    point.classification = bytes[16];
    point.user_data = bytes[17];
    point.scan_angle_rank = i16_at(bytes, 18) as i64 * ANGLE_STEP;
    point.point_source_id = u16_at(bytes, 20);
    point.gps_time = u64_at(bytes, 22);
    point
}

/// The point with the colours that stand at a place.
fn with_colours(point: Point, bytes: &[u8], at: usize) -> Point
    requires { at + 6 ≤ length bytes.now }
    ensures { result ≡ record point {
      red = number_at at 2 bytes.now;
      green = number_at (at + 2) 2 bytes.now;
      blue = number_at (at + 4) 2 bytes.now;
    } }
{
    let mut coloured = point;
    coloured.red = u16_at(bytes, at);
    coloured.green = u16_at(bytes, at + 2);
    coloured.blue = u16_at(bytes, at + 4);
    coloured
}

/// The point of a record, of which at least the bytes of the format are there.
fn point_of(format: Format, bytes: &[u8], grid: &Grid) -> Point
    requires size { format_size format ≤ length bytes.now }
    requires near { IsNear grid.now }
    ensures { result ≡ decoded format grid.now bytes.now }
{
    match format {
        Format::F0 => old_point(bytes, grid),
        Format::F1 => {
            let mut point = old_point(bytes, grid);
            point.gps_time = u64_at(bytes, 20);
            point
        }
        Format::F2 => with_colours(old_point(bytes, grid), bytes, 20),
        Format::F3 => {
            let mut point = with_colours(old_point(bytes, grid), bytes, 28);
            point.gps_time = u64_at(bytes, 20);
            point
        }
        Format::F6 => new_point(bytes, grid),
        Format::F7 => with_colours(new_point(bytes, grid), bytes, 30),
        Format::F8 => {
            let mut point = with_colours(new_point(bytes, grid), bytes, 30);
            point.infrared = u16_at(bytes, 36);
            point
        }
    }
}

/// The point of a record, of which at least the bytes of the format are there; bytes behind them aren't looked at.
///
/// It answers for all bytes. Each offset of the grid is at most 10^18 nanounits in size. Coordinates and angles are in
/// nanounits, and the dimensions that the format lacks are 0. What `encode` makes of the point is the record again.
pub fn decode(format: Format, bytes: &[u8], grid: &Grid) -> Point
    requires size { format_size format ≤ length bytes.now }
    requires near { IsNear grid.now }
    ensures value { result ≡ decoded format grid.now bytes.now }
    ensures written_back { encoded format grid.now result ≡ Ok (take (format_size format) bytes.now) }
{
    known_steps(grid);
    point_of(format, bytes, grid)
}
