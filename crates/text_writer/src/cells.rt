//! The cells of a line.

ghost use Rattle.std.specs.Prelude.{◌≡◌, ◌+◌, ◌≤◌, ◌<◌, ◌++◌, ◌∷◌, length, take, drop};
ghost use Rattle.cloud_points.specs.Dims.{kind_of};
ghost use Rattle.cloud_points.specs.Points.{get, whole};
ghost use Rattle.cloud_points.specs.declared.dims.Kind.TheVariants.{Fixed, Whole};
ghost use Rattle.decimal_coords.specs.Fixed.{fixed_text};
ghost use Rattle.text_writer.specs.Cells.{hex_digit, last_hex, cell};

use crate::Column;
use cloud_points::{Dim, Kind, Point};
use decimal_coords::put_fixed;
use itoa::write_digits;

/// The value in a fixed dimension in nanounits, and 0 for the others.
fn nano_of(point: &Point, dim: Dim) -> i64
    ensures { kind_of dim ≡ Fixed → result ≡ get point.now dim }
{
    match dim {
        Dim::X => point.x,
        Dim::Y => point.y,
        Dim::Z => point.z,
        Dim::ScanAngleRank => point.scan_angle_rank,
        Dim::Extra(place) => point.extra[place.min(7) as usize],
        _ => 0,
    }
}

/// The value in a dimension of whole numbers, and 0 for the others.
fn whole_of(point: &Point, dim: Dim) -> u16
    ensures { kind_of dim ≡ Whole → get point.now dim ≡ whole result }
{
    match dim {
        Dim::Intensity => point.intensity,
        Dim::ReturnNumber => point.return_number as u16,
        Dim::NumberOfReturns => point.number_of_returns as u16,
        Dim::ScanDirectionFlag => point.scan_direction_flag as u16,
        Dim::EdgeOfFlightLine => point.edge_of_flight_line as u16,
        Dim::Classification => point.classification as u16,
        Dim::Synthetic => point.synthetic as u16,
        Dim::KeyPoint => point.key_point as u16,
        Dim::Withheld => point.withheld as u16,
        Dim::Overlap => point.overlap as u16,
        Dim::ScanChannel => point.scan_channel as u16,
        Dim::UserData => point.user_data as u16,
        Dim::PointSourceId => point.point_source_id,
        Dim::Red => point.red,
        Dim::Green => point.green,
        Dim::Blue => point.blue,
        Dim::Infrared => point.infrared,
        _ => 0,
    }
}

/// The byte of a hexadecimal digit.
fn hex_digit(digit: u8) -> u8
    requires { digit < 16 }
    ensures { result ≡ hex_digit digit }
{
    if digit < 10 {
        b'0' + digit
    } else {
        b'a' - 10 + digit
    }
}

/// Writes the 16 hexadecimal digits of a word so that they end at `end`.
fn put_hex(word: u64, line: &mut [u8], end: usize) -> usize
    requires room { 16 ≤ end }
    requires within { end ≤ length line.old }
    ensures start { result + 16 ≡ end }
    ensures written { drop result line.new ≡ last_hex 16 word ++ drop end line.old }
{
    let mut rest = word;
    let mut count = 0;
    while count < 16 {
        count += 1;
        line[end - count] = hex_digit((rest % 16) as u8);
        rest /= 16;
    }
    end - 16
}

/// Writes a time's word so that it ends at `end`.
#[inline(never)]
fn put_time(word: u64, line: &mut [u8], end: usize) -> usize
    requires room { 18 ≤ end }
    requires within { end ≤ length line.old }
    ensures start { result + 18 ≡ end }
    ensures written { drop result line.new ≡ 48 ∷ 120 ∷ (last_hex 16 word ++ drop end line.old) }
{
    let at = put_hex(word, line, end);
    line[at - 1] = b'x';
    line[at - 2] = b'0';
    at - 2
}

/// Writes a value in nanounits so that it ends at `end`.
fn put_value(nano: i64, places: u32, line: &mut [u8], end: usize) -> usize
    requires places { places ≤ 9 }
    requires room { 21 ≤ end }
    requires within { end ≤ length line.old }
    ensures start { result ≤ end }
    ensures short { end ≤ result + 21 }
    ensures written { drop result line.new ≡ fixed_text nano places ++ drop end line.old }
{
    put_fixed(nano, places, line, end)
}

/// The same, in which the usual numbers of places are constants, so that the compiler knows the divisors.
fn put_nano(nano: i64, places: u32, line: &mut [u8], end: usize) -> usize
    requires places { places ≤ 9 }
    requires room { 21 ≤ end }
    requires within { end ≤ length line.old }
    ensures start { result ≤ end }
    ensures short { end ≤ result + 21 }
    ensures written { drop result line.new ≡ fixed_text nano places ++ drop end line.old }
{
    match places {
        2 => put_value(nano, 2, line, end),
        3 => put_value(nano, 3, line, end),
        _ => put_value(nano, places, line, end),
    }
}

/// Writes a point's value in a dimension of whole numbers so that it ends at `end`.
#[inline(never)]
fn put_whole(point: &Point, dim: Dim, line: &mut [u8], end: usize) -> usize
    requires room { 21 ≤ end }
    requires within { end ≤ length line.old }
    ensures start { result ≤ end }
    ensures short { end ≤ result + 21 }
    ensures written { kind_of dim ≡ Whole
        → drop result line.new ≡ fixed_text (get point.now dim) 0 ++ drop end line.old }
{
    write_digits(whole_of(point, dim) as u64, line, end)
}

/// Writes a cell so that it ends at `end`, and answers where it starts.
pub(crate) fn put_cell(point: &Point, column: &Column, line: &mut [u8], end: usize) -> usize
    requires places { column.now.places ≤ 9 }
    requires room { 21 ≤ end }
    requires within { end ≤ length line.old }
    ensures start { result ≤ end }
    ensures short { end ≤ result + 21 }
    ensures written { drop result line.new ≡ cell point.now column.now ++ drop end line.old }
{
    match column.dim.kind() {
        Kind::Fixed => put_nano(nano_of(point, column.dim), column.places, line, end),
        Kind::Whole => put_whole(point, column.dim, line, end),
        Kind::Word => put_time(point.gps_time, line, end),
    }
}
