//! Writes points as records.

ghost use Rattle.std.specs.Prelude.{◌≡◌, ◌+◌, ◌*◌, ◌^◌, ◌<◌, ◌≤◌, ◌++◌, length, take, drop, Ok, Err, IfOk, IfErr, OnErr};
ghost use Rattle.std.specs.Int.{w16, w64, to_le_bytes};
ghost use Rattle.las_header.specs.Formats.{format_size};
ghost use Rattle.las_header.specs.declared.form.Format.TheVariants.{F0, F6};
ghost use Rattle.point_formats.specs.Grids.{IsNear};
ghost use Rattle.point_formats.specs.Formats.{old_returns, old_class, new_returns, new_flags};
ghost use Rattle.point_formats.specs.Records.{decoded};
ghost use Rattle.point_formats.specs.Returning.{FitsTypes, IsOfFormat};
ghost use Rattle.point_formats.specs.Encoded.{encoded, field_number, bits_number, raw_number, raw_numbers};

use crate::angles::{angle_steps, degrees};
use crate::{Grid, ReadyGrid};
use byte_numbers::{known_u8, known_u16, known_u64};
use cloud_points::{Dim, Point};
use las_header::Format;
use thiserror::Error;

/// Why a record doesn't hold a point.
#[derive(Clone, Copy, Debug, PartialEq, Eq, Error)]
pub enum EncodeFault {
    /// The raw number of this coordinate leaves 32 bits.
    #[error("a coordinate leaves the range of the grid")]
    NotHeld(Dim),
    /// The value in this dimension leaves its field.
    #[error("a value leaves the range of its field")]
    ValueOutOfRange(Dim),
}

/// The raw number on an axis that is nearest to a coordinate.
#[tactic(auto, unfolding(crate::specs::Encoded::raw_number))]
#[inline(always)]
fn raw_number(grid: &ReadyGrid, dim: Dim, axis: usize, nano: i64) -> Result<i32, EncodeFault>
    requires axis { axis < 3 }
    requires near { IsNear grid.now }
    ensures { result ≡ raw_number grid.now dim axis nano }
{
    match grid.raw_on(axis, nano) {
        Ok(number) => Ok(number),
        Err(_) => Err(EncodeFault::NotHeld(dim)),
    }
}

/// The raw numbers of a point on X, Y and Z, which are those that its record in a file with this grid has.
///
/// Each offset of the grid is at most 10^18 nanounits in size. The raw number on an axis is the one nearest to the
/// coordinate, a half away from zero. The first that leaves 32 bits is refused, as `NotHeld` with its dimension.
#[inline(always)]
pub fn raw_numbers(grid: &ReadyGrid, p: &Point) -> Result<[i32; 3], EncodeFault>
    requires near { IsNear grid.now }
    ensures value { result ≡ raw_numbers grid.now p.now }
{
    let x = raw_number(grid, Dim::X, 0, p.x)?;
    let y = raw_number(grid, Dim::Y, 1, p.y)?;
    let z = raw_number(grid, Dim::Z, 2, p.z)?;
    Ok([x, y, z])
}

/// The value of a bit field, which is to be below a bound.
fn field(dim: Dim, value: u8, bound: u8) -> Result<u8, EncodeFault>
    ensures value { result ≡ field_number dim bound value }
    ensures small { IfOk result (λ number. number < bound) }
{
    if value < bound {
        Ok(value)
    } else {
        Err(EncodeFault::ValueOutOfRange(dim))
    }
}

/// Byte 14 in formats 0 to 3.
#[tactic(auto, unfolding(crate::specs::Encoded::bits_number))]
fn old_returns(p: &Point) -> Result<u8, EncodeFault>
    ensures { result ≡ bits_number p.now old_returns }
{
    let number = field(Dim::ReturnNumber, p.return_number, 8)?;
    let count = field(Dim::NumberOfReturns, p.number_of_returns, 8)?;
    let direction = field(Dim::ScanDirectionFlag, p.scan_direction_flag, 2)?;
    let edge = field(Dim::EdgeOfFlightLine, p.edge_of_flight_line, 2)?;
    Ok(number + 8 * count + 64 * direction + 128 * edge)
}

/// Byte 15 in formats 0 to 3.
#[tactic(auto, unfolding(crate::specs::Encoded::bits_number))]
fn old_class(p: &Point) -> Result<u8, EncodeFault>
    ensures { result ≡ bits_number p.now old_class }
{
    let class = field(Dim::Classification, p.classification, 32)?;
    let synthetic = field(Dim::Synthetic, p.synthetic, 2)?;
    let key_point = field(Dim::KeyPoint, p.key_point, 2)?;
    let withheld = field(Dim::Withheld, p.withheld, 2)?;
    Ok(class + 32 * synthetic + 64 * key_point + 128 * withheld)
}

/// Byte 14 in formats 6 to 8.
#[tactic(auto, unfolding(crate::specs::Encoded::bits_number))]
fn new_returns(p: &Point) -> Result<u8, EncodeFault>
    ensures { result ≡ bits_number p.now new_returns }
{
    let number = field(Dim::ReturnNumber, p.return_number, 16)?;
    let count = field(Dim::NumberOfReturns, p.number_of_returns, 16)?;
    Ok(number + 16 * count)
}

/// Byte 15 in formats 6 to 8.
#[tactic(auto, unfolding(crate::specs::Encoded::bits_number))]
fn new_flags(p: &Point) -> Result<u8, EncodeFault>
    ensures { result ≡ bits_number p.now new_flags }
{
    let synthetic = field(Dim::Synthetic, p.synthetic, 2)?;
    let key_point = field(Dim::KeyPoint, p.key_point, 2)?;
    let withheld = field(Dim::Withheld, p.withheld, 2)?;
    let overlap = field(Dim::Overlap, p.overlap, 2)?;
    let channel = field(Dim::ScanChannel, p.scan_channel, 4)?;
    let direction = field(Dim::ScanDirectionFlag, p.scan_direction_flag, 2)?;
    let edge = field(Dim::EdgeOfFlightLine, p.edge_of_flight_line, 2)?;
    let kinds = synthetic + 2 * key_point + 4 * withheld + 8 * overlap;
    Ok(kinds + 16 * channel + 64 * direction + 128 * edge)
}

/// The record of format 0, with which those of formats 1 to 3 begin.
#[inline(always)]
fn old_record(p: &Point, grid: &ReadyGrid) -> Result<[u8; 20], EncodeFault>
    requires near { IsNear grid.now }
    ensures { result ≡ encoded F0 grid.now p.now }
{
    let [x, y, z] = raw_numbers(grid, p)?;
    let returns = old_returns(p)?;
    let class = old_class(p)?;
    let angle = degrees(p.scan_angle_rank)?;
    let x = x.to_le_bytes();
    let y = y.to_le_bytes();
    let z = z.to_le_bytes();
    let light = p.intensity.to_le_bytes();
    let user = p.user_data.to_le_bytes();
    let angle = angle.to_le_bytes();
    let source = p.point_source_id.to_le_bytes();
    Ok([
        x[0], x[1], x[2], x[3], y[0], y[1], y[2], y[3], z[0], z[1], z[2], z[3], light[0], light[1],
        returns, class, angle[0], user[0], source[0], source[1],
    ])
}

/// The record of format 6, with which those of formats 7 and 8 begin.
#[inline(always)]
fn new_record(p: &Point, grid: &ReadyGrid) -> Result<[u8; 30], EncodeFault>
    requires near { IsNear grid.now }
    ensures { result ≡ encoded F6 grid.now p.now }
{
    let [x, y, z] = raw_numbers(grid, p)?;
    let returns = new_returns(p)?;
    let flags = new_flags(p)?;
    let angle = angle_steps(p.scan_angle_rank)?;
    let x = x.to_le_bytes();
    let y = y.to_le_bytes();
    let z = z.to_le_bytes();
    let light = p.intensity.to_le_bytes();
    let class = p.classification.to_le_bytes();
    let user = p.user_data.to_le_bytes();
    let angle = angle.to_le_bytes();
    let source = p.point_source_id.to_le_bytes();
    let time = p.gps_time.to_le_bytes();
    Ok([
        x[0], x[1], x[2], x[3], y[0], y[1], y[2], y[3], z[0], z[1], z[2], z[3], light[0], light[1],
        returns, flags, class[0], user[0], angle[0], angle[1], source[0], source[1], time[0],
        time[1], time[2], time[3], time[4], time[5], time[6], time[7],
    ])
}

/// The bytes of the colours.
fn colours(p: &Point) -> [u8; 6]
    ensures { result ≡ to_le_bytes w16 p.now.red
        ++ (to_le_bytes w16 p.now.green ++ to_le_bytes w16 p.now.blue) }
{
    let red = p.red.to_le_bytes();
    let green = p.green.to_le_bytes();
    let blue = p.blue.to_le_bytes();
    [red[0], red[1], green[0], green[1], blue[0], blue[1]]
}

/// The bytes of the time and the colours.
fn timed_colours(p: &Point) -> [u8; 14]
    ensures { result ≡ to_le_bytes w64 p.now.gps_time ++ (to_le_bytes w16 p.now.red ++ (to_le_bytes w16 p.now.green
        ++ to_le_bytes w16 p.now.blue)) }
{
    let time = p.gps_time.to_le_bytes();
    let red = p.red.to_le_bytes();
    let green = p.green.to_le_bytes();
    let blue = p.blue.to_le_bytes();
    [
        time[0], time[1], time[2], time[3], time[4], time[5], time[6], time[7], red[0], red[1],
        green[0], green[1], blue[0], blue[1],
    ]
}

/// The bytes of the colours and the infrared.
fn infrared_colours(p: &Point) -> [u8; 8]
    ensures { result ≡ to_le_bytes w16 p.now.red ++ (to_le_bytes w16 p.now.green ++ (to_le_bytes w16 p.now.blue
        ++ to_le_bytes w16 p.now.infrared)) }
{
    let red = p.red.to_le_bytes();
    let green = p.green.to_le_bytes();
    let blue = p.blue.to_le_bytes();
    let near = p.infrared.to_le_bytes();
    [
        red[0], red[1], green[0], green[1], blue[0], blue[1], near[0], near[1],
    ]
}

/// Puts the two parts of a record at the front, one behind the other, and answers how many bytes they are.
#[inline(always)]
fn put_parts(out: &mut [u8], first: &[u8], rest: &[u8]) -> usize
    requires { length first.now + length rest.now ≤ length out.old }
    ensures size { result ≡ length first.now + length rest.now }
    ensures front { take result out.new ≡ first.now ++ rest.now }
    ensures after { drop result out.new ≡ drop result out.old }
{
    let size = first.len() + rest.len();
    out[..first.len()].copy_from_slice(first);
    out[first.len()..size].copy_from_slice(rest);
    size
}

/// The numbers of a point fit their types. It does nothing: its contract is what callers want.
fn known_numbers(p: &Point)
    ensures { FitsTypes p.now }
{
    known_u64(p.gps_time);
    known_u16(p.intensity);
    known_u16(p.point_source_id);
    known_u16(p.red);
    known_u16(p.green);
    known_u16(p.blue);
    known_u16(p.infrared);
    known_u8(p.classification);
    known_u8(p.user_data);
}

/// Puts the record of a point at the front of `out`, in which the bytes of the format have room.
fn put_record(
    format: Format,
    p: &Point,
    grid: &ReadyGrid,
    out: &mut [u8],
) -> Result<usize, EncodeFault>
    requires room { format_size format ≤ length out.old }
    requires near { IsNear grid.now }
    ensures ok { IfOk result (λ n. encoded format grid.now p.now ≡ Ok (take n out.new)) }
    ensures size { IfOk result (λ n. n ≡ format_size format) }
    ensures after { IfOk result (λ n. drop n out.new ≡ drop n out.old) }
    ensures refused { IfErr result (λ e. encoded format grid.now p.now ≡ Err e) }
    ensures unchanged { OnErr result (out.new ≡ out.old) }
{
    Ok(match format {
        Format::F0 => put_parts(out, &old_record(p, grid)?, &[]),
        Format::F1 => put_parts(out, &old_record(p, grid)?, &p.gps_time.to_le_bytes()),
        Format::F2 => put_parts(out, &old_record(p, grid)?, &colours(p)),
        Format::F3 => put_parts(out, &old_record(p, grid)?, &timed_colours(p)),
        Format::F6 => put_parts(out, &new_record(p, grid)?, &[]),
        Format::F7 => put_parts(out, &new_record(p, grid)?, &colours(p)),
        Format::F8 => put_parts(out, &new_record(p, grid)?, &infrared_colours(p)),
    })
}

/// Puts the record of a point at the front of `out`, in which the bytes of the format have room, and answers their
/// number. The bytes behind them stay as they were.
///
/// Each offset of the grid is at most 10^18 nanounits in size. A coordinate becomes the nearest raw number, a half away from
/// zero, and is refused as `NotHeld` exactly where that leaves 32 bits. An angle is rounded in the same way to degrees
/// or steps of 0.006 degree. A value that leaves its field is refused as `ValueOutOfRange`. Of several refusals the first in
/// the order of the record is told, and `out` is then as it was. Dimensions that the format lacks aren't written.
///
/// A point is what `decode` reads from its record where its coordinates are those of raw numbers, its angle is a whole
/// number of the steps in which the format counts angles, and the dimensions that the format lacks are 0, the extra ones
/// among them.
pub fn encode(format: Format, p: &Point, grid: &Grid, out: &mut [u8]) -> Result<usize, EncodeFault>
    requires room { format_size format ≤ length out.old }
    requires near { IsNear grid.now }
    ensures ok { IfOk result (λ n. encoded format grid.now p.now ≡ Ok (take n out.new)) }
    ensures size { IfOk result (λ n. n ≡ format_size format) }
    ensures read_back { IfOk result (λ n. IsOfFormat format grid.now p.now
        → decoded format grid.now (take n out.new) ≡ p.now) }
    ensures after { IfOk result (λ n. drop n out.new ≡ drop n out.old) }
    ensures refused { IfErr result (λ e. encoded format grid.now p.now ≡ Err e) }
    ensures unchanged { OnErr result (out.new ≡ out.old) }
{
    encode_ready(format, p, &ReadyGrid::of(grid), out)
}

/// Puts the record of a point at the front of `out`, as `encode` does, by a grid that was made ready for many points.
pub fn encode_ready(
    format: Format,
    p: &Point,
    grid: &ReadyGrid,
    out: &mut [u8],
) -> Result<usize, EncodeFault>
    requires room { format_size format ≤ length out.old }
    requires near { IsNear grid.now }
    ensures ok { IfOk result (λ n. encoded format grid.now p.now ≡ Ok (take n out.new)) }
    ensures size { IfOk result (λ n. n ≡ format_size format) }
    ensures read_back { IfOk result (λ n. IsOfFormat format grid.now p.now
        → decoded format grid.now (take n out.new) ≡ p.now) }
    ensures after { IfOk result (λ n. drop n out.new ≡ drop n out.old) }
    ensures refused { IfErr result (λ e. encoded format grid.now p.now ≡ Err e) }
    ensures unchanged { OnErr result (out.new ≡ out.old) }
{
    grid.known_steps();
    known_numbers(p);
    put_record(format, p, grid, out)
}
