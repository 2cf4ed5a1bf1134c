//! Records and the points that they stand for.

ghost use Rattle.std.specs.Prelude.{IfSome};
ghost use Rattle.point_formats.specs.Grids.{IsNear, IsNearOffset};

mod decoded;
mod encoded;
mod rows;

use cloud_points::Point;
use decimal_coords::Scale;
use decoded::DECODED;
use encoded::ENCODED;
use point_formats::{Grid, decode, encode, numbers_return, records_are_whole};
use rows::Row;

/// An offset, or 0 where it is too far.
fn near(nano: i64) -> i64
    ensures { IsNearOffset result }
{
    if nano.unsigned_abs() > 1_000_000_000_000_000_000 {
        0
    } else {
        nano
    }
}

/// The grid of these scales and offsets.
fn grid_of(n: &[i64; 6]) -> Option<Grid>
    ensures { IfSome result IsNear }
{
    let scale = [Scale::new(n[0])?, Scale::new(n[1])?, Scale::new(n[2])?];
    let offset = [near(n[3]), near(n[4]), near(n[5])];
    Some(Grid { scale, offset })
}

fn point_of(row: &Row) -> Point {
    let [x, y, z, scan_angle_rank] = row.nano;
    let (words, bytes) = (&row.words, &row.bytes);
    Point {
        x,
        y,
        z,
        scan_angle_rank,
        gps_time: row.time,
        extra: [0; 8],
        intensity: words[0],
        point_source_id: words[1],
        red: words[2],
        green: words[3],
        blue: words[4],
        infrared: words[5],
        return_number: bytes[0],
        number_of_returns: bytes[1],
        scan_direction_flag: bytes[2],
        edge_of_flight_line: bytes[3],
        classification: bytes[4],
        synthetic: bytes[5],
        key_point: bytes[6],
        withheld: bytes[7],
        overlap: bytes[8],
        scan_channel: bytes[9],
        user_data: bytes[10],
    }
}

/// Whether `decode` reads the point of a row from its record.
fn is_read(row: &Row) -> bool {
    let (Some(grid), Ok(record)) = (grid_of(&row.grid), row.record) else {
        return false;
    };
    let size = row.format.size() as usize;
    decode(row.format, &record[..size], &grid) == point_of(row)
}

/// Whether `encode` writes the record of a row over 7s, or answers why it can't and leaves them.
fn is_written(row: &Row) -> bool {
    let Some(grid) = grid_of(&row.grid) else {
        return false;
    };
    let mut out = [7; 39];
    let answer = encode(row.format, &point_of(row), &grid, &mut out);
    let mut wanted = [7; 39];
    match (answer, row.record) {
        (Ok(written), Ok(record)) => {
            let size = row.format.size() as usize;
            wanted[..size].copy_from_slice(&record[..size]);
            written == size && out == wanted
        }
        (Err(fault), Err(expected)) => fault == expected && out == wanted,
        _ => false,
    }
}

pub fn records_stand_for_points() -> bool {
    let mut right = true;
    for row in &DECODED {
        right &= is_read(row);
    }
    numbers_return();
    records_are_whole();
    right
}

pub fn points_are_written_as_records() -> bool {
    let mut right = true;
    for row in &ENCODED {
        right &= is_written(row);
    }
    right
}
