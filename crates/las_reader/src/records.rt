//! Reads point data records.

ghost use Rattle.std.specs.Prelude.{◌≡◌, ◌+◌, ◌*◌, ◌^◌, ◌<◌, ◌≤◌, ◌++◌, ℕ, List, length, take, max, min, Some, None, IfOk, IfSome, IfNone, OnOk, vec_len};
ghost use Rattle.arrayvec.specs.ArrayVec.{array_vec_len};
ghost use Rattle.file_devices.specs.Counts.{HasCause};
ghost use Rattle.las_header.specs.Sound.{IsSound};
ghost use Rattle.las_reader.specs.Lists.{AreFields};
ghost use Rattle.las_reader.specs.Pieces.{HasRecords, HasPoints};
ghost use Rattle.las_reader.specs.Records.{point_of, point_with, points_from, out_from, out_or};
ghost use Rattle.point_formats.specs.Grids.{grid_of};

use cloud_points::{Dim, ExtraField, MOST_POINTS, Point, Spread};
use extra_bytes::get_fields;
use file_devices::{Failed, Source, fill};
use las_header::{Format, Header};
use point_formats::{Grid, decode};
use std::alloc::{AllocError, Global};

/// The most bytes of records that are read at once.
const MOST_BYTES: usize = 65_536;

/// Room for the records of the largest chunk, or for as many of them as `MOST_BYTES` hold.
pub(crate) fn record_buffer(alloc: Global, size: u16) -> Result<Vec<u8>, AllocError>
    requires { 0 < size }
    ensures room { IfOk result (λ buffer. size ≤ vec_len buffer) }
    ensures few { IfOk result (λ buffer. vec_len buffer ≤ MOST_BYTES) }
{
    let count = (MOST_BYTES / size as usize).min(MOST_POINTS);
    vec![in alloc; 0u8; count * size as usize]
}

/// The place of a record in its file, where a file can be that long.
fn place_of(header: &Header, number: u64) -> Option<u64>
    ensures some { IfSome result (λ at. at ≡ header.now.points_at + header.now.record_length * number) }
    ensures none { IfNone result (2 ^ 64 ≤ header.now.points_at + header.now.record_length * number) }
{
    number
        .checked_mul(header.record_length as u64)?
        .checked_add(header.points_at as u64)
}

/// Reads at most `most` records from number `given` on into a buffer, and answers how many are wholly there.
fn read_records<S: Source>(
    source: &mut S,
    header: &Header,
    given: u64,
    most: usize,
    buffer: &mut [u8],
) -> Result<usize, Failed>
    requires some { 0 < header.now.record_length }
    requires few { most ≤ 64 }
    requires room { header.now.record_length * most ≤ length buffer.old }
    ensures whole { IfOk result (λ n. (file : List ℕ) → S.bytes source.old ≡ Some file
        → HasRecords header.now file given most n buffer.new) }
    ensures most { IfOk result (λ n. n ≤ most) }
    ensures reached { S.reached source.new
        ≤ max (S.reached source.old) (header.now.points_at + header.now.record_length * (given + most)) }
    ensures bytes { S.bytes source.new ≡ S.bytes source.old }
    ensures cause { HasCause (S.faults source.old) (S.faults source.new) result }
    ensures len { length buffer.new ≡ length buffer.old }
{
    let Some(at) = place_of(header, given) else {
        return Ok(0);
    };
    let size = header.record_length as usize;
    let room = (size * most).min((u64::MAX - at) as usize);
    let count = fill(source, at, &mut buffer[..room])?;
    Ok(count / size)
}

/// The point of a record.
#[tactic(auto, unfolding(crate::specs::Records::point_of))]
#[inline(always)]
fn point_of(format: Format, header: &Header, grid: &Grid, bytes: &[u8]) -> Point
    requires sound { IsSound header.now }
    requires format { format ≡ header.now.format }
    requires grid { grid.now ≡ grid_of header.now }
    requires whole { header.now.record_length ≤ length bytes.now }
    ensures { result ≡ point_of header.now bytes.now }
{
    decode(format, bytes, grid)
}

/// Puts the points of `count` records, one after another, over those of a list from a place on. It stands in each arm of
/// `decode_over`, so that each loop is made for one format.
#[inline(always)]
fn decode_all(
    format: Format,
    header: &Header,
    records: &[u8],
    count: usize,
    at: usize,
    points: &mut [Point],
)
    requires sound { IsSound header.now }
    requires format { format ≡ header.now.format }
    requires room { at + count ≤ length points.old }
    requires whole { header.now.record_length * count ≤ length records.now }
    ensures { take (at + count) points.new
        ≡ take at points.old ++ points_from (point_of header.now) header.now.record_length 0 count
        records.now }
{
    let grid = Grid::of(header);
    let size = header.record_length as usize;
    for k in 0..count {
        points[at + k] = point_of(format, header, &grid, &records[size * k..size * k + size]);
    }
}

/// Puts the points of `count` records, one after another, over those of a list from a place on. It looks at the format
/// once, and not at each record.
fn decode_over(header: &Header, records: &[u8], count: usize, at: usize, points: &mut [Point])
    requires sound { IsSound header.now }
    requires room { at + count ≤ length points.old }
    requires whole { header.now.record_length * count ≤ length records.now }
    ensures { take (at + count) points.new
        ≡ take at points.old ++ points_from (point_of header.now) header.now.record_length 0 count
        records.now }
{
    match header.format {
        Format::F0 => decode_all(Format::F0, header, records, count, at, points),
        Format::F1 => decode_all(Format::F1, header, records, count, at, points),
        Format::F2 => decode_all(Format::F2, header, records, count, at, points),
        Format::F3 => decode_all(Format::F3, header, records, count, at, points),
        Format::F6 => decode_all(Format::F6, header, records, count, at, points),
        Format::F7 => decode_all(Format::F7, header, records, count, at, points),
        Format::F8 => decode_all(Format::F8, header, records, count, at, points),
    }
}

/// Makes a spread as long as wanted, at least.
fn grow(into: &mut Spread, size: usize)
    requires { size ≤ 64 }
    ensures front { take (array_vec_len into.old) into.new.items ≡ into.old.items }
    ensures len { size ≤ array_vec_len into.new }
{
    while into.len() < size {
        into.push(Point::zero());
    }
}

/// Puts the points of `count` records, one after another, into a spread from a place on, over those that are there.
fn decode_from(header: &Header, records: &[u8], count: usize, at: usize, into: &mut Spread)
    requires sound { IsSound header.now }
    requires place { at ≤ array_vec_len into.old }
    requires room { at + count ≤ 64 }
    requires whole { header.now.record_length * count ≤ length records.now }
    ensures items { take (at + count) into.new.items
        ≡ take at into.old.items ++ points_from (point_of header.now) header.now.record_length 0 count
        records.now }
    ensures len { at + count ≤ array_vec_len into.new }
{
    grow(into, at + count);
    decode_over(header, records, count, at, into.as_mut_slice());
}

/// How many records were decoded, and where the next one has a value that no point holds, its dimension.
#[derive(Clone, Copy)]
struct Held {
    count: usize,
    out: Option<Dim>,
}

/// Sets the extra dimensions of `count` points of a list, from a place on, to the values of fields in their records, up to
/// the first record with a value that no point holds.
fn add_fields(
    header: &Header,
    fields: &[ExtraField],
    records: &[u8],
    count: usize,
    at: usize,
    points: &mut [Point],
) -> Held
    requires fields { AreFields header.now.record_length fields.now }
    requires room { at + count ≤ length points.old }
    requires whole { header.now.record_length * count ≤ length records.now }
    requires decoded { take (at + count) points.old
        ≡ take at points.old ++ points_from (point_of header.now) header.now.record_length 0 count records.now }
    ensures points { take (at + result.count) points.new
        ≡ take at points.old ++ points_from (point_with header.now fields.now) header.now.record_length 0
        result.count records.now }
    ensures out { out_from fields.now header.now.record_length 0 count records.now
        ≡ out_or result.count result.out None }
    ensures all { result.out ≡ None → result.count ≡ count }
    ensures most { result.count ≤ count }
{
    let size = header.record_length as usize;
    for k in 0..count {
        if let Err(dim) = get_fields(
            fields,
            &records[size * k..size * k + size],
            &mut points[at + k],
        ) {
            return Held {
                count: k,
                out: Some(dim),
            };
        }
    }
    Held { count, out: None }
}

/// Puts the points of `count` records, one after another, into a spread from a place on, over those that are there, up to the
/// first record with a value that no point holds.
fn decode_with(
    header: &Header,
    fields: &[ExtraField],
    records: &[u8],
    count: usize,
    at: usize,
    into: &mut Spread,
) -> Held
    requires sound { IsSound header.now }
    requires fields { AreFields header.now.record_length fields.now }
    requires place { at ≤ array_vec_len into.old }
    requires room { at + count ≤ 64 }
    requires whole { header.now.record_length * count ≤ length records.now }
    ensures items { take (at + result.count) into.new.items
        ≡ take at into.old.items ++ points_from (point_with header.now fields.now) header.now.record_length 0
        result.count records.now }
    ensures out { out_from fields.now header.now.record_length 0 count records.now
        ≡ out_or result.count result.out None }
    ensures all { result.out ≡ None → result.count ≡ count }
    ensures most { result.count ≤ count }
    ensures len { at + count ≤ array_vec_len into.new }
{
    decode_from(header, records, count, at, into);
    if fields.is_empty() {
        return Held { count, out: None };
    }
    add_fields(header, fields, records, count, at, into.as_mut_slice())
}

/// Puts the points of at most `most` records from number `given` on over what a spread holds, and answers how many they
/// are. They are fewer only where the file ends before the next record is whole, or that has a value which no point holds.
fn read_over<S: Source>(
    source: &mut S,
    header: &Header,
    fields: &[ExtraField],
    given: u64,
    most: usize,
    buffer: &mut [u8],
    into: &mut Spread,
) -> Result<Held, Failed>
    requires sound { IsSound header.now }
    requires fields { AreFields header.now.record_length fields.now }
    requires few { most ≤ 64 }
    requires end { given + most < 2 ^ 64 }
    requires room { header.now.record_length ≤ length buffer.old }
    ensures points { IfOk result (λ held. (file : List ℕ) → S.bytes source.old ≡ Some file
        → HasPoints header.now fields.now file given most (take held.count into.new.items) held.out) }
    ensures most { IfOk result (λ held. held.count ≤ most) }
    ensures there { IfOk result (λ held. held.count ≤ array_vec_len into.new) }
    ensures reached { S.reached source.new
        ≤ max (S.reached source.old) (header.now.points_at + header.now.record_length * (given + most)) }
    ensures bytes { S.bytes source.new ≡ S.bytes source.old }
    ensures cause { HasCause (S.faults source.old) (S.faults source.new) result }
{
    let room = buffer.len() / header.record_length as usize;
    let mut done = 0;
    while done < most {
        let wanted = (most - done).min(room);
        let whole = read_records(source, header, given + done as u64, wanted, buffer)?;
        let held = decode_with(header, fields, buffer, whole, done, into);
        done += held.count;
        if held.count < wanted {
            return Ok(Held {
                count: done,
                out: held.out,
            });
        }
    }
    Ok(Held {
        count: done,
        out: None,
    })
}

/// Puts the points of at most `most` records from number `given` on in place of what a spread holds, with the values of
/// `fields` in their extra dimensions. They are fewer only where the file ends before the next record is whole, or where
/// that has a value which no point holds: then it answers the dimension.
///
/// It writes over the points that are there, since a spread that is emptied blanks them.
pub(crate) fn read_points<S: Source>(
    source: &mut S,
    header: &Header,
    fields: &[ExtraField],
    given: u64,
    most: usize,
    buffer: &mut [u8],
    into: &mut Spread,
) -> Result<Option<Dim>, Failed>
    requires sound { IsSound header.now }
    requires fields { AreFields header.now.record_length fields.now }
    requires few { most ≤ 64 }
    requires end { given + most < 2 ^ 64 }
    requires room { header.now.record_length ≤ length buffer.old }
    ensures points { IfOk result (λ out. (file : List ℕ) → S.bytes source.old ≡ Some file
        → HasPoints header.now fields.now file given most into.new.items out) }
    ensures most { OnOk result (array_vec_len into.new ≤ most) }
    ensures reached { S.reached source.new
        ≤ max (S.reached source.old) (header.now.points_at + header.now.record_length * (given + most)) }
    ensures bytes { S.bytes source.new ≡ S.bytes source.old }
    ensures cause { HasCause (S.faults source.old) (S.faults source.new) result }
{
    let held = read_over(source, header, fields, given, most, buffer, into)?;
    into.truncate(held.count);
    Ok(held.out)
}
