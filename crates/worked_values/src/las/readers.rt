//! All places of a coordinate, the lists of a file, and extra dimensions.

ghost use Rattle.std.specs.Prelude.{◌+◌, ◌≤◌, All, IfSome};
ghost use Rattle.cloud_points.specs.ExtraFields.{kind_size};

use crate::pieces::put_bytes;
use cloud_points::{Dim, ExtraField, ExtraKind, FieldList, Make, PointFault, Spread, StageFault};
use decimal_coords::Scale;
use file_devices::{MemIn, Name};
use las_reader::{
    LasReader, cut_is_the_first, steps_come_to_the_end, steps_give_file, steps_stay_within,
    without_fields,
};
use las_vlr::VlrList;
use recorded_files::two_points;
use std::alloc::Global;

/// The file with bytes of its own in some places.
fn patched(alloc: Global, file: &[u8], patches: &[(usize, &[u8])]) -> Option<Vec<u8>> {
    let mut bytes = Vec::from_slice(alloc, file).ok()?;
    let mut has_room = true;
    for &(place, piece) in patches {
        has_room &= put_bytes(bytes.as_mut_slice(), place, piece);
    }
    if has_room { Some(bytes) } else { None }
}

/// A source of these bytes, that gives seven at a time.
fn source(alloc: Global, las: Vec<u8>) -> MemIn {
    MemIn::new(las, 7, Vec::new(alloc))
}

/// The X of the only point of a file's first chunk of one.
fn first_x(alloc: Global, las: Vec<u8>) -> Option<i64> {
    let Ok(mut reader) = LasReader::begin(alloc, source(alloc, las)) else {
        return None;
    };
    let mut points = Spread::new();
    let made = reader.next(1, &mut points);
    drop(reader.release());
    match points.as_slice() {
        [point] if made == Make::Points => Some(point.x),
        _ => None,
    }
}

pub fn an_offset_may_be_a_third(alloc: Global) -> bool {
    steps_give_file();
    steps_come_to_the_end();
    cut_is_the_first();
    steps_stay_within();
    without_fields();
    let patches: [(usize, &[u8]); 3] = [
        (131, &0x3FF0_0000_0000_0000u64.to_le_bytes()),
        (155, &0x3FD5_5555_5555_5555u64.to_le_bytes()),
        (375, &1i32.to_le_bytes()),
    ];
    match patched(alloc, &two_points(), &patches) {
        Some(las) => first_x(alloc, las) == Some(1_333_333_333),
        None => false,
    }
}

/// A file of two points with one VLR and one EVLR.
fn with_lists(alloc: Global) -> Option<Vec<u8>> {
    let whole = two_points();
    let pieces: [(usize, &[u8]); 16] = [
        (0, &whole[..375]),
        (96, &[0xB0]),
        (100, &[1]),
        (235, &[0xD8, 1]),
        (243, &[1]),
        // the VLR
        (377, b"lasline"),
        (393, &[7]),
        (395, &[3]),
        (397, b"plain"),
        (429, b"abc"),
        (432, &whole[375..]),
        // the EVLR
        (474, b"lasline"),
        (490, &[8]),
        (492, &[2]),
        (500, b"extended"),
        (532, b"de"),
    ];
    patched(alloc, &[0; 534], &pieces)
}

/// The only record of a list, as its id, the beginning of its description and its payload.
fn only(list: &VlrList) -> Option<(u16, &[u8], &[u8])> {
    match list.as_slice() {
        [record] => Some((record.id, record.text.get(..8)?, record.payload.as_slice())),
        _ => None,
    }
}

/// Whether the lists of the file are given, and its count.
fn has_lists(reader: &LasReader<MemIn>) -> bool {
    reader.header().points() == 2
        && only(reader.vlrs()) == Some((7, b"plain\0\0\0".as_slice(), b"abc".as_slice()))
        && only(reader.evlrs()) == Some((8, b"extended".as_slice(), b"de".as_slice()))
}

pub fn the_lists_of_a_file_are_given(alloc: Global) -> bool {
    let Some(las) = with_lists(alloc) else {
        return false;
    };
    let Ok(reader) = LasReader::begin(alloc, source(alloc, las)) else {
        return false;
    };
    let right = has_lists(&reader);
    drop(reader.release());
    right
}

/// The file of two points, with eight bytes more in each record: these numbers.
fn with_numbers(alloc: Global, first: i64, second: i64) -> Option<Vec<u8>> {
    let whole = two_points();
    let pieces: [(usize, &[u8]); 5] = [
        (0, &whole[..395]),
        (105, &[28]),
        (395, &first.to_le_bytes()),
        (403, &whole[395..]),
        (423, &second.to_le_bytes()),
    ];
    patched(alloc, &[0; 431], &pieces)
}

/// A field of hundredths at byte 20 of records of 28 bytes, for the fourth of the extra dimensions.
fn hundredths(alloc: Global) -> Option<FieldList>
    ensures within { IfSome result (λ fields. All (λ f. f.at + kind_size f.kind ≤ 28) fields) }
    ensures places { IfSome result (λ fields. All (λ f. f.place ≤ 7) fields) }
{
    let scale = Scale::new(10_000_000)?;
    let name = Name::new(String::from_str(alloc, "Height").ok()?);
    let mut fields = Vec::new(alloc);
    fields
        .push(ExtraField {
            name,
            place: 3,
            kind: ExtraKind::I64,
            at: 20,
            scale,
            offset: 0,
        })
        .ok()?;
    Some(FieldList::new(fields))
}

/// The values of the fourth extra dimension in a spread, from the last on.
fn fourths(points: &Spread) -> (i64, i64) {
    let mut last = 0;
    let mut before = 0;
    for point in points {
        before = last;
        last = point.extra[3];
    }
    (last, before)
}

/// What is told of the first chunk of two points and of the two behind it: what was made, how many points the first has, and the
/// fourth extra dimension of its last point and of the one before.
type Told = ([Make; 3], usize, (i64, i64));

/// What is told of the file of these numbers.
fn told(alloc: Global, first: i64, second: i64) -> Option<Told> {
    let las = with_numbers(alloc, first, second)?;
    let fields = hundredths(alloc)?;
    let Ok(mut reader) = LasReader::begin(alloc, source(alloc, las)) else {
        return None;
    };
    if reader.header().record_length == 28 {
        reader.set_fields(fields);
    }
    let mut points = Spread::new();
    let made = reader.next(2, &mut points);
    let (count, values) = (points.len(), fourths(&points));
    let behind = [reader.next(2, &mut points), reader.next(2, &mut points)];
    drop(reader.release());
    Some(([made, behind[0], behind[1]], count, values))
}

pub fn extra_dimensions_are_read(alloc: Global) -> bool {
    let made = [Make::Points, Make::EndView, Make::End(false, None)];
    told(alloc, 250, -1) == Some((made, 2, (-10_000_000, 2_500_000_000)))
}

pub fn a_value_out_of_range_ends_a_file(alloc: Global) -> bool {
    let fault = StageFault::Point(PointFault::ValueOutOfRange(1, Dim::Extra(3)));
    let made = [
        Make::Points,
        Make::End(true, Some(fault)),
        Make::End(true, None),
    ];
    let values = (4_000_000_000_000_000_000, 0);
    told(alloc, 400_000_000_000, 400_000_000_001) == Some((made, 1, values))
}
