//! Files that are written onto sinks in memory.

use super::samples::{BOUNDS, at_height, new_point, old_points, plain, with_heights};
use crate::pieces::{Piece, has_pieces};
use cloud_points::{Dim, MOST_POINTS, Point};
use decimal_coords::Scale;
use file_devices::{MemOut, SureOut};
use las_header::{Format, is_version, takes_format};
use las_writer::{ChunkErr, LasBeginErr, LasWriter, PutFault, RecordFault, RefusedPoint};
use std::alloc::Global;

/// Pieces of a file without points, in format 3, and their places.
const EMPTY: [Piece; 7] = [
    (0, b"LASF"),
    (24, &[1, 4]),
    (26, b"lasline\0"),
    (58, b"lasline 1\0"),
    (94, &[0x77, 1, 0x77, 1, 0, 0]),
    (104, &[3, 0x22, 0]),
    (147, &[0x7B, 0x14, 0xAE, 0x47, 0xE1, 0x7A, 0x84, 0x3F]),
];

/// Two records of format 0.
const RECORDS: [u8; 40] = [
    0x64, 0, 0, 0, 0xC8, 0, 0, 0, 0x2C, 1, 0, 0, 0, 0, 9, 2, 0, 0, 0, 0, 0xFF, 0xFF, 0xFF, 0xFF, 0,
    0, 0, 0, 5, 0, 0, 0, 0, 0, 9, 2, 0, 0, 0, 0,
];

/// Pieces of a file of two points in format 0: legacy counts, bounds, counts and records.
const TWO: [Piece; 4] = [
    (107, &[2, 0, 0, 0, 2, 0, 0, 0]),
    (179, &BOUNDS),
    (247, &[2, 0, 0, 0, 0, 0, 0, 0, 2, 0, 0, 0, 0, 0, 0, 0]),
    (375, &RECORDS),
];

/// Pieces of such files of 1.2 and 1.3, whose block ends with the bounds, or with the start of the waveform packets.
const TWO_OF_1_2: [Piece; 6] = [
    (24, &[1, 2]),
    (94, &[0xE3, 0, 0xE3, 0, 0, 0, 0, 0, 0, 0]),
    (104, &[0, 0x14, 0]),
    (107, &[2, 0, 0, 0, 2, 0, 0, 0]),
    (179, &BOUNDS),
    (227, &RECORDS),
];

const TWO_OF_1_3: [Piece; 6] = [
    (24, &[1, 3]),
    (94, &[0xEB, 0, 0xEB, 0, 0, 0, 0, 0, 0, 0]),
    (107, &[2, 0, 0, 0, 2, 0, 0, 0]),
    (179, &BOUNDS),
    (227, &[0; 8]),
    (235, &RECORDS),
];

/// Pieces of a file of one point in format 6: the encoding, no legacy counts, the counts and the record.
const NEW: [Piece; 4] = [
    (6, &[16, 0]),
    (107, &[0; 8]),
    (319, &[1]),
    (
        375,
        &[
            0x64, 0, 0, 0, 0xC8, 0, 0, 0, 0x2C, 1, 0, 0, 5, 0, 0x99, 0x60, 2, 7, 0xC4, 9, 1, 0, 0,
            0, 0, 0, 0, 0, 0xF0, 0x3F,
        ],
    ),
];

/// Pieces of a file of two points in format 0 with heights of 2.50 and -0.01 in steps of 0.1: where the points begin, the VLR and the
/// length of a record, the user and the number of the VLR, its descriptor and the word of 0.1 in it, and the heights.
const HIGH: [Piece; 7] = [
    (96, &[0x6D, 2, 0, 0, 1, 0, 0, 0, 0, 0x16, 0]),
    (375, b"\0\0LASF_Spec\0"),
    (393, &[4, 0, 0xC0, 0]),
    (429, b"\0\0\x04\x08Height\0"),
    (541, &[0x9A, 0x99, 0x99, 0x99, 0x99, 0x99, 0xB9, 0x3F]),
    (641, &[0x19, 0]),
    (663, &[0, 0]),
];

/// The bytes of a file with heights of these points.
fn with_these_heights(alloc: Global, points: [Point; 2]) -> Option<Vec<u8>> {
    let sink = SureOut::new(alloc, 1000).ok()?;
    let form = with_heights(alloc, Scale::new(10_000_000)?)?;
    let Ok(mut writer) = LasWriter::begin(alloc, sink, form) else {
        return None;
    };
    let put = writer.put_all(&points).is_ok();
    let refused = writer.put(&at_height(points[0], 10_000_000_000_000));
    let finished = writer.finish().is_ok();
    let sink = writer.release();
    if !put || !finished || refused != Err(PutFault::ValueOutOfRange(Dim::Extra(0))) {
        return None;
    }
    Vec::from_slice(alloc, sink.bytes()?).ok()
}

pub fn extra_dimensions_stand_behind_the_format(alloc: Global) -> bool {
    let [first, second] = old_points();
    let points = [
        at_height(first, 2_500_000_000),
        at_height(second, -10_000_000),
    ];
    has(with_these_heights(alloc, points), 665, &HIGH)
}

/// The bytes of the file of these points, written in one chunk.
fn written(alloc: Global, minor: u8, format: Format, points: &[Point]) -> Option<Vec<u8>> {
    if points.len() > MOST_POINTS || !is_version(minor) || !takes_format(minor, format) {
        return None;
    }
    let sink = SureOut::new(alloc, 1000).ok()?;
    let form = plain(alloc, minor, format, Scale::new(10_000_000)?);
    let Ok(mut writer) = LasWriter::begin(alloc, sink, form) else {
        return None;
    };
    let put = writer.put_all(points).is_ok();
    let finished = writer.finish().is_ok();
    let sink = writer.release();
    if !put || !finished {
        return None;
    }
    Vec::from_slice(alloc, sink.bytes()?).ok()
}

/// Whether a file has so many bytes, and these pieces at their places.
fn has(file: Option<Vec<u8>>, size: usize, pieces: &[Piece]) -> bool {
    match file {
        Some(file) => file.len() == size && has_pieces(&file, pieces),
        None => false,
    }
}

pub fn a_file_has_its_header_and_its_records(alloc: Global) -> bool {
    let empty = has(written(alloc, 4, Format::F3, &[]), 375, &EMPTY);
    let two = has(written(alloc, 4, Format::F0, &old_points()), 415, &TWO);
    let new = has(written(alloc, 4, Format::F6, &[new_point()]), 405, &NEW);
    empty && two && new
}

pub fn a_file_of_an_older_version_has_a_shorter_block(alloc: Global) -> bool {
    let points = old_points();
    let of_1_2 = has(written(alloc, 2, Format::F0, &points), 267, &TWO_OF_1_2);
    let of_1_3 = has(written(alloc, 3, Format::F0, &points), 275, &TWO_OF_1_3);
    of_1_2 && of_1_3
}

/// What a writer of format 1 answers to a chunk whose second point has no record, and to that point alone; and the bytes that
/// were appended.
fn refused(alloc: Global) -> Option<(Result<(), ChunkErr>, Result<(), PutFault>, usize)> {
    let sink = SureOut::new(alloc, 1000).ok()?;
    let form = plain(alloc, 4, Format::F1, Scale::new(10_000_000)?);
    let Ok(mut writer) = LasWriter::begin(alloc, sink, form) else {
        return None;
    };
    let [first, _] = old_points();
    let all = writer.put_all(&[first, new_point()]);
    let alone = writer.put(&new_point());
    let sink = writer.release();
    Some((all, alone, sink.bytes()?.len()))
}

pub fn a_point_without_a_record_is_refused(alloc: Global) -> bool {
    let why = RecordFault::ValueOutOfRange(Dim::ReturnNumber);
    let all = Err(ChunkErr::Refused(RefusedPoint { at: 1, why }));
    let alone = Err(PutFault::ValueOutOfRange(Dim::ReturnNumber));
    refused(alloc) == Some((all, alone, 375))
}

/// Which calls fail on a sink of which one call does: `begin`, `put_all` and `finish`. A chunk without points makes no call.
fn failing(alloc: Global, call: u64) -> Option<[bool; 3]> {
    let calls = Vec::from_slice(alloc, &[call]).ok()?;
    let sink = MemOut::new(alloc, 1000, calls).ok()?;
    let form = plain(alloc, 4, Format::F0, Scale::new(10_000_000)?);
    match LasWriter::begin(alloc, sink, form) {
        Ok(mut writer) => {
            let put = writer.put_all(&[]).is_err()
                || writer.put_all(&old_points()) == Err(ChunkErr::Failed);
            let finished = writer.finish().is_err();
            drop(writer.release());
            Some([false, put, finished])
        }
        Err((_, e)) => Some([e == LasBeginErr::Failed, false, false]),
    }
}

/// The header, the records, the patched header, and the empty piece that has the sink write all.
const FAILURES: [(u64, [bool; 3]); 5] = [
    (1, [true, false, false]),
    (2, [false, true, false]),
    (3, [false, false, true]),
    (4, [false, false, true]),
    (5, [false, false, false]),
];

pub fn a_failed_sink_is_told(alloc: Global) -> bool {
    let mut right = true;
    for &(call, which) in &FAILURES {
        right &= failing(alloc, call) == Some(which);
    }
    right
}
