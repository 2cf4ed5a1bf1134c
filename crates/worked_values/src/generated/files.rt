//! The file of generated points, over files in memory.

use crate::pieces::{Piece, has_pieces};
use cloud_gen::{GenerateError, generate};
use file_devices::{MemFiles, Op};
use std::alloc::Global;

/// What each file begins with: the version, the writer, the sizes, format 3, the scales and the offsets.
const HEADER: [Piece; 8] = [
    (0, b"LASF"),
    (24, &[1, 4]),
    (26, b"lasline\0"),
    (58, b"lasline 1\0"),
    (94, &[0x77, 1, 0x77, 1, 0, 0]),
    (104, &[3, 0x22, 0]),
    (
        131,
        &[
            0x7B, 0x14, 0xAE, 0x47, 0xE1, 0x7A, 0x84, 0x3F, 0x7B, 0x14, 0xAE, 0x47, 0xE1, 0x7A,
            0x84, 0x3F, 0x7B, 0x14, 0xAE, 0x47, 0xE1, 0x7A, 0x84, 0x3F,
        ],
    ),
    (
        155,
        &[
            0, 0, 0, 0, 0x80, 0x84, 0x1E, 0x41, 0, 0, 0, 0, 0x80, 0x4F, 0x52, 0x41, 0, 0, 0, 0, 0,
            0, 0, 0,
        ],
    ),
];

/// Of one point: the counts of 32 bits, the bounds, the counts of 64 bits and the record.
const ONE: [Piece; 4] = [
    (
        107,
        &[
            1, 0, 0, 0, 0, 0, 0, 0, 1, 0, 0, 0, 0, 0, 0, 0, 0, 0, 0, 0, 0, 0, 0, 0,
        ],
    ),
    (
        179,
        &[
            0x33, 0x33, 0x33, 0x33, 0x82, 0x84, 0x1E, 0x41, 0x33, 0x33, 0x33, 0x33, 0x82, 0x84,
            0x1E, 0x41, 0xEC, 0x51, 0xB8, 0x1E, 0x80, 0x4F, 0x52, 0x41, 0xEC, 0x51, 0xB8, 0x1E,
            0x80, 0x4F, 0x52, 0x41, 0x3D, 0x0A, 0xD7, 0xA3, 0x70, 0xAD, 0x59, 0x40, 0x3D, 0x0A,
            0xD7, 0xA3, 0x70, 0xAD, 0x59, 0x40,
        ],
    ),
    (
        247,
        &[
            1, 0, 0, 0, 0, 0, 0, 0, 0, 0, 0, 0, 0, 0, 0, 0, 1, 0, 0, 0, 0, 0, 0, 0, 0, 0, 0, 0, 0,
            0, 0, 0, 0, 0, 0, 0, 0, 0, 0, 0, 0, 0, 0, 0, 0, 0, 0, 0,
        ],
    ),
    (
        375,
        &[
            0x37, 0, 0, 0, 0x30, 0, 0, 0, 0x1F, 0x28, 0, 0, 0x57, 0x6C, 0x22, 9, 0xE5, 0, 1, 0, 0,
            0, 0, 0, 0, 0, 0, 0, 0x57, 0x6C, 0x3F, 0xC4, 0xB1, 0xBE,
        ],
    ),
];

/// Of 65 points, the same; the record is the last one.
const MORE: [Piece; 4] = [
    (
        107,
        &[
            0x41, 0, 0, 0, 0x23, 0, 0, 0, 0x0F, 0, 0, 0, 9, 0, 0, 0, 4, 0, 0, 0, 2, 0, 0, 0,
        ],
    ),
    (
        179,
        &[
            0x7B, 0x14, 0xAE, 0x47, 0x82, 0x85, 0x1E, 0x41, 0x33, 0x33, 0x33, 0x33, 0x82, 0x84,
            0x1E, 0x41, 0xEC, 0x51, 0xB8, 0x3E, 0x80, 0x4F, 0x52, 0x41, 0x0A, 0xD7, 0xA3, 0, 0x80,
            0x4F, 0x52, 0x41, 0xB8, 0x1E, 0x85, 0xEB, 0x51, 0xB0, 0x62, 0x40, 0x85, 0xEB, 0x51,
            0xB8, 0x1E, 5, 0x59, 0x40,
        ],
    ),
    (
        247,
        &[
            0x41, 0, 0, 0, 0, 0, 0, 0, 0x23, 0, 0, 0, 0, 0, 0, 0, 0x0F, 0, 0, 0, 0, 0, 0, 0, 9, 0,
            0, 0, 0, 0, 0, 0, 4, 0, 0, 0, 0, 0, 0, 0, 2, 0, 0, 0, 0, 0, 0, 0,
        ],
    ),
    (
        2551,
        &[
            0x39, 0x19, 0, 0, 0x43, 0, 0, 0, 0xCA, 0x32, 0, 0, 0xD4, 0x80, 0x1B, 4, 0xF6, 0, 1, 0,
            0x8D, 0xED, 0xB5, 0xA0, 0xF7, 0xC6, 0x10, 0x3F, 0xD4, 0x80, 0x95, 0xF6, 0xFD, 0xEB,
        ],
    ),
];

/// The numbers of points, and the size of their file and its pieces.
const FILES: [(u32, usize, &[Piece]); 3] = [(0, 375, &[]), (1, 409, &ONE), (65, 2585, &MORE)];

/// Files of which the call `n` on the object `o` fails, where there is such a pair. Sinks have room for 3,000 bytes.
fn failing(alloc: Global, fails: &[(u64, u64)]) -> Option<MemFiles> {
    let fails = Vec::from_slice(alloc, fails).ok()?;
    Some(MemFiles::new(alloc, Vec::new(alloc), 3_000, 1, fails))
}

/// Whether a file of so many points has this size, and these pieces at their places.
fn is_made(alloc: Global, count: u32, size: usize, pieces: &[Piece]) -> Option<bool> {
    let mut files = failing(alloc, &[])?;
    generate(alloc, &mut files, "g.las", count.min(100)).ok()?;
    let file = files.contents("g.las")?;
    Some(file.len() == size && has_pieces(file, &HEADER) && has_pieces(file, pieces))
}

pub fn files_have_their_header_and_records(alloc: Global) -> bool {
    let mut right = true;
    for &(count, size, pieces) in &FILES {
        right &= is_made(alloc, count, size, pieces) == Some(true);
    }
    right
}

/// A call that fails, counted from 1 on the files and on the sink that they hand out, and what is said to have failed.
const REFUSALS: [((u64, u64), Op); 6] = [
    ((0, 1), Op::Create),
    // the header, the points, the totals, and what is held back
    ((1, 1), Op::Write),
    ((1, 2), Op::Write),
    ((1, 3), Op::Patch),
    ((1, 4), Op::Patch),
    ((0, 2), Op::Keep),
];

/// What is said to have failed where a call fails, and whether no file is kept and all is given back.
fn refused(alloc: Global, call: (u64, u64)) -> Option<(Op, bool)> {
    let mut files = failing(alloc, &[call])?;
    let Err(GenerateError::Device(op)) = generate(alloc, &mut files, "g.las", 1) else {
        return None;
    };
    let is_unkept = files.contents("g.las").is_none() && files.lent() == 0;
    Some((op, is_unkept))
}

pub fn a_failed_call_keeps_no_file(alloc: Global) -> bool {
    let mut right = true;
    for &(call, op) in &REFUSALS {
        right &= refused(alloc, call) == Some((op, true));
    }
    right
}
