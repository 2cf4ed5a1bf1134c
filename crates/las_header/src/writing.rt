//! Writes the header.

ghost use Rattle.std.specs.Prelude.{◌≡◌, ◌+◌, ◌*◌, ◌≤◌, ◌++◌, length, drop, Ok};
ghost use Rattle.std.specs.List.{All, flat_map};
ghost use Rattle.arrayvec.specs.ArrayVec.{array_vec_len};
ghost use Rattle.las_header.specs.Headers.{header_of};
ghost use Rattle.las_header.specs.Sizes.{HasFileSizes, HasRecordSizes, HasGridSizes, HasCountSizes};
ghost use Rattle.las_header.specs.Standing.{FitsBlock, HasNoFault, Stands};
ghost use Rattle.las_header.specs.WordOffsets.{IsWordOffset};
ghost use Rattle.las_header.specs.Written.{nano_bytes, scale_bytes, file_part, record_part, grid_part, count_part, header_block};
ghost use Rattle.las_header.specs.Versions.{block_size};

use crate::{Header, LONGEST_BLOCK, block_size};
use arrayvec::ArrayVec;
use byte_numbers::{put, put_u32s, put_u64s};
use decimal_coords::Scale;
use ieee_words::near;

fn put_scales<const CAP: usize>(part: &mut ArrayVec<u8, CAP>, scales: &[Scale])
    requires { array_vec_len part.old + 8 * length scales.now ≤ CAP }
    ensures items { part.new.items ≡ part.old.items ++ flat_map scale_bytes scales.now }
    ensures len { array_vec_len part.new ≡ array_vec_len part.old + 8 * length scales.now }
{
    for scale in scales {
        let word = near(scale.nano(), 9);
        put(part, &word.to_le_bytes());
    }
}

fn put_offsets<const CAP: usize>(part: &mut ArrayVec<u8, CAP>, offsets: &[i64])
    requires { array_vec_len part.old + 8 * length offsets.now ≤ CAP }
    ensures items { part.new.items ≡ part.old.items ++ flat_map nano_bytes offsets.now }
    ensures len { array_vec_len part.new ≡ array_vec_len part.old + 8 * length offsets.now }
{
    for offset in offsets {
        let word = near(*offset, 9);
        put(part, &word.to_le_bytes());
    }
}

#[tactic(auto, unfolding(crate::specs::Written::file_part))]
fn file_part(h: &Header) -> ArrayVec<u8, 94>
    ensures items { result.items ≡ file_part h.now }
    ensures len { array_vec_len result ≡ 94 }
    ensures sizes { HasFileSizes h.now }
{
    let mut part = ArrayVec::new();
    put(&mut part, &h.signature);
    put(&mut part, &h.source_id.to_le_bytes());
    put(&mut part, &h.encoding.to_le_bytes());
    put(&mut part, &h.guid);
    put(&mut part, &[h.major, h.minor]);
    put(&mut part, &h.system);
    put(&mut part, &h.software);
    put(&mut part, &h.day.to_le_bytes());
    put(&mut part, &h.year.to_le_bytes());
    part
}

#[tactic(auto, unfolding(crate::specs::Written::record_part))]
fn record_part(h: &Header) -> ArrayVec<u8, 37>
    ensures items { result.items ≡ record_part h.now }
    ensures len { array_vec_len result ≡ 37 }
    ensures sizes { HasRecordSizes h.now }
{
    let mut part = ArrayVec::new();
    put(&mut part, &h.header_size.to_le_bytes());
    put(&mut part, &h.points_at.to_le_bytes());
    put(&mut part, &h.vlrs.to_le_bytes());
    put(&mut part, &[h.format.number()]);
    put(&mut part, &h.record_length.to_le_bytes());
    put(&mut part, &h.legacy_count.to_le_bytes());
    put_u32s(&mut part, &h.legacy_returns);
    part
}

#[tactic(auto, unfolding(crate::specs::Written::grid_part))]
fn grid_part(h: &Header) -> ArrayVec<u8, 96>
    ensures items { result.items ≡ grid_part h.now }
    ensures len { array_vec_len result ≡ 96 }
    ensures sizes { HasGridSizes h.now }
{
    let mut part = ArrayVec::new();
    put_scales(&mut part, &h.scale);
    put_offsets(&mut part, &h.offset);
    put_u64s(&mut part, &h.bounds);
    part
}

#[tactic(auto, unfolding(crate::specs::Written::count_part))]
fn count_part(h: &Header) -> ArrayVec<u8, 148>
    ensures items { result.items ≡ count_part h.now }
    ensures len { array_vec_len result ≡ 148 }
    ensures sizes { HasCountSizes h.now }
{
    let mut part = ArrayVec::new();
    put(&mut part, &h.waveform.to_le_bytes());
    put(&mut part, &h.evlrs_at.to_le_bytes());
    put(&mut part, &h.evlrs.to_le_bytes());
    put(&mut part, &h.count.to_le_bytes());
    put_u64s(&mut part, &h.returns);
    part
}

/// Writes the header block of a header's version into the first bytes, and answers how many they are: each field at its place, the
/// numbers with their lowest byte first, the scales and offsets as the binary64 words nearest to them. What stands behind the block
/// stays as it is.
///
/// Where the version is 1.2, 1.3 or 1.4, a field that ends behind the block is 0, and each offset is below 10^9 units in size and a
/// decimal of at most 15 digits and 9 places, the bytes stand for the header, and where it has no fault either `read_header` gives it
/// back.
pub fn write_header(h: &Header, out: &mut [u8; LONGEST_BLOCK]) -> usize
    ensures size { result ≡ block_size h.now.minor }
    ensures bytes { out.new ≡ header_block h.now ++ drop (block_size h.now.minor) out.old }
    ensures long { length (header_block h.now) ≡ block_size h.now.minor }
    ensures stands { FitsBlock h.now → All IsWordOffset h.now.offset → Stands (header_block h.now) h.now }
    ensures read_back { FitsBlock h.now → All IsWordOffset h.now.offset → HasNoFault h.now
        → header_of (header_block h.now) ≡ Ok h.now }
{
    let mut fields = ArrayVec::<u8, LONGEST_BLOCK>::new();
    put(&mut fields, &file_part(h));
    put(&mut fields, &record_part(h));
    put(&mut fields, &grid_part(h));
    put(&mut fields, &count_part(h));
    let size = block_size(h.minor);
    out[..size].copy_from_slice(&fields[..size]);
    size
}
