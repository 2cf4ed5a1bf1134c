//! Reads the header.

ghost use Rattle.std.specs.Prelude.{◌≡◌, ◌+◌, ◌-◌, ◌≤◌, ◌++◌, true, length, take, replicate, Some, IfOk, IfErr, OnOk};
ghost use Rattle.ieee_words.specs.DecimalOfWord.{decimal_of_word};
ghost use Rattle.byte_numbers.specs.Bytes.{number_at, numbers_at};
ghost use Rattle.las_header.specs.Headers.{minor_of, has_signature, has_version, has_block, block_of, holds_fields, has_points_behind, record_format, scale_on, scales_of, offset_on, offsets_of, header_with, header_of};
ghost use Rattle.las_header.specs.Formats.{format_of, format_size};
ghost use Rattle.las_header.specs.Offsets.{IsOffset};
ghost use Rattle.las_header.specs.ScaleWords.{scale_read};
ghost use Rattle.las_header.specs.Sound.{HasItsBlock, IsSound};
ghost use Rattle.las_header.specs.Standing.{Stands};
ghost use Rattle.las_header.specs.Versions.{block_size, is_version, takes_format};
ghost use Rattle.std.specs.List.{All};

use crate::{
    Format, Header, HeaderAxis, HeaderFault, LONGEST_BLOCK, ScaleFault, block_size, is_version,
    scale_of_word, takes_format,
};
use byte_numbers::{piece_at, u8_at, u16_at, u32_at, u64_at};
use decimal_coords::Scale;
use ieee_words::decimal;

fn has_version(bytes: &[u8]) -> bool
    requires { 26 ≤ length bytes.now }
    ensures value { result ≡ has_version bytes.now }
    ensures known { result ≡ true → 227 ≤ block_size (minor_of bytes.now) }
{
    u8_at(bytes, 24) == 1 && is_version(u8_at(bytes, 25))
}

fn has_block(bytes: &[u8]) -> bool
    requires long { 26 ≤ length bytes.now }
    requires known { 227 ≤ block_size (minor_of bytes.now) }
    ensures { result ≡ has_block bytes.now }
{
    let size = block_size(u8_at(bytes, 25));
    bytes.len() >= size && u16_at(bytes, 94) as usize >= size
}

fn holds_fields(bytes: &[u8], format: Format) -> bool
    requires { LONGEST_BLOCK ≤ length bytes.now }
    ensures { result ≡ holds_fields format bytes.now }
{
    u16_at(bytes, 105) >= format.size()
}

fn has_points_behind(bytes: &[u8]) -> bool
    requires { LONGEST_BLOCK ≤ length bytes.now }
    ensures { result ≡ has_points_behind bytes.now }
{
    u32_at(bytes, 96) >= u16_at(bytes, 94) as u32
}

#[tactic(auto, unfolding(crate::specs::Headers::record_format))]
fn record_format(bytes: &[u8]) -> Result<Format, HeaderFault>
    requires { LONGEST_BLOCK ≤ length bytes.now }
    ensures value { result ≡ record_format bytes.now }
    ensures known { IfOk result (λ format. format_of (number_at 104 1 bytes.now) ≡ Some format) }
    ensures takes { IfOk result (λ format. takes_format (minor_of bytes.now) format ≡ true) }
    ensures long { IfOk result (λ format. format_size format ≤ number_at 105 2 bytes.now) }
    ensures behind { OnOk result (number_at 94 2 bytes.now ≤ number_at 96 4 bytes.now) }
{
    let number = u8_at(bytes, 104);
    if number >= 128 {
        return Err(HeaderFault::Compressed);
    }
    let Some(format) = Format::of_number(number) else {
        return Err(HeaderFault::FormatNotRead);
    };
    if !takes_format(u8_at(bytes, 25), format) {
        return Err(HeaderFault::FormatNotRead);
    }
    if !holds_fields(bytes, format) {
        return Err(HeaderFault::RecordTooShort);
    }
    if !has_points_behind(bytes) {
        return Err(HeaderFault::PointsInHeader);
    }
    Ok(format)
}

/// A block, filled with zero bytes to the size of the longest.
fn padded(front: &[u8]) -> [u8; LONGEST_BLOCK]
    requires { length front.now ≤ LONGEST_BLOCK }
    ensures { result ≡ front.now ++ replicate (LONGEST_BLOCK - length front.now) 0 }
{
    let mut block = [0; LONGEST_BLOCK];
    block[..front.len()].copy_from_slice(front);
    block
}

/// The header block in front of a file, filled with zero bytes to the size of the longest.
#[tactic(auto, unfolding(crate::specs::Headers::block_of))]
fn block_of(bytes: &[u8]) -> Result<[u8; LONGEST_BLOCK], HeaderFault>
    ensures ok { OnOk result (block_of bytes.now ≡ Ok (take (block_size (minor_of bytes.now)) bytes.now)) }
    ensures filled { IfOk result (λ block. block ≡ take (block_size (minor_of bytes.now)) bytes.now
        ++ replicate (LONGEST_BLOCK - block_size (minor_of bytes.now)) 0) }
    ensures version { OnOk result (is_version (minor_of bytes.now) ≡ true) }
    ensures there { OnOk result (block_size (minor_of bytes.now) ≤ length bytes.now) }
    ensures size { OnOk result (block_size (minor_of bytes.now) ≤ number_at 94 2 bytes.now) }
    ensures err { IfErr result (λ e. block_of bytes.now ≡ Err e) }
{
    if !bytes.starts_with(b"LASF") {
        return Err(HeaderFault::NotLas);
    }
    if bytes.len() < 26 {
        return Err(HeaderFault::HeaderSize);
    }
    if !has_version(bytes) {
        return Err(HeaderFault::VersionNotRead);
    }
    if !has_block(bytes) {
        return Err(HeaderFault::HeaderSize);
    }
    let size = block_size(u8_at(bytes, 25));
    Ok(padded(&bytes[..size]))
}

fn scale_at(bytes: &[u8], at: usize, axis: HeaderAxis) -> Result<Scale, HeaderFault>
    requires { at + 8 ≤ length bytes.now }
    ensures { result ≡ scale_on axis (scale_read (number_at at 8 bytes.now)) }
{
    match scale_of_word(u64_at(bytes, at)) {
        Ok(scale) => Ok(scale),
        Err(ScaleFault::NotPositive) => Err(HeaderFault::ScaleNotPositive(axis)),
        Err(ScaleFault::NotDecimal) => Err(HeaderFault::ScaleNotDecimal(axis)),
    }
}

fn offset_at(bytes: &[u8], at: usize, axis: HeaderAxis) -> Result<i64, HeaderFault>
    requires { at + 8 ≤ length bytes.now }
    ensures value { result ≡ offset_on axis (decimal_of_word (number_at at 8 bytes.now)) }
    ensures size { IfOk result IsOffset }
{
    match decimal(u64_at(bytes, at)) {
        Ok(decimal) => Ok(decimal.nano),
        Err(_) => Err(HeaderFault::OffsetOutOfRange(axis)),
    }
}

#[tactic(auto, unfolding(crate::specs::Headers::scales_of))]
fn scales(bytes: &[u8]) -> Result<[Scale; 3], HeaderFault>
    requires { LONGEST_BLOCK ≤ length bytes.now }
    ensures { result ≡ scales_of bytes.now }
{
    let x = scale_at(bytes, 131, HeaderAxis::X)?;
    let y = scale_at(bytes, 139, HeaderAxis::Y)?;
    let z = scale_at(bytes, 147, HeaderAxis::Z)?;
    Ok([x, y, z])
}

#[tactic(auto, unfolding(crate::specs::Headers::offsets_of))]
fn offsets(bytes: &[u8]) -> Result<[i64; 3], HeaderFault>
    requires { LONGEST_BLOCK ≤ length bytes.now }
    ensures value { result ≡ offsets_of bytes.now }
    ensures sizes { IfOk result (All IsOffset) }
{
    let x = offset_at(bytes, 155, HeaderAxis::X)?;
    let y = offset_at(bytes, 163, HeaderAxis::Y)?;
    let z = offset_at(bytes, 171, HeaderAxis::Z)?;
    Ok([x, y, z])
}

fn legacy_returns(bytes: &[u8]) -> [u32; 5]
    requires { LONGEST_BLOCK ≤ length bytes.now }
    ensures { result ≡ numbers_at 111 5 4 bytes.now }
{
    [
        u32_at(bytes, 111),
        u32_at(bytes, 115),
        u32_at(bytes, 119),
        u32_at(bytes, 123),
        u32_at(bytes, 127),
    ]
}

fn bounds(bytes: &[u8]) -> [u64; 6]
    requires { LONGEST_BLOCK ≤ length bytes.now }
    ensures { result ≡ numbers_at 179 6 8 bytes.now }
{
    [
        u64_at(bytes, 179),
        u64_at(bytes, 187),
        u64_at(bytes, 195),
        u64_at(bytes, 203),
        u64_at(bytes, 211),
        u64_at(bytes, 219),
    ]
}

fn returns(bytes: &[u8]) -> [u64; 15]
    requires { LONGEST_BLOCK ≤ length bytes.now }
    ensures { result ≡ numbers_at 255 15 8 bytes.now }
{
    [
        u64_at(bytes, 255),
        u64_at(bytes, 263),
        u64_at(bytes, 271),
        u64_at(bytes, 279),
        u64_at(bytes, 287),
        u64_at(bytes, 295),
        u64_at(bytes, 303),
        u64_at(bytes, 311),
        u64_at(bytes, 319),
        u64_at(bytes, 327),
        u64_at(bytes, 335),
        u64_at(bytes, 343),
        u64_at(bytes, 351),
        u64_at(bytes, 359),
        u64_at(bytes, 367),
    ]
}

#[tactic(auto, unfolding(crate::specs::Headers::header_with))]
fn header_with(format: Format, scale: [Scale; 3], offset: [i64; 3], bytes: &[u8]) -> Header
    requires { LONGEST_BLOCK ≤ length bytes.now }
    ensures value { result ≡ header_with format scale offset bytes.now }
    ensures size { result.header_size ≡ number_at 94 2 bytes.now }
    ensures points_at { result.points_at ≡ number_at 96 4 bytes.now }
    ensures format { result.format ≡ format }
    ensures scale { result.scale ≡ scale }
    ensures record_length { result.record_length ≡ number_at 105 2 bytes.now }
    ensures offset { result.offset ≡ offset }
{
    Header {
        signature: piece_at(bytes, 0),
        source_id: u16_at(bytes, 4),
        encoding: u16_at(bytes, 6),
        guid: piece_at(bytes, 8),
        major: u8_at(bytes, 24),
        minor: u8_at(bytes, 25),
        system: piece_at(bytes, 26),
        software: piece_at(bytes, 58),
        day: u16_at(bytes, 90),
        year: u16_at(bytes, 92),
        header_size: u16_at(bytes, 94),
        points_at: u32_at(bytes, 96),
        vlrs: u32_at(bytes, 100),
        format,
        record_length: u16_at(bytes, 105),
        legacy_count: u32_at(bytes, 107),
        legacy_returns: legacy_returns(bytes),
        scale,
        offset,
        bounds: bounds(bytes),
        waveform: u64_at(bytes, 227),
        evlrs_at: u64_at(bytes, 235),
        evlrs: u32_at(bytes, 243),
        count: u64_at(bytes, 247),
        returns: returns(bytes),
    }
}

/// The header that a file stands for, by its header block, or its first fault. `bytes` are the block of its version, or all of a
/// shorter file; what stands behind the block isn't looked at.
///
/// The version is 1.2, 1.3 or 1.4, the header's size is at least that of its block, the points begin behind it, the format is one of
/// its version, their records have the bytes of the format's fields, offsets have a size below 10^18 nanounits, and a field that ends
/// behind the block is 0. `Stands` says that the block stands for the header field by field.
pub fn read_header(bytes: &[u8]) -> Result<Header, HeaderFault>
    ensures value { result ≡ header_of bytes.now }
    ensures sound { IfOk result IsSound }
    ensures block { IfOk result HasItsBlock }
    ensures stands { IfOk result (λ header. Stands (take (block_size header.minor) bytes.now) header) }
{
    let block = block_of(bytes)?;
    let format = record_format(&block)?;
    let scale = scales(&block)?;
    let offset = offsets(&block)?;
    Ok(header_with(format, scale, offset, &block))
}
