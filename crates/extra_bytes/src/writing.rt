//! Writes the values of extra dimensions.

ghost use Rattle.std.specs.Prelude.{◌≡◌, ◌+◌, ◌*◌, ◌/◌, ◌^◌, ◌<◌, ◌≤◌, ◌-ℤ◌, unsigned_abs, length, true, Some, None, OnOk, OnErr};
ghost use Rattle.cloud_points.specs.ExtraFields.{kind_size};
ghost use Rattle.exact_numbers.specs.Rounding.{signed_as};
ghost use Rattle.extra_bytes.specs.Values.{LiesIn, is_raw, raw_bytes, raw_of, with_piece, extra_written};

use cloud_points::{ExtraField, ExtraKind, OutOfRange};
use decimal_coords::Scale;

/// A quotient rounded to a whole number, a half upwards. It stays in 64 bits, where dividing is fast.
#[inline]
fn rounded(size: u64, unit: u64) -> u64
    requires low { 1 ≤ unit }
    requires high { unit ≤ 10 ^ 9 }
    ensures { result ≡ (2 * size + unit) / (2 * unit) }
{
    let whole = size / unit;
    if 2 * (size % unit) < unit {
        whole
    } else {
        whole + 1
    }
}

/// How far a value is from an offset.
#[inline]
fn distance_of(nano: i64, offset: i64) -> i128
    ensures value { result ≡ (nano -ℤ offset) }
    ensures small { unsigned_abs result < 2 ^ 64 }
{
    nano as i128 - offset as i128
}

/// The size of a distance.
#[inline]
fn size_of_distance(distance: i128) -> u64
    requires { unsigned_abs distance < 2 ^ 64 }
    ensures { result ≡ unsigned_abs distance }
{
    distance.unsigned_abs() as u64
}

/// The nanounits of a step.
#[inline]
fn unit_of(scale: Scale) -> u64
    ensures value { result ≡ unsigned_abs scale.nano }
    ensures low { 1 ≤ result }
    ensures high { result ≤ 10 ^ 9 }
{
    scale.nano() as u64
}

/// A size with the sign of a distance.
#[inline]
fn signed(distance: i128, size: u64) -> i128
    ensures { result ≡ signed_as distance size }
{
    if distance < 0 {
        -(size as i128)
    } else {
        size as i128
    }
}

/// The raw number of a field whose value is nearest, a half away from zero.
#[inline]
fn raw_of(f: &ExtraField, nano: i64) -> i128
    ensures { result ≡ raw_of f.now nano }
{
    let distance = distance_of(nano, f.offset);
    let size = size_of_distance(distance);
    let unit = unit_of(f.scale);
    let steps = rounded(size, unit);
    signed(distance, steps)
}

/// Whether a number is one of a kind.
#[inline]
fn is_raw(kind: ExtraKind, number: i128) -> bool
    ensures { result ≡ is_raw kind number }
{
    match kind {
        ExtraKind::U8 => 0 <= number && number <= 255,
        ExtraKind::I8 => -128 <= number && number <= 127,
        ExtraKind::U16 => 0 <= number && number <= 65_535,
        ExtraKind::I16 => -32_768 <= number && number <= 32_767,
        ExtraKind::U32 => 0 <= number && number <= 4_294_967_295,
        ExtraKind::I32 => -2_147_483_648 <= number && number <= 2_147_483_647,
        ExtraKind::U64 => 0 <= number && number <= 18_446_744_073_709_551_615,
        ExtraKind::I64 => {
            -9_223_372_036_854_775_808 <= number && number <= 9_223_372_036_854_775_807
        }
    }
}

/// Puts bytes at a place.
#[inline]
fn put_piece(bytes: &mut [u8], at: usize, piece: &[u8])
    requires { at + length piece.now ≤ length bytes.old }
    ensures { bytes.new ≡ with_piece at piece.now bytes.old }
{
    bytes[at..at + piece.len()].copy_from_slice(piece);
}

/// Puts the raw number of a kind at a place.
#[inline]
fn put_raw(kind: ExtraKind, number: i128, at: usize, bytes: &mut [u8])
    requires room { at + kind_size kind ≤ length bytes.old }
    requires fits { is_raw kind number ≡ true }
    ensures { bytes.new ≡ with_piece at (raw_bytes kind number) bytes.old }
{
    match kind {
        ExtraKind::U8 => put_piece(bytes, at, &(number as u8).to_le_bytes()),
        ExtraKind::I8 => put_piece(bytes, at, &(number as i8).to_le_bytes()),
        ExtraKind::U16 => put_piece(bytes, at, &(number as u16).to_le_bytes()),
        ExtraKind::I16 => put_piece(bytes, at, &(number as i16).to_le_bytes()),
        ExtraKind::U32 => put_piece(bytes, at, &(number as u32).to_le_bytes()),
        ExtraKind::I32 => put_piece(bytes, at, &(number as i32).to_le_bytes()),
        ExtraKind::U64 => put_piece(bytes, at, &(number as u64).to_le_bytes()),
        ExtraKind::I64 => put_piece(bytes, at, &(number as i64).to_le_bytes()),
    }
}

/// Puts the value of a field into a record, given in nanounits: the raw number of steps from its offset that is nearest, a
/// half away from zero. The other bytes stay.
///
/// It is refused exactly where that number leaves the field's kind, and the record is then as it was.
#[inline]
#[tactic(auto, unfolding(crate::specs::Values::extra_written))]
pub fn put_extra(f: &ExtraField, nano: i64, bytes: &mut [u8]) -> Result<(), OutOfRange>
    requires { LiesIn f.now bytes.old }
    ensures ok { OnOk result (extra_written f.now nano bytes.old ≡ Some bytes.new) }
    ensures refused { OnErr result (extra_written f.now nano bytes.old ≡ None) }
    ensures unchanged { OnErr result (bytes.new ≡ bytes.old) }
{
    let number = raw_of(f, nano);
    if !is_raw(f.kind, number) {
        return Err(OutOfRange);
    }
    put_raw(f.kind, number, f.at, bytes);
    Ok(())
}
