//! The bytes of one number, where a layout has its dimension.

ghost use Rattle.std.specs.Prelude.{◌≡◌, ◌+◌, ◌≤◌, ◌++◌, ◌∷◌, [], length, take, drop};
ghost use Rattle.std.specs.Int.{w8, w64, cast_signed, to_le_bytes};
ghost use Rattle.packed_chunk.specs.Rows.{size_where, where_held};
ghost use Rattle.packed_chunk.specs.Unpacked.{number_where};

use byte_numbers::{u8_at, u16_at, u64_at};

/// How many bytes a number of this size takes.
#[inline(always)]
pub fn size_where(held: bool, size: usize) -> usize
    ensures value { result ≡ size_where held size }
    ensures most { result ≤ size }
{
    if held { size } else { 0 }
}

/// Writes bytes at a place, and moves the place behind them.
#[inline(always)]
pub fn put<const N: usize>(out: &mut [u8], at: &mut usize, bytes: [u8; N])
    requires { at.old + N ≤ length out.old }
    ensures written { take at.new out.new ≡ take at.old out.old ++ bytes.entry }
    ensures rest { drop at.new out.new ≡ drop at.new out.old }
    ensures at { at.new ≡ at.old + N }
{
    let end = *at + N;
    out[*at..end].copy_from_slice(&bytes);
    *at = end;
}

/// Writes bytes at a place where they are held, and moves the place behind them.
#[inline(always)]
pub fn put_where<const N: usize>(held: bool, out: &mut [u8], at: &mut usize, bytes: [u8; N])
    requires { at.old + size_where held N ≤ length out.old }
    ensures written { take at.new out.new ≡ take at.old out.old ++ where_held held bytes.entry }
    ensures rest { drop at.new out.new ≡ drop at.new out.old }
    ensures at { at.new ≡ at.old + size_where held N }
{
    if held {
        put(out, at, bytes);
    }
}

/// Writes a byte at a place where it is held, and moves the place behind it.
#[inline(always)]
pub fn put_byte_where(held: bool, out: &mut [u8], at: &mut usize, number: u8)
    requires { at.old + size_where held 1 ≤ length out.old }
    ensures written { take at.new out.new ≡ take at.old out.old ++ where_held held (to_le_bytes w8 number) }
    ensures rest { drop at.new out.new ≡ drop at.new out.old }
    ensures at { at.new ≡ at.old + size_where held 1 }
{
    put_where(held, out, at, number.to_le_bytes());
}

/// Takes the number of eight bytes that stands at a place, and moves the place behind it; so too below.
#[inline(always)]
pub fn take_u64(held: bool, row: &[u8], at: &mut usize) -> u64
    requires { at.old + size_where held 8 ≤ length row.now }
    ensures value { result ≡ number_where held at.old 8 row.now }
    ensures at { at.new ≡ at.old + size_where held 8 }
{
    if !held {
        return 0;
    }
    let number = u64_at(row, *at);
    *at += 8;
    number
}

#[inline(always)]
pub fn take_i64(held: bool, row: &[u8], at: &mut usize) -> i64
    requires { at.old + size_where held 8 ≤ length row.now }
    ensures value { result ≡ cast_signed w64 (number_where held at.old 8 row.now) }
    ensures at { at.new ≡ at.old + size_where held 8 }
{
    take_u64(held, row, at).cast_signed()
}

#[inline(always)]
pub fn take_u16(held: bool, row: &[u8], at: &mut usize) -> u16
    requires { at.old + size_where held 2 ≤ length row.now }
    ensures value { result ≡ number_where held at.old 2 row.now }
    ensures at { at.new ≡ at.old + size_where held 2 }
{
    if !held {
        return 0;
    }
    let number = u16_at(row, *at);
    *at += 2;
    number
}

#[inline(always)]
pub fn take_u8(held: bool, row: &[u8], at: &mut usize) -> u8
    requires { at.old + size_where held 1 ≤ length row.now }
    ensures value { result ≡ number_where held at.old 1 row.now }
    ensures at { at.new ≡ at.old + size_where held 1 }
{
    if !held {
        return 0;
    }
    let number = u8_at(row, *at);
    *at += 1;
    number
}
