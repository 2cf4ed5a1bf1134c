//! Reads the values of extra dimensions.

ghost use Rattle.std.specs.Prelude.{◌≡◌, ◌+◌, ◌*◌, ◌*ℤ◌, ◌^◌, ◌<◌, ◌≤◌, unsigned_abs, length, true, Some, None, IfOk, OnErr};
ghost use Rattle.cloud_points.specs.ExtraFields.{kind_size};
ghost use Rattle.extra_bytes.specs.Values.{LiesIn, raw_at, value_of, is_held, extra_read};

use byte_numbers::{i8_at, i16_at, i32_at, u8_at, u16_at, u32_at, u64_at};
use cloud_points::{ExtraField, ExtraKind, MOST_NANO, OutOfRange};
use decimal_coords::Scale;

/// The raw number of a kind at a place.
#[inline]
fn raw_at(kind: ExtraKind, at: usize, bytes: &[u8]) -> i128
    requires { at + kind_size kind ≤ length bytes.now }
    ensures value { result ≡ raw_at kind at bytes.now }
    ensures small { unsigned_abs result < 2 ^ 64 }
{
    match kind {
        ExtraKind::U8 => u8_at(bytes, at) as i128,
        ExtraKind::I8 => i8_at(bytes, at) as i128,
        ExtraKind::U16 => u16_at(bytes, at) as i128,
        ExtraKind::I16 => i16_at(bytes, at) as i128,
        ExtraKind::U32 => u32_at(bytes, at) as i128,
        ExtraKind::I32 => i32_at(bytes, at) as i128,
        ExtraKind::U64 => u64_at(bytes, at) as i128,
        ExtraKind::I64 => u64_at(bytes, at).cast_signed() as i128,
    }
}

/// So many steps of a scale, in nanounits.
#[inline]
fn stepped(scale: Scale, raw: i128) -> i128
    requires { unsigned_abs raw < 2 ^ 64 }
    ensures value { result ≡ raw *ℤ scale.nano }
    ensures small { unsigned_abs result ≤ 2 ^ 64 * 10 ^ 9 }
{
    raw * scale.nano() as i128
}

/// The value of a raw number in nanounits.
#[inline]
fn value_of(f: &ExtraField, raw: i128) -> i128
    requires { unsigned_abs raw < 2 ^ 64 }
    ensures { result ≡ value_of f.now raw }
{
    stepped(f.scale, raw) + f.offset as i128
}

/// Whether a point holds so many nanounits in an extra dimension.
#[inline]
fn is_held(nano: i128) -> bool
    ensures { result ≡ is_held nano }
{
    -MOST_NANO <= nano && nano <= MOST_NANO
}

/// A number of nanounits that a point holds.
#[inline]
fn held(nano: i128) -> i64
    requires { is_held nano ≡ true }
    ensures { result ≡ nano }
{
    nano as i64
}

/// The value of a field in a record, in nanounits: its raw number of steps from its offset.
///
/// It is refused exactly where it is above 4 * 10^18 nanounits in size, which no point holds.
#[inline]
#[tactic(auto, unfolding(crate::specs::Values::extra_read))]
pub fn get_extra(f: &ExtraField, bytes: &[u8]) -> Result<i64, OutOfRange>
    requires { LiesIn f.now bytes.now }
    ensures ok { IfOk result (λ nano. extra_read f.now bytes.now ≡ Some nano) }
    ensures refused { OnErr result (extra_read f.now bytes.now ≡ None) }
{
    let raw = raw_at(f.kind, f.at, bytes);
    let value = value_of(f, raw);
    if is_held(value) {
        Ok(held(value))
    } else {
        Err(OutOfRange)
    }
}
