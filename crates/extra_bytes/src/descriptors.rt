//! Descriptors of extra bytes, and the fields that they describe.

ghost use Rattle.std.specs.Prelude.{◌≡◌, ◌==◌, ◌+◌, ◌≤◌, ◌<◌, length, position, true, false, Some, None, MatchOption, IfOk, IfSome};
ghost use Rattle.text_bytes.specs.Bytes.{is_name};
ghost use Rattle.cloud_points.specs.ExtraNames.{same_name};
ghost use Rattle.extra_bytes.specs.Descriptors.{kind_numbered, size_in, size_within, text_in, name_in, has_name, is_taken, unit_scale, scale_in, offset_in, field_in};

use byte_numbers::u64_at;
use cloud_points::{ExtraField, ExtraKind, standard_dim};
use decimal_coords::Scale;
use file_devices::Name;
use ieee_words::decimal;
use las_header::scale_of_word;
use std::alloc::{AllocError, Global};
use text_bytes::is_name;

/// The bytes of a descriptor.
pub const DESCRIPTOR: usize = 192;

/// The kind with a number, as descriptors have it.
fn kind_numbered(number: u8) -> Option<ExtraKind>
    ensures { result ≡ kind_numbered number }
{
    match number {
        1 => Some(ExtraKind::U8),
        2 => Some(ExtraKind::I8),
        3 => Some(ExtraKind::U16),
        4 => Some(ExtraKind::I16),
        5 => Some(ExtraKind::U32),
        6 => Some(ExtraKind::I32),
        7 => Some(ExtraKind::U64),
        8 => Some(ExtraKind::I64),
        _ => None,
    }
}

/// How many bytes of a record the descriptor in front of these bytes describes. `None` exactly where its type is above 10.
fn size_in(bytes: &[u8]) -> Option<usize>
    requires { DESCRIPTOR ≤ length bytes.now }
    ensures size { result ≡ size_in bytes.now }
    ensures small { IfSome result (λ size. size < 256) }
{
    match bytes[2] {
        0 => Some(bytes[3] as usize),
        9 => Some(4),
        10 => Some(8),
        number => kind_numbered(number).map(|kind| kind.size()),
    }
}

/// The same, where the bytes that begin at a place end within the record.
pub(crate) fn size_within(bytes: &[u8], at: usize, record_length: usize) -> Option<usize>
    requires { DESCRIPTOR ≤ length bytes.now }
    ensures size { result ≡ size_within at record_length bytes.now }
    ensures within { IfSome result (λ size. at + size ≤ record_length) }
{
    match size_in(bytes) {
        Some(size) => {
            if at <= record_length && size <= record_length - at {
                Some(size)
            } else {
                None
            }
        }
        None => None,
    }
}

/// The place of the first zero byte.
fn zero_at(bytes: &[u8]) -> Option<usize>
    ensures { result ≡ position (λ b. b == 0) bytes.now }
{
    bytes.iter().position(|b| *b == 0)
}

/// The bytes of the name in a descriptor, up to the first zero byte.
fn text_in(bytes: &[u8]) -> &[u8]
    requires { DESCRIPTOR ≤ length bytes.now }
    ensures { result.now ≡ text_in bytes.now }
{
    let field = &bytes[4..36];
    match zero_at(field) {
        Some(end) => &field[..end],
        None => field,
    }
}

/// The text of these bytes, where it is a name.
fn as_name(bytes: &[u8]) -> Option<&str>
    ensures { MatchOption result (is_name bytes.now ≡ false)
        (λ name. (name.now ≡ bytes.now) × (is_name bytes.now ≡ true)) }
{
    match str::from_utf8(bytes) {
        Ok(text) => { if is_name(text) { Some(text) } else { None } }
        Err(_) => None,
    }
}

/// Whether a field has this name.
fn is_named(field: &ExtraField, name: &str) -> bool
    ensures { result ≡ same_name field.now.name name.now }
{
    field.name.as_str().eq_ignore_ascii_case(name)
}

/// Whether one of these fields has this name.
fn has_name(name: &str, fields: &[ExtraField]) -> bool
    ensures { result ≡ has_name name.now fields.now }
{
    fields.iter().any(|field| is_named(field, name))
}

/// Whether a name is that of a dimension of the standard or of one of these fields.
fn is_taken(name: &str, fields: &[ExtraField]) -> bool
    ensures { result ≡ is_taken name.now fields.now }
{
    standard_dim(name).is_some() || has_name(name, fields)
}

/// The name in a descriptor, where it is a new one.
fn name_in<'a>(bytes: &'a [u8], fields: &[ExtraField]) -> Option<&'a str>
    requires { DESCRIPTOR ≤ length bytes.now }
    ensures { MatchOption result (name_in fields.now bytes.now ≡ None)
        (λ name. name_in fields.now bytes.now ≡ Some name.now) }
{
    let name = as_name(text_in(bytes))?;
    if is_taken(name, fields) {
        None
    } else {
        Some(name)
    }
}

/// Steps of 1.
fn unit_scale() -> Scale
    ensures { result ≡ unit_scale }
{
    match Scale::new(1_000_000_000) {
        Some(scale) => scale,
        None => unreachable!(),
    }
}

/// The scale in a descriptor, 1 where it isn't marked as relevant.
fn scale_in(bytes: &[u8]) -> Option<Scale>
    requires { DESCRIPTOR ≤ length bytes.now }
    ensures { result ≡ scale_in bytes.now }
{
    if bytes[3] / 8 % 2 == 0 {
        return Some(unit_scale());
    }
    match scale_of_word(u64_at(bytes, 112)) {
        Ok(scale) => Some(scale),
        Err(_) => None,
    }
}

/// The offset in a descriptor in nanounits, 0 where it isn't marked as relevant.
fn offset_in(bytes: &[u8]) -> Option<i64>
    requires { DESCRIPTOR ≤ length bytes.now }
    ensures { result ≡ offset_in bytes.now }
{
    if bytes[3] / 16 % 2 == 0 {
        return Some(0);
    }
    match decimal(u64_at(bytes, 136)) {
        Ok(offset) => Some(offset.nano),
        Err(_) => None,
    }
}

/// The field that begins at a place of the record, as the descriptor in front of these bytes says, where it is taken behind
/// these fields.
pub(crate) fn field_in(
    alloc: Global,
    bytes: &[u8],
    at: usize,
    fields: &[ExtraField],
) -> Result<Option<ExtraField>, AllocError>
    requires { DESCRIPTOR ≤ length bytes.now }
    ensures { IfOk result (λ field. field ≡ field_in at fields.now bytes.now) }
{
    let Some(name) = name_in(bytes, fields) else {
        return Ok(None);
    };
    let Some(kind) = kind_numbered(bytes[2]) else {
        return Ok(None);
    };
    let Some(scale) = scale_in(bytes) else {
        return Ok(None);
    };
    let Some(offset) = offset_in(bytes) else {
        return Ok(None);
    };
    let name = Name::new(String::from_str(alloc, name)?);
    Ok(Some(ExtraField {
        name,
        place: 0,
        kind,
        at,
        scale,
        offset,
    }))
}
