//! Writes descriptors.

ghost use Rattle.std.specs.Prelude.{◌≡◌, ◌-◌, ◌≤◌, length, replicate, IfOk};
ghost use Rattle.std.specs.List.{All, flat_map};
ghost use Rattle.arrayvec.specs.ArrayVec.{array_vec_len};
ghost use Rattle.extra_bytes.specs.Written.{HasShortName, kind_number, is_unit, scale_options, scale_part, descriptor_bytes};

use crate::descriptors::DESCRIPTOR;
use arrayvec::ArrayVec;
use byte_numbers::put;
use cloud_points::{ExtraField, ExtraKind};
use decimal_coords::Scale;
use file_devices::Bytes;
use ieee_words::near;
use std::alloc::{AllocError, Global};

/// The bytes of a name.
const NAME: usize = 32;

/// The number of a kind, as descriptors have it.
fn kind_number(kind: ExtraKind) -> u8
    ensures { result ≡ kind_number kind }
{
    match kind {
        ExtraKind::U8 => 1,
        ExtraKind::I8 => 2,
        ExtraKind::U16 => 3,
        ExtraKind::I16 => 4,
        ExtraKind::U32 => 5,
        ExtraKind::I32 => 6,
        ExtraKind::U64 => 7,
        ExtraKind::I64 => 8,
    }
}

/// Whether steps are of 1.
fn is_unit(scale: Scale) -> bool
    ensures { result ≡ is_unit scale }
{
    scale.nano() >= 1_000_000_000
}

/// The options of a descriptor: bit 3 marks a scale that isn't 1.
fn scale_options(scale: Scale) -> u8
    ensures { result ≡ scale_options scale }
{
    if is_unit(scale) { 0 } else { 8 }
}

/// The bytes of a scale: the word of one that isn't 1.
fn scale_part(scale: Scale) -> [u8; 8]
    ensures { result ≡ scale_part scale }
{
    if is_unit(scale) {
        [0; 8]
    } else {
        near(scale.nano(), 9).to_le_bytes()
    }
}

/// The descriptor of a field.
fn descriptor_of(field: &ExtraField) -> ArrayVec<u8, DESCRIPTOR>
    requires { HasShortName field.now }
    ensures { result.items ≡ descriptor_bytes field.now }
{
    let name = field.name.as_str().as_bytes();
    let filling = [0; NAME];
    let kind = kind_number(field.kind);
    let options = scale_options(field.scale);
    let scale = scale_part(field.scale);
    let mut bytes = ArrayVec::new();
    put(&mut bytes, &[0, 0, kind, options]);
    put(&mut bytes, name);
    put(&mut bytes, &filling[name.len()..]);
    put(&mut bytes, &[0; 76]);
    put(&mut bytes, &scale);
    put(&mut bytes, &[0; 72]);
    bytes
}

/// The payload with the descriptors of these fields, whose names have at most 32 bytes. Refused only where memory is wanting.
pub fn write_fields(alloc: Global, fields: &[ExtraField]) -> Result<Bytes, AllocError>
    requires { All HasShortName fields.now }
    ensures { IfOk result (λ payload. payload ≡ flat_map descriptor_bytes fields.now) }
{
    let mut payload = Vec::new(alloc);
    for field in fields {
        payload.extend_from_slice(descriptor_of(field).as_slice())?;
    }
    Ok(Bytes::new(payload))
}
