//! Reads the fields of a record from their descriptors.

ghost use Rattle.std.specs.Prelude.{◌≡◌, ◌+◌, ◌≤◌, ◌++◌, length, IfOk, OnOk};
ghost use Rattle.extra_bytes.specs.Descriptors.{more_fields, fields_of};

use crate::descriptors::{DESCRIPTOR, field_in, size_within};
use cloud_points::{ExtraField, FieldList};
use std::alloc::{AllocError, Global};

/// Puts the field of the descriptor in front of these bytes behind the others, where it is taken.
fn push_field(
    alloc: Global,
    bytes: &[u8],
    at: usize,
    fields: &mut Vec<ExtraField>,
) -> Result<(), AllocError>
    requires { DESCRIPTOR ≤ length bytes.now }
    ensures { OnOk result (fields.new.items ≡ more_fields at fields.old.items bytes.now) }
{
    if let Some(field) = field_in(alloc, bytes, at, fields.as_slice())? {
        fields.push(field)?;
    }
    Ok(())
}

/// The fields that descriptors describe, one behind another from a place of the record on, in their order. Refused only where
/// memory is wanting.
///
/// Reading stops at the first descriptor that isn't whole, has a type above 10, or describes bytes that end after the
/// record. A descriptor is taken where its type is 1 to 8, its name, up to the first zero byte, is a letter or
/// `_` and then letters, digits and `_`, no dimension of the standard and no earlier taken field has this name, and where its
/// scale and its offset, if they are marked as relevant, are decimals as in the header. The others are stepped over. Each
/// field has the place 0.
pub fn read_fields(
    alloc: Global,
    payload: &[u8],
    from: usize,
    record_length: usize,
) -> Result<FieldList, AllocError>
    ensures { IfOk result (λ fields. fields ≡ fields_of payload.now from record_length) }
{
    let mut fields = Vec::new(alloc);
    let mut rest = payload;
    let mut at = from;
    while rest.len() >= DESCRIPTOR {
        match size_within(rest, at, record_length) {
            None => return Ok(FieldList::new(fields)),
            Some(size) => {
                push_field(alloc, rest, at, &mut fields)?;
                at += size;
                rest = &rest[DESCRIPTOR..];
            }
        }
    }
    Ok(FieldList::new(fields))
}
