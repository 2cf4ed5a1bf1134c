//! The variable length record with the descriptors of fields.

ghost use Rattle.std.specs.Prelude.{◌≡◌, IfOk};
ghost use Rattle.std.specs.List.{All};
ghost use Rattle.extra_bytes.specs.Asked.{AreOwn};
ghost use Rattle.extra_bytes.specs.Bound.{EndsWithin, names_of};
ghost use Rattle.extra_bytes.specs.Record.{extra_vlr, fields_among};
ghost use Rattle.extra_bytes.specs.Written.{HasShortName};

use crate::reading::read_fields;
use crate::written::write_fields;
use cloud_points::{ExtraField, FieldList};
use las_vlr::{EXTRA_BYTES, STANDARD_USER, Vlr, VlrList};
use std::alloc::{AllocError, Global};

/// The fields that the first record describes of those that describe extra bytes, as `read_fields` reads them: none where there is
/// no such record. They end within the record, and may be extra names. Refused only where memory is wanting.
pub fn find_fields(
    alloc: Global,
    vlrs: &VlrList,
    from: usize,
    record_length: usize,
) -> Result<FieldList, AllocError>
    ensures fields { IfOk result (λ fields. fields ≡ fields_among vlrs.now from record_length) }
    ensures within { IfOk result (All (EndsWithin record_length)) }
    ensures own { IfOk result (λ fields. AreOwn (names_of fields)) }
{
    let payload = vlrs.extra_bytes().unwrap_or(&[]);
    read_fields(alloc, payload, from, record_length)
}

/// The record that describes these fields, whose names have at most 32 bytes. Refused only where memory is wanting.
pub fn extra_vlr(alloc: Global, fields: &[ExtraField]) -> Result<Vlr, AllocError>
    requires { All HasShortName fields.now }
    ensures { IfOk result (λ vlr. vlr ≡ extra_vlr fields.now) }
{
    let payload = write_fields(alloc, fields)?;
    Ok(Vlr {
        reserved: 0,
        user: STANDARD_USER,
        id: EXTRA_BYTES,
        text: [0; 32],
        payload,
    })
}
