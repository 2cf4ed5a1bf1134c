//! Gives fields their places among the extra names.

ghost use Rattle.std.specs.Prelude.{◌≡◌, ◌≤◌, ◌⊎◌, ℕ, All, take, None, IfOk, OnOk, IfErr, OnErr};
ghost use Rattle.cloud_points.specs.ExtraNames.{added};
ghost use Rattle.extra_bytes.specs.Asked.{AreOwn};
ghost use Rattle.extra_bytes.specs.Bound.{EndsWithin, bound_field, field_fault, bound_fields, names_of, names_with, fields_fault};
ghost use Rattle.stage_names.specs.Faults.{IsFaultOf};

use crate::asked::known_names;
use cloud_points::{AddFault, ExtraField, ExtraNames, FieldList};
use stage_names::{PipeErr, PipeFault};
use std::alloc::{AllocError, Global};

/// A field with the place of its name, which is added to the extra names where it is new.
fn bind_field(
    alloc: Global,
    field: &ExtraField,
    i: u32,
    names: &mut ExtraNames,
) -> Result<ExtraField, PipeErr>
    ensures ok { IfOk result (λ bound. bound ≡ bound_field names.old field.now) }
    ensures names { OnOk result (names.new ≡ added field.now.name names.old) }
    ensures none { OnOk result (field_fault i names.old field.now ≡ None) }
    ensures fault { IfErr result (IsFaultOf (field_fault i names.old field.now)) }
    ensures part { OnErr result ((names.new ≡ names.old) ⊎ (names.new ≡ added field.now.name names.old)) }
{
    match names.add(field.name.as_str()) {
        Ok(place) => {
            let name = field.name.try_copy(alloc)?;
            Ok(ExtraField {
                name,
                place,
                kind: field.kind,
                at: field.at,
                scale: field.scale,
                offset: field.offset,
            })
        }
        Err(AddFault::Full) => Err(PipeErr::Fault(PipeFault::TooManyDims(i))),
        Err(AddFault::Memory) => Err(PipeErr::Memory),
    }
}

/// The fields with the places of their names, one after another.
fn bind_each(
    alloc: Global,
    found: &FieldList,
    i: u32,
    names: &mut ExtraNames,
) -> Result<FieldList, PipeErr>
    ensures ok { IfOk result (λ fields. fields ≡ bound_fields names.old found.now) }
    ensures names { OnOk result (names.new ≡ names_with names.old found.now) }
    ensures none { OnOk result (fields_fault i names.old found.now ≡ None) }
    ensures fault { IfErr result (IsFaultOf (fields_fault i names.old found.now)) }
    ensures part { OnErr result ((n : ℕ) × (names.new ≡ names_with names.old (take n found.now))) }
{
    let mut fields = Vec::new(alloc);
    for field in found.as_slice() {
        let bound = bind_field(alloc, field, i, names)?;
        fields.push(bound).map_err(AllocError::from)?;
    }
    Ok(FieldList::new(fields))
}

/// The fields of reader i with the places of their names, from 0 to 7, which are added to the extra names where they are new. Each
/// keeps its bytes.
///
/// `TooManyDims` comes exactly where a name would be the ninth, and `Memory` only where there was none. After either the extra names
/// are those with the names of the first fields.
pub fn bind_fields(
    alloc: Global,
    found: &FieldList,
    i: u32,
    names: &mut ExtraNames,
) -> Result<FieldList, PipeErr>
    ensures ok { IfOk result (λ fields. fields ≡ bound_fields names.old found.now) }
    ensures names { OnOk result (names.new ≡ names_with names.old found.now) }
    ensures none { OnOk result (fields_fault i names.old found.now ≡ None) }
    ensures fault { IfErr result (IsFaultOf (fields_fault i names.old found.now)) }
    ensures part { OnErr result ((n : ℕ) × (names.new ≡ names_with names.old (take n found.now))) }
    ensures places { IfOk result (All (λ f. f.place ≤ 7)) }
    ensures within { (size : ℕ) → All (EndsWithin size) found.now → IfOk result (All (EndsWithin size)) }
    ensures own { AreOwn names.old → AreOwn (names_of found.now) → OnOk result (AreOwn names.new) }
{
    known_names(names);
    bind_each(alloc, found, i, names)
}
