//! The fields that a writer is asked for.

ghost use Rattle.std.specs.Prelude.{◌≡◌, ◌≤◌, true, false, None, Some, MatchOption, IfOk, OnOk, IfErr, length, map};
ghost use Rattle.cloud_points.specs.ExtraNames.{DifferentNames, place_in};
ghost use Rattle.std.specs.List.{All};
ghost use Rattle.cloud_points.specs.Layouts.{holds};
ghost use Rattle.extra_bytes.specs.Fields.{AreLaid, moved};
ghost use Rattle.extra_bytes.specs.Asked.{AreOwn, all_from, asked_fault, asked_field, asked_fields, asked_of, field_unknown};
ghost use Rattle.extra_bytes.specs.Asked.{is_extra, places_scale};
ghost use Rattle.stage_names.specs.Faults.{IsFaultOf};

use cloud_points::{Dim, ExtraField, ExtraKind, ExtraNames, FieldList, Layout};
use decimal_coords::Scale;
use option_texts::{ExtraDims, NamedField};
use stage_names::{PipeErr, PipeFault};
use std::alloc::{AllocError, Global};

/// The step of values with so many decimal places in nanounits.
fn step_of(places: u32) -> i64
    ensures { result ≡ (places_scale places).nano }
{
    match places {
        0 => 1_000_000_000,
        1 => 100_000_000,
        2 => 10_000_000,
        3 => 1_000_000,
        4 => 100_000,
        5 => 10_000,
        6 => 1_000,
        7 => 100,
        8 => 10,
        _ => 1,
    }
}

/// Steps of values with so many decimal places; more than nine are as nine.
fn places_scale(places: u32) -> Scale
    ensures { result ≡ places_scale places }
{
    match Scale::new(step_of(places)) {
        Some(scale) => scale,
        None => unreachable!(),
    }
}

/// The place of a name that is that of an extra dimension of the layout.
fn extra_place(name: &str, names: &ExtraNames, layout: &Layout) -> Option<u8>
    ensures { MatchOption result (is_extra (holds layout.now) names.now name.now ≡ false)
        (λ place. (is_extra (holds layout.now) names.now name.now ≡ true)
        × (place_in name.now names.now ≡ Some place)) }
{
    let place = names.place(name)?;
    if layout.has(Dim::Extra(place)) {
        Some(place)
    } else {
        None
    }
}

/// The field for one that is asked for, at a place of the record. `DimUnknown` comes exactly where its name isn't that of an extra
/// dimension of the layout.
fn ask_field(
    alloc: Global,
    field: &NamedField,
    names: &ExtraNames,
    layout: &Layout,
    i: u32,
    at: usize,
) -> Result<ExtraField, PipeErr>
    ensures ok { IfOk result (λ f. f ≡ asked_field names.now at field.now) }
    ensures none { OnOk result (field_unknown i (holds layout.now) names.now field.now ≡ None) }
    ensures fault { IfErr result (IsFaultOf (field_unknown i (holds layout.now) names.now field.now)) }
{
    let name = field.name.try_copy(alloc)?;
    let Some(place) = extra_place(field.name.as_str(), names, layout) else {
        return Err(PipeErr::Fault(PipeFault::DimUnknown(i, name)));
    };
    Ok(ExtraField {
        name,
        place,
        kind: field.kind,
        at,
        scale: places_scale(field.places),
        offset: 0,
    })
}

/// The fields for these, one right behind another.
fn ask_each(
    alloc: Global,
    asked: &[NamedField],
    names: &ExtraNames,
    layout: &Layout,
    i: u32,
    from: usize,
) -> Result<FieldList, PipeErr>
    requires few { length asked.now ≤ 8 }
    requires near { from ≤ 65535 }
    ensures ok { IfOk result (λ fields. fields ≡ asked_fields names.now from asked.now) }
    ensures none { OnOk result (asked_fault i (holds layout.now) names.now asked.now ≡ None) }
    ensures fault { IfErr result (IsFaultOf (asked_fault i (holds layout.now) names.now asked.now)) }
    ensures few { IfOk result (λ fields. length fields ≤ 8) }
{
    let mut fields = Vec::new(alloc);
    let mut at = from;
    for field in asked {
        let bound = ask_field(alloc, field, names, layout, i, at)?;
        at += bound.kind.size();
        fields.push(bound).map_err(AllocError::from)?;
    }
    Ok(FieldList::new(fields))
}

/// What the type of extra names says of them.
pub(crate) fn known_names(names: &ExtraNames)
    ensures few { length names.now ≤ 8 }
    ensures different { DifferentNames names.now }
{
    let _names = names.as_slice();
}

/// The same fields, each so many bytes further behind.
pub fn move_fields(fields: FieldList, by: usize) -> FieldList
    requires near { All (λ f. f.at ≤ 64) fields }
    requires by { by ≤ 65535 }
    ensures { result ≡ map (moved by) fields }
{
    let mut moved = fields.into_vec();
    for field in moved.iter_mut() {
        field.at += by;
    }
    FieldList::new(moved)
}

/// Each extra dimension of a layout, as 64 bits with nine decimal places.
fn all_of(alloc: Global, names: &ExtraNames, layout: &Layout) -> Result<Vec<NamedField>, AllocError>
    ensures all { IfOk result (λ asked. asked.items ≡ all_from 0 (holds layout.now) names.now) }
    ensures few { IfOk result (λ asked. length asked.items ≤ 8) }
{
    let mut asked = Vec::new(alloc);
    for (place, name) in names.as_slice().iter().enumerate() {
        if layout.has(Dim::Extra(place as u8)) {
            asked.push(NamedField {
                name: name.try_copy(alloc)?,
                kind: ExtraKind::I64,
                places: 9,
            })?;
        }
    }
    Ok(asked)
}

/// The fields that the writer of stage i is asked for, over the extra names and the layout of its points: one right behind another
/// from byte `from` of the record on, with offset 0. Where the extra names are names of at most 32 bytes, and none of the standard's,
/// they are such as descriptors describe.
///
/// `DimUnknown` comes exactly where a name isn't that of an extra dimension of the layout, with the first such name, and `Memory`
/// only where there was none.
pub fn ask_fields(
    alloc: Global,
    dims: &ExtraDims,
    names: &ExtraNames,
    layout: &Layout,
    i: u32,
    from: usize,
) -> Result<FieldList, PipeErr>
    requires near { from ≤ 65535 }
    ensures ok { IfOk result (λ fields. fields
        ≡ asked_fields names.now from (asked_of (holds layout.now) names.now dims.now)) }
    ensures none { OnOk result (asked_fault i (holds layout.now) names.now
        (asked_of (holds layout.now) names.now dims.now) ≡ None) }
    ensures fault { IfErr result (IsFaultOf (asked_fault i (holds layout.now) names.now
        (asked_of (holds layout.now) names.now dims.now))) }
    ensures laid { AreOwn names.now → IfOk result (AreLaid from) }
    ensures few { IfOk result (λ fields. length fields ≤ 8) }
{
    known_names(names);
    match dims {
        ExtraDims::All => {
            let all = all_of(alloc, names, layout)?;
            ask_each(alloc, &all, names, layout, i, from)
        }
        ExtraDims::Fields(fields) => { ask_each(alloc, fields.as_slice(), names, layout, i, from) }
    }
}
