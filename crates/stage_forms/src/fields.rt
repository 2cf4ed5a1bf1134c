//! The extra dimensions that a reader takes of its file.

ghost use Rattle.std.specs.Prelude.{◌≡◌, ◌||◌, ◌≤◌, All, IfErr, IfOk, None, OnErr, OnOk};
ghost use Rattle.answer_model.specs.Values.{fields_found, is_of_fields};
ghost use Rattle.cloud_points.specs.Layouts.{holds};
ghost use Rattle.cloud_points.specs.declared.dims.Dim.{Dim as Dimension};
ghost use Rattle.extra_bytes.specs.Asked.{AreOwn};
ghost use Rattle.extra_bytes.specs.Bound.{EndsWithin, bound_fields, fields_fault, names_of, names_with};
ghost use Rattle.las_reader.specs.Lists.{AreFields};
ghost use Rattle.stage_forms.specs.Below.{read_of};
ghost use Rattle.stage_names.specs.Faults.{IsFaultOf};

use cloud_points::{Dim, ExtraField, ExtraNames, FieldList, Layout};
use extra_bytes::{bind_fields, find_fields};
use file_devices::Source;
use las_reader::LasReader;
use stage_names::PipeErr;
use stage_options::Options;
use std::alloc::{AllocError, Global};

/// The fields that a stage with these options takes of the file of its reader: those that its VLRs describe, where they are asked for.
fn find_in<S: Source>(
    alloc: Global,
    options: &Options,
    reader: &LasReader<S>,
) -> Result<FieldList, AllocError>
    ensures fields { IfOk result (λ fields. fields ≡ fields_found options.now (read_of reader.now)) }
    ensures within { IfOk result (All (EndsWithin reader.now.header.record_length)) }
    ensures own { IfOk result (λ fields. AreOwn (names_of fields)) }
{
    match options {
        Options::ReadersLas(options) if options.extra => {
            let header = reader.header();
            let from = header.format.size() as usize;
            find_fields(alloc, reader.vlrs(), from, header.record_length as usize)
        }
        _ => Ok(FieldList::none(alloc)),
    }
}

/// Puts the dimensions of these fields, each at a place from 0 to 7, into a set.
pub fn add_fields(layout: &mut Layout, fields: &[ExtraField])
    requires { All (λ f. f.place ≤ 7) fields.now }
    ensures { (dim : Dimension) → holds layout.new dim ≡ (holds layout.old dim || is_of_fields fields.now dim) }
{
    for field in fields {
        layout.add(Dim::Extra(field.place));
    }
}

/// The fields that stage i with these options takes of the file of its reader, with the places of their names among the extra names,
/// which are added there where they are new. Their dimensions are added to the set.
///
/// `TooManyDims` comes exactly where a name would be the ninth, and `Memory` only where there was none. After a refusal the set is as
/// before.
pub fn take_fields<S: Source>(
    alloc: Global,
    options: &Options,
    reader: &LasReader<S>,
    i: u32,
    layout: &mut Layout,
    names: &mut ExtraNames,
) -> Result<FieldList, PipeErr>
    ensures fields { IfOk result (λ fields. fields
        ≡ bound_fields names.old (fields_found options.now (read_of reader.now))) }
    ensures names { OnOk result (names.new
        ≡ names_with names.old (fields_found options.now (read_of reader.now))) }
    ensures own { OnOk result (AreOwn names.old → AreOwn names.new) }
    ensures layout { OnOk result ((dim : Dimension) → holds layout.new dim ≡ (holds layout.old dim
        || is_of_fields (bound_fields names.old (fields_found options.now (read_of reader.now))) dim)) }
    ensures fine { IfOk result (AreFields reader.now.header.record_length) }
    ensures none { OnOk result (fields_fault i names.old (fields_found options.now (read_of reader.now))
        ≡ None) }
    ensures fault { IfErr result (IsFaultOf
        (fields_fault i names.old (fields_found options.now (read_of reader.now)))) }
    ensures same { OnErr result (layout.new ≡ layout.old) }
{
    let found = find_in(alloc, options, reader)?;
    let fields = bind_fields(alloc, &found, i, names)?;
    add_fields(layout, fields.as_slice());
    Ok(fields)
}
