//! The forms of files that are written.

ghost use Rattle.std.specs.Prelude.{◌≡◌, ◌<◌, ◌≤◌, All, IfOk, length, map};
ghost use Rattle.answer_model.specs.Forms.{column_of, text_form};
ghost use Rattle.expr_eval.specs.Bindings.{dim_of};
ghost use Rattle.extra_bytes.specs.Fields.{AreLaid};
ghost use Rattle.forward_rules.specs.Forwarded.{form_of};
ghost use Rattle.las_writer.specs.LasOutput.{IsForm};
ghost use Rattle.stage_forms.specs.Below.{reads_in};
ghost use Rattle.stage_forms.specs.Starts.{with_fields};
ghost use Rattle.text_writer.specs.TextOutput.{IsTextForm};

use cloud_points::{Dim, ExtraNames, FieldList};
use extra_bytes::move_fields;
use file_devices::{Name, Source};
use forward_rules::{Forwarding, LasForm};
use las_reader::LasReader;
use option_texts::NamedColumn;
use stage_options::{LasFields, TextOptions};
use std::alloc::{AllocError, Global};
use text_writer::{Column, ColumnList, Separator, TextForm};

/// The dimension of a name, beside these extra names; it is there in every run, since names are bound before.
fn dim_of(name: &str, names: &ExtraNames) -> Dim
    ensures { result ≡ dim_of names.now name.now }
{
    cloud_points::dim_of(name, names).unwrap_or(Dim::X)
}

/// A column of a file whose columns have so many places where they say none.
fn column(
    alloc: Global,
    names: &ExtraNames,
    precision: u32,
    named: &NamedColumn,
) -> Result<Column, AllocError>
    ensures { IfOk result (λ c. c ≡ column_of names.now precision named.now) }
{
    Ok(Column {
        dim: dim_of(named.name.as_str(), names),
        name: named.name.try_copy(alloc)?,
        places: named.places.unwrap_or(precision),
    })
}

/// The columns of such a file.
fn columns(
    alloc: Global,
    names: &ExtraNames,
    precision: u32,
    named: &[NamedColumn],
) -> Result<ColumnList, AllocError>
    requires { length named.now ≤ 64 }
    ensures { IfOk result (λ columns. columns ≡ map (column_of names.now precision) named.now) }
{
    let mut columns = Vec::with_capacity(alloc, named.len())?;
    for one in named {
        columns.push(column(alloc, names, precision, one)?)?;
    }
    Ok(ColumnList::new(columns))
}

/// The form of the file of a text writer with these options, beside these extra names. Refused only where memory is wanting.
pub fn text_form(
    alloc: Global,
    names: &ExtraNames,
    options: &TextOptions,
) -> Result<TextForm, AllocError>
    ensures value { IfOk result (λ f. f ≡ text_form names.now options.now) }
    ensures form { IfOk result IsTextForm }
{
    let precision = options.precision.count();
    let delimiter = String::from_str(alloc, options.delimiter.as_str())?;
    let between = Name::new(delimiter);
    Ok(TextForm {
        columns: columns(alloc, names, precision, options.columns.as_slice())?,
        delimiter: Separator::new(between),
        quote_header: options.quote_header,
        write_header: options.write_header,
    })
}

/// A form in whose records these fields stand, behind those of the format.
fn with_fields(form: LasForm, extra: FieldList) -> LasForm
    requires laid { AreLaid 0 extra }
    requires few { length extra ≤ 8 }
    requires form { IsForm form }
    ensures value { result ≡ with_fields form extra }
    ensures form { IsForm result }
{
    let mut form = form;
    form.extra = move_fields(extra, form.format.size() as usize);
    form
}

/// The form of the file of a LAS writer with these options and these extra dimensions, behind the readers of these numbers. Refused
/// only where memory is wanting.
pub fn las_form<S: Source>(
    alloc: Global,
    fields: &LasFields,
    extra: FieldList,
    readers: &[Option<LasReader<S>>],
    below: &[u32],
) -> Result<LasForm, AllocError>
    requires inside { All (λ j. j < length readers.now) below.now }
    requires laid { AreLaid 0 extra }
    requires few { length extra ≤ 8 }
    ensures value { IfOk result (λ f. f
        ≡ with_fields (form_of fields.now (reads_in readers.now below.now)) extra) }
    ensures form { IfOk result IsForm }
{
    let mut forwarding = Forwarding::begin(alloc, fields.as_options())?;
    for number in below {
        if let Some(reader) = &readers[*number as usize] {
            forwarding.add(alloc, reader.header(), reader.vlrs(), reader.evlrs())?;
        }
    }
    let form = forwarding.form(alloc);
    Ok(with_fields(form, extra))
}
