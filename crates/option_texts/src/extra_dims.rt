//! The extra dimensions of a LAS file that is written.

ghost use Rattle.std.specs.Prelude.{◌≡◌, ◌≤◌, ◌∷◌, [], List, Some, None, true, MatchOption, IfOk, length};
ghost use Rattle.cloud_points.specs.ExtraNames.{same_name};
ghost use Rattle.option_texts.specs.NamedFields.{kind_called, field_with, field_typed, field_asked};
ghost use Rattle.option_texts.specs.NamedFields.{has_name, are_different, AreFields};
ghost use Rattle.option_texts.specs.ExtraDims.{extra_dims_of};

use crate::columns::read_digit;
use crate::parts::{ListPart, has_few_parts, read_all, trimmed};
use cloud_points::ExtraKind;
use file_devices::Name;
use std::alloc::{AllocError, Global};
use std::marker::Model;
use text_bytes::is_name;

/// The most fields of a text.
const MOST_FIELDS: usize = 8;

/// A field that holds an extra dimension.
#[derive(Drop)]
pub struct NamedField {
    /// The name of the dimension, as it stands in the text without the spaces around it.
    pub name: Name,
    /// The type of its raw numbers.
    pub kind: ExtraKind,
    /// The digit behind the colon, 0 where there is none: how many places its values have.
    pub places: u32,
}

/// The fields of a text, at most 8 with different names, which contracts see as a list.
#[derive(Drop)]
pub struct NamedFields {
    items: Vec<NamedField>,
}

impl Model for NamedFields {
    ghost use Rattle.std.specs.Prelude.{List};
    ghost use Rattle.option_texts.specs.NamedFields.{AreFields};
    ghost use Rattle.option_texts.specs.declared.extra_dims.NamedField.{NamedField as FieldSeen};

    ghost Value = { List FieldSeen };

    ghost view = { λ l. l.items.items };

    ghost invariant = { λ l. AreFields l.items.items };
}

impl NamedFields {
    /// The fields, in their order.
    pub fn as_slice(&self) -> &[NamedField]
        ensures fields { result.now ≡ self.now }
        ensures bounded { AreFields result.now }
    {
        self.items.as_slice()
    }
}

/// Which extra dimensions are written.
#[derive(Drop)]
pub enum ExtraDims {
    /// All of them.
    All,

    /// Those with these names.
    Fields(NamedFields),
}

/// A field whose name lies in the text.
#[derive(Clone, Copy)]
struct Asked<'a> {
    name: &'a str,
    kind: ExtraKind,
    places: u32,
}

/// The kind with a name.
fn kind_called(name: &str) -> Option<ExtraKind>
    ensures { result ≡ kind_called name.now }
{
    match name {
        "uint8" => Some(ExtraKind::U8),
        "int8" => Some(ExtraKind::I8),
        "uint16" => Some(ExtraKind::U16),
        "int16" => Some(ExtraKind::I16),
        "uint32" => Some(ExtraKind::U32),
        "int32" => Some(ExtraKind::I32),
        "uint64" => Some(ExtraKind::U64),
        "int64" => Some(ExtraKind::I64),
        _ => None,
    }
}

/// A field with this name and a kind, where they are such.
fn with_kind<'a>(name: &'a str, kind: Option<ExtraKind>, places: u32) -> Option<Asked<'a>>
    ensures { MatchOption result (field_with name.now kind places ≡ None)
        (λ f. field_with name.now kind places
        ≡ Some (record { name = f.name.now; kind = f.kind; places = f.places })) }
{
    let kind = kind?;
    if is_name(name) {
        Some(Asked { name, kind, places })
    } else {
        None
    }
}

/// A field with this name, and a type behind the `=`.
fn read_type<'a>(name: &'a str, text: &str) -> Option<Asked<'a>>
    ensures { MatchOption result (field_typed name.now text.now ≡ None)
        (λ f. field_typed name.now text.now
        ≡ Some (record { name = f.name.now; kind = f.kind; places = f.places })) }
{
    match text.split_once(':') {
        None => with_kind(name, kind_called(trimmed(text)), 0),
        Some((kind, digit)) => match read_digit(trimmed(digit)) {
            Some(places) => with_kind(name, kind_called(trimmed(kind)), places),
            None => None,
        },
    }
}

/// The field that a part stands for.
fn read_part<'a>(part: &'a str) -> Option<Asked<'a>>
    ensures { MatchOption result (field_asked part.now ≡ None)
        (λ f. field_asked part.now
        ≡ Some (record { name = f.name.now; kind = f.kind; places = f.places })) }
{
    match part.split_once('=') {
        None => None,
        Some((name, text)) => read_type(trimmed(name), text),
    }
}

impl ListPart for NamedField {
    ghost read = { field_asked };

    fn read(alloc: Global, part: &str) -> Result<Option<NamedField>, AllocError> {
        let Some(Asked { name, kind, places }) = read_part(part) else {
            return Ok(None);
        };
        let name = Name::new(String::from_str(alloc, name)?);
        Ok(Some(NamedField { name, kind, places }))
    }
}

/// Whether a field has this name, without regard to the case of ASCII letters.
fn is_named(field: &NamedField, name: &Name) -> bool
    ensures { result ≡ same_name name.now field.now.name }
{
    name.as_str().eq_ignore_ascii_case(field.name.as_str())
}

/// Whether one of these fields has this name.
fn has_name(name: &Name, fields: &[NamedField]) -> bool
    ensures { result ≡ has_name name.now fields.now }
{
    fields.iter().any(|field| is_named(field, name))
}

/// Whether no two fields have one name.
fn are_different(fields: &[NamedField]) -> bool
    ensures { result ≡ are_different fields.now }
{
    for (k, field) in fields.iter().enumerate() {
        if has_name(&field.name, &fields[k + 1..]) {
            return false;
        }
    }
    true
}

/// The extra dimensions that a text asks for, or `None` where it is no such text: `all`, or 1 to 8 parts `NAME=TYPE` or
/// `NAME=TYPE:DIGIT` with commas between them, in which no name comes again.
///
/// Names are as in `is_columns`, and the case of their letters doesn't count. A type is `uint8`, `int8`, `uint16`, `int16`,
/// `uint32`, `int32`, `uint64` or `int64`, and a digit says how many places the values have. Blanks, tabs, line feeds and
/// carriage returns may stand between all of these and at both ends.
pub fn extra_dims_of(alloc: Global, text: &str) -> Result<Option<ExtraDims>, AllocError>
    ensures { IfOk result (λ dims. dims ≡ extra_dims_of text.now) }
{
    if trimmed(text) == "all" {
        return Ok(Some(ExtraDims::All));
    }
    if !has_few_parts(text, MOST_FIELDS) {
        return Ok(None);
    }
    match read_all(alloc, text)? {
        Some(items) => {
            if are_different(items.as_slice()) {
                Ok(Some(ExtraDims::Fields(NamedFields { items })))
            } else {
                Ok(None)
            }
        }
        None => Ok(None),
    }
}
