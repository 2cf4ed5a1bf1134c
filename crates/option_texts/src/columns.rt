//! The columns of a text file.

ghost use Rattle.std.specs.Prelude.{◌≡◌, ◌≤◌, ◌++◌, ◌∷◌, [], List, Some, None, false, true, MatchOption, IfOk, is_some, length, nat_le};
ghost use Rattle.std.specs.List.{list_all};
ghost use Rattle.option_texts.specs.Columns.{digit_of, column_with, column_of, columns_of, AreColumns};
ghost use Rattle.option_texts.specs.Parts.{parts_of};
ghost use Rattle.option_texts.specs.declared.columns.NamedColumn.{NamedColumn as ColumnSeen};

use crate::parts::{ListPart, MOST_PARTS, has_few_parts, read_all, trimmed};
use file_devices::Name;
use std::alloc::{AllocError, Global};
use std::marker::Model;
use text_bytes::is_name;

/// A column of a list.
#[derive(Drop)]
pub struct NamedColumn {
    /// The name, as it stands in the text without the spaces around it.
    pub name: Name,
    /// The digit behind the colon, where there is one.
    pub places: Option<u32>,
}

/// The columns of a text, at most 64 with at most one digit each, which contracts see as a list.
#[derive(Drop)]
pub struct NamedColumns {
    items: Vec<NamedColumn>,
}

impl Model for NamedColumns {
    ghost use Rattle.std.specs.Prelude.{List};
    ghost use Rattle.option_texts.specs.Columns.{AreColumns};
    ghost use Rattle.option_texts.specs.declared.columns.NamedColumn.{NamedColumn as ColumnSeen};

    ghost Value = { List ColumnSeen };

    ghost view = { λ l. l.items.items };

    ghost invariant = { λ l. AreColumns l.items.items };
}

impl NamedColumns {
    /// No columns. It takes no memory.
    pub fn none(alloc: Global) -> Self
        ensures { result ≡ [] }
    {
        NamedColumns {
            items: Vec::new(alloc),
        }
    }

    /// The columns, in their order.
    pub fn as_slice(&self) -> &[NamedColumn]
        ensures columns { result.now ≡ self.now }
        ensures bounded { AreColumns result.now }
    {
        self.items.as_slice()
    }

    /// Gives the columns back. It takes no memory.
    pub fn into_vec(self) -> Vec<NamedColumn>
        ensures { result.items ≡ self }
    {
        self.items
    }
}

/// A column whose name lies in the text.
#[derive(Clone, Copy)]
struct Cell<'a> {
    name: &'a str,
    places: Option<u32>,
}

/// The digit that a text is.
pub(crate) fn read_digit(text: &str) -> Option<u32>
    ensures { result ≡ digit_of text.now }
{
    match text.as_bytes() {
        [digit] if digit.is_ascii_digit() => Some((*digit - b'0') as u32),
        _ => None,
    }
}

/// A column with this name, where it is one.
fn with_name<'a>(name: &'a str, places: Option<u32>) -> Option<Cell<'a>>
    ensures { MatchOption result (column_with name.now places ≡ None)
        (λ c. column_with name.now places ≡ Some (record { name = c.name.now; places = c.places })) }
{
    if is_name(name) {
        Some(Cell { name, places })
    } else {
        None
    }
}

/// The column that a part stands for.
fn read_part<'a>(part: &'a str) -> Option<Cell<'a>>
    ensures { MatchOption result (column_of part.now ≡ None)
        (λ c. column_of part.now ≡ Some (record { name = c.name.now; places = c.places })) }
{
    match part.split_once(':') {
        None => with_name(trimmed(part), None),
        Some((name, digit)) => match read_digit(trimmed(digit)) {
            Some(places) => with_name(trimmed(name), Some(places)),
            None => None,
        },
    }
}

fn is_column(part: &str) -> bool
    ensures { result ≡ is_some (column_of part.now) }
{
    read_part(part).is_some()
}

/// Whether each part of a text stands for a column.
fn are_columns(text: &str) -> bool
    ensures { result ≡ list_all (λ part. is_some (column_of part)) (parts_of text.now) }
{
    text.split(',').all(|part| is_column(part))
}

/// Whether a text lists columns: 1 to 64 names, each perhaps with a colon and a digit behind it, with commas between them.
///
/// A name is an ASCII letter or `_`, and then ASCII letters, digits and `_`. Blanks, tabs, line feeds and carriage
/// returns may stand between all of these and at both ends. It takes no memory.
pub fn is_columns(text: &str) -> bool
    ensures { result ≡ is_some (columns_of text.now) }
{
    has_few_parts(text, MOST_PARTS) && are_columns(text)
}

impl ListPart for NamedColumn {
    ghost read = { column_of };

    fn read(alloc: Global, part: &str) -> Result<Option<NamedColumn>, AllocError> {
        let Some(Cell { name, places }) = read_part(part) else {
            return Ok(None);
        };
        let name = Name::new(String::from_str(alloc, name)?);
        Ok(Some(NamedColumn { name, places }))
    }
}

/// The columns that a text lists, or `None` where it doesn't list any, as `is_columns` says.
pub fn columns_of(alloc: Global, text: &str) -> Result<Option<NamedColumns>, AllocError>
    ensures { IfOk result (λ columns. columns ≡ columns_of text.now) }
{
    if !has_few_parts(text, MOST_PARTS) {
        return Ok(None);
    }
    match read_all(alloc, text)? {
        Some(items) => Ok(Some(NamedColumns { items })),
        None => Ok(None),
    }
}
