//! Header fields that are taken over.

ghost use Rattle.std.specs.Prelude.{◌≡◌, ◌++◌, ◌∷◌, [], ℕ, List, false, true, MatchOption, IfOk, is_some, bytes_eq};
ghost use Rattle.option_texts.specs.Forward.{is_field, field_of, forward_of};

use crate::parts::{ListPart, read_all, trimmed};
use file_devices::Name;
use std::alloc::{AllocError, Global};
use std::marker::Model;

/// Names in their order, which contracts see as a list.
#[derive(Drop)]
pub struct NameList {
    items: Vec<Name>,
}

impl Model for NameList {
    ghost Value = { List (List ℕ) };

    ghost view = { λ l. l.items.items };
}

impl NameList {
    /// The names, in their order.
    pub fn as_slice(&self) -> &[Name]
        ensures { result.now ≡ self.now }
    {
        self.items.as_slice()
    }

    /// Gives the names back. It takes no memory.
    pub fn into_vec(self) -> Vec<Name>
        ensures { result.items ≡ self }
    {
        self.items
    }
}

/// Whether a name is that of a field or of a group of fields.
fn is_field(name: &str) -> bool
    ensures { result ≡ is_field name.now }
{
    matches!(
        name,
        "all"
            | "header"
            | "format"
            | "scale"
            | "offset"
            | "vlr"
            | "dataformat_id"
            | "filesource_id"
            | "global_encoding"
            | "project_id"
            | "system_id"
            | "software_id"
            | "creation_doy"
            | "creation_year"
            | "scale_x"
            | "scale_y"
            | "scale_z"
            | "offset_x"
            | "offset_y"
            | "offset_z"
    )
}

/// Whether a text lists fields: 1 or more of their names, which may come again, with commas between them.
///
/// Blanks, tabs, line feeds and carriage returns may stand around a name. The case of letters counts. It takes no memory.
pub fn is_forward(text: &str) -> bool
    ensures { result ≡ is_some (forward_of text.now) }
{
    text.split(',').all(|part| is_field(trimmed(part)))
}

impl ListPart for Name {
    ghost read = { field_of };

    fn read(alloc: Global, part: &str) -> Result<Option<Name>, AllocError> {
        let name = trimmed(part);
        if !is_field(name) {
            return Ok(None);
        }
        Ok(Some(Name::new(String::from_str(alloc, name)?)))
    }
}

/// The names that a text lists, without the spaces around them, or `None` where it doesn't list any, as `is_forward` says.
pub fn forward_of(alloc: Global, text: &str) -> Result<Option<NameList>, AllocError>
    ensures { IfOk result (λ names. names ≡ forward_of text.now) }
{
    match read_all(alloc, text)? {
        Some(items) => Ok(Some(NameList { items })),
        None => Ok(None),
    }
}
