//! Ferries: from which dimension a value goes to which.

ghost use Rattle.std.specs.Prelude.{◌≡◌, [], Some, None, MatchOption, IfOk};
ghost use Rattle.option_texts.specs.Ferries.{AreFerries, ferry_with, ferry_of, ferries_of};

use crate::parts::{ListPart, MOST_PARTS, has_few_parts, read_all, trimmed};
use file_devices::Name;
use std::alloc::{AllocError, Global};
use std::marker::Model;
use text_bytes::is_name;

/// From which dimension a value goes to which, by their names.
#[derive(Drop)]
pub struct NamedFerry {
    /// The name of the dimension that has the value.
    pub from: Name,
    /// The name of the dimension that takes it.
    pub to: Name,
}

/// The ferries of a text, at most 64, each to a name, which contracts see as a list.
#[derive(Drop)]
pub struct NamedFerries {
    items: Vec<NamedFerry>,
}

impl Model for NamedFerries {
    ghost use Rattle.std.specs.Prelude.{List};
    ghost use Rattle.option_texts.specs.Ferries.{AreFerries};
    ghost use Rattle.option_texts.specs.declared.ferries.NamedFerry.{NamedFerry as FerrySeen};

    ghost Value = { List FerrySeen };

    ghost view = { λ l. l.items.items };

    ghost invariant = { λ l. AreFerries l.items.items };
}

impl NamedFerries {
    /// No ferries. It takes no memory.
    pub fn none(alloc: Global) -> Self
        ensures { result ≡ [] }
    {
        NamedFerries {
            items: Vec::new(alloc),
        }
    }

    /// The ferries, in the order in which they go.
    pub fn as_slice(&self) -> &[NamedFerry]
        ensures ferries { result.now ≡ self.now }
        ensures named { AreFerries result.now }
    {
        self.items.as_slice()
    }
}

/// A ferry whose names lie in the text.
#[derive(Clone, Copy)]
struct Ends<'a> {
    from: &'a str,
    to: &'a str,
}

/// The ends of a ferry, where they are names.
fn with_names<'a>(from: &'a str, to: &'a str) -> Option<Ends<'a>>
    ensures { MatchOption result (ferry_with from.now to.now ≡ None)
        (λ e. ferry_with from.now to.now ≡ Some (record { from = e.from.now; to = e.to.now })) }
{
    if is_name(from) && is_name(to) {
        Some(Ends { from, to })
    } else {
        None
    }
}

/// The ends of the ferry that a part stands for.
fn read_part<'a>(part: &'a str) -> Option<Ends<'a>>
    ensures { MatchOption result (ferry_of part.now ≡ None)
        (λ e. ferry_of part.now ≡ Some (record { from = e.from.now; to = e.to.now })) }
{
    let (from, behind) = part.split_once('=')?;
    match behind.split_once('>') {
        Some(("", to)) => with_names(trimmed(from), trimmed(to)),
        _ => None,
    }
}

impl ListPart for NamedFerry {
    ghost read = { ferry_of };

    fn read(alloc: Global, part: &str) -> Result<Option<NamedFerry>, AllocError> {
        let Some(Ends { from, to }) = read_part(part) else {
            return Ok(None);
        };
        let from = Name::new(String::from_str(alloc, from)?);
        let to = Name::new(String::from_str(alloc, to)?);
        Ok(Some(NamedFerry { from, to }))
    }
}

/// The ferries that a text lists, or `None` where it doesn't list any: 1 to 64 parts `FROM => TO` with commas between them.
///
/// Names are as in `is_columns`. Blanks, tabs, line feeds and carriage returns may stand around a name; the two signs of an
/// arrow stand together.
pub fn ferries_of(alloc: Global, text: &str) -> Result<Option<NamedFerries>, AllocError>
    ensures { IfOk result (λ ferries. ferries ≡ ferries_of text.now) }
{
    if !has_few_parts(text, MOST_PARTS) {
        return Ok(None);
    }
    match read_all(alloc, text)? {
        Some(items) => Ok(Some(NamedFerries { items })),
        None => Ok(None),
    }
}
