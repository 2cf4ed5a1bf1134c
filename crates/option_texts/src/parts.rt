//! Parts of a list in a text.

ghost use Rattle.std.specs.Prelude.{◌≡◌, option_map, nat_le, length, IfOk};
ghost use Rattle.option_texts.specs.Parts.{trimmed, parts_of, each_read};

use std::alloc::{AllocError, Global};

/// The most parts of a list of columns or ferries.
pub(crate) const MOST_PARTS: usize = 64;

/// What may stand between the tokens of a list.
const SPACES: [char; 4] = [' ', '\t', '\n', '\r'];

/// The text without the spaces at its ends.
pub(crate) fn trimmed(text: &str) -> &str
    ensures { result.now ≡ trimmed text.now }
{
    text.trim_start_matches(SPACES).trim_end_matches(SPACES)
}

/// Whether a text has at most so many parts.
pub(crate) fn has_few_parts(text: &str, most: usize) -> bool
    ensures { result ≡ nat_le (length (parts_of text.now)) most }
{
    text.split(',').count() <= most
}

/// What a part of a list stands for.
pub(crate) trait ListPart: Sized + Drop {
    ghost use Rattle.std.specs.Prelude.{ℕ, List, Option, IfOk};

    ghost read: { List ℕ → Option Self };

    /// What this part stands for, where it stands for something. Refused only where memory is wanting.
    fn read(alloc: Global, part: &str) -> Result<Option<Self>, AllocError>
        ensures { IfOk result (λ o. o ≡ read part.now) };
}

/// What the parts of a text stand for, where each stands for something. Refused only where memory is wanting.
pub(crate) fn read_all<P: ListPart>(alloc: Global, text: &str) -> Result<Option<Vec<P>>, AllocError>
    ensures { IfOk result (λ o. option_map (λ list. list.items) o ≡ each_read P.read (parts_of text.now)) }
{
    let mut list = Vec::new(alloc);
    let mut rest = text;
    while let Some((part, behind)) = rest.split_once(',') {
        match P::read(alloc, part)? {
            Some(read) => list.push(read)?,
            None => return Ok(None),
        }
        rest = behind;
    }
    match P::read(alloc, rest)? {
        Some(read) => list.push(read)?,
        None => return Ok(None),
    }
    Ok(Some(list))
}
