//! Groups of returns.

ghost use Rattle.std.specs.Prelude.{◌≡◌};
ghost use Rattle.std.specs.List.{list_all};
ghost use Rattle.option_texts.specs.Groups.{is_group, names_group, groups_of};
ghost use Rattle.option_texts.specs.Parts.{trimmed, parts_of};

use crate::parts::trimmed;

/// Which groups of returns are named, by the place of a return among those of its pulse.
#[derive(Clone, Copy, Debug, PartialEq, Eq)]
pub struct Groups {
    /// The first of several returns.
    pub first: bool,

    /// The last of several returns.
    pub last: bool,

    /// Of several returns those between the first and the last.
    pub intermediate: bool,

    /// Single returns.
    pub only: bool,
}

/// Whether a name is that of a group.
fn is_group(name: &str) -> bool
    ensures { result ≡ is_group name.now }
{
    matches!(name, "first" | "last" | "intermediate" | "only")
}

/// Whether each part of a text names a group.
fn are_groups(text: &str) -> bool
    ensures { result ≡ list_all (λ part. is_group (trimmed part)) (parts_of text.now) }
{
    text.split(',').all(|part| is_group(trimmed(part)))
}

/// Whether a part of a text names this group.
fn names_group(text: &str, group: &str) -> bool
    ensures { result ≡ names_group text.now group.now }
{
    text.split(',').any(|part| trimmed(part) == group)
}

/// The groups that a text names, or `None` where it doesn't name any: 1 or more of `first`, `last`, `intermediate` and `only`,
/// which may come again, with commas between them.
///
/// Blanks, tabs, line feeds and carriage returns may stand around a name. The case of letters counts. It takes no memory.
pub fn groups_of(text: &str) -> Option<Groups>
    ensures { result ≡ groups_of text.now }
{
    if !are_groups(text) {
        return None;
    }
    Some(Groups {
        first: names_group(text, "first"),
        last: names_group(text, "last"),
        intermediate: names_group(text, "intermediate"),
        only: names_group(text, "only"),
    })
}
