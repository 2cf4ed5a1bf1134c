//! What a stage does with files and views.

ghost use Rattle.std.specs.Prelude.{◌≡◌, option_map};
ghost use Rattle.stage_options.specs.Roles.{source_of, target_of, pattern_of, written_name, is_gathering, writing_role};
ghost use Rattle.stage_options.specs.Seen.{role_view};

use crate::file_names::is_numbered;

/// What a stage does with files and views.
#[derive(Clone, Copy, Drop)]
pub enum Role<'a> {
    /// It reads the file of this name.
    Reads(&'a str),

    /// It has no file, and takes points one after the other.
    Filters,

    /// It has no file, and needs whole views.
    Gathers,

    /// It writes the file of this name.
    Writes(&'a str),

    /// It needs whole views, and writes a file for each: in the file's name the view's number, counted from 1, stands in
    /// place of the `#` of this name.
    WritesEach(&'a str),
}

impl<'a> Role<'a> {
    /// What a writer does that is given this name: with a `#` in it, it writes a file for each view.
    pub(crate) fn writing(name: &'a str) -> Role<'a>
        ensures { role_view result ≡ writing_role name.now }
    {
        if is_numbered(name) {
            Role::WritesEach(name)
        } else {
            Role::Writes(name)
        }
    }

    /// The name of the file that is read; None exactly where none is.
    pub fn source(self) -> Option<&'a str>
        ensures { option_map (λ s. s.now) result ≡ source_of (role_view self.entry) }
    {
        match self {
            Role::Reads(name) => Some(name),
            _ => None,
        }
    }

    /// The name of the file that is written; None where none is, and where a file is written for each view.
    pub fn target(self) -> Option<&'a str>
        ensures { option_map (λ s. s.now) result ≡ target_of (role_view self.entry) }
    {
        match self {
            Role::Writes(name) => Some(name),
            _ => None,
        }
    }

    /// The name with a `#` by which the files of the views are named; None exactly where there is no file for each view.
    pub fn pattern(self) -> Option<&'a str>
        ensures { option_map (λ s. s.now) result ≡ pattern_of (role_view self.entry) }
    {
        match self {
            Role::WritesEach(name) => Some(name),
            _ => None,
        }
    }

    /// The name that a writer is given, with a `#` or without; None exactly for a stage that writes no file.
    pub fn written(self) -> Option<&'a str>
        ensures { option_map (λ s. s.now) result ≡ written_name (role_view self.entry) }
    {
        match self {
            Role::Writes(name) | Role::WritesEach(name) => Some(name),
            _ => None,
        }
    }

    /// Whether the stage needs whole views.
    pub fn needs_views(self) -> bool
        ensures { result ≡ is_gathering (role_view self.entry) }
    {
        matches!(self, Role::Gathers | Role::WritesEach(_))
    }
}
