//! What the tallies of a caller say in the report.

ghost use Rattle.std.specs.Prelude.{◌≡◌, ◌≤◌, length};

use crate::padded::Padded;
use arrayvec::ArrayString;
use std::marker::Model;

/// What a tally says: a text of at most 256 bytes, which contracts see as the list of its bytes.
#[derive(Clone, Copy, Debug, PartialEq, Eq)]
pub struct Note {
    text: Padded<256>,
}

impl Model for Note {
    ghost use Rattle.std.specs.Prelude.{ℕ, List};

    ghost Value = { List ℕ };

    ghost view = { λ n. n.text };

    ghost inverse = { λ text. record { text = text } };
}

impl Note {
    /// The note with this text.
    pub fn new(text: ArrayString<256>) -> Note
        ensures { result ≡ text.bytes }
    {
        Note {
            text: Padded::of(text.as_str()),
        }
    }

    /// Its text.
    pub fn as_str(&self) -> &str
        ensures text { result.now ≡ self.now }
        ensures short { length result.now ≤ 256 }
    {
        self.text.as_str()
    }
}

/// What a tally is called: a text of at most 64 bytes, which contracts see as the list of its bytes.
#[derive(Clone, Copy, Debug, PartialEq, Eq)]
pub struct Label {
    text: Padded<64>,
}

impl Model for Label {
    ghost use Rattle.std.specs.Prelude.{ℕ, List};

    ghost Value = { List ℕ };

    ghost view = { λ l. l.text };

    ghost inverse = { λ text. record { text = text } };
}

impl Label {
    /// The label with this name.
    pub fn of(name: &str) -> Label
        requires { length name.now ≤ 64 }
        ensures { result ≡ name.now }
    {
        Label {
            text: Padded::of(name),
        }
    }

    /// The name.
    pub fn as_str(&self) -> &str
        ensures text { result.now ≡ self.now }
        ensures short { length result.now ≤ 64 }
    {
        self.text.as_str()
    }
}

/// What a tally of the caller said of the points that it was shown.
#[derive(Clone, Copy, Debug, PartialEq, Eq)]
pub struct TallyLine {
    /// What it is called.
    pub name: Label,

    /// What it said.
    pub text: Note,
}
