//! The form of a text file.

ghost use Rattle.std.specs.Prelude.{◌≡◌, ◌≤◌, length};

use cloud_points::Dim;
use file_devices::Name;
use std::marker::Model;

/// A column of a text file.
#[derive(Drop)]
pub struct Column {
    /// What its values are.
    pub dim: Dim,
    /// Its name in the header line.
    pub name: Name,
    /// The digits behind the point, at most 9, of a coordinate or an angle; a whole number and a time have none.
    pub places: u32,
}

/// The columns of a text file, at most 64, which contracts see as a list.
#[derive(Drop)]
pub struct ColumnList {
    items: Vec<Column>,
}

impl Model for ColumnList {
    ghost use Rattle.std.specs.Prelude.{List, ◌≤◌, length};
    ghost use Rattle.text_writer.specs.declared.form.Column.{Column as ColumnSeen};

    ghost Value = { List ColumnSeen };

    ghost view = { λ l. l.items.items };

    ghost invariant = { λ l. length l.items.items ≤ 64 };
}

impl ColumnList {
    /// The list of these columns. It takes no memory.
    pub fn new(columns: Vec<Column>) -> Self
        requires { length columns.items ≤ 64 }
        ensures { result ≡ columns.items }
    {
        ColumnList { items: columns }
    }

    /// The columns, in their order.
    pub fn as_slice(&self) -> &[Column]
        ensures columns { result.now ≡ self.now }
        ensures few { length result.now ≤ 64 }
    {
        self.items.as_slice()
    }

    /// Gives the columns back. It takes no memory.
    pub fn into_vec(self) -> Vec<Column>
        ensures { result.items ≡ self }
    {
        self.items
    }
}

/// What stands between two columns, at most 8 bytes, which contracts see as the list of them.
#[derive(Drop)]
pub struct Separator {
    text: Name,
}

impl Model for Separator {
    ghost use Rattle.std.specs.Prelude.{ℕ, List, ◌≤◌, length};

    ghost Value = { List ℕ };

    ghost view = { λ s. s.text };

    ghost invariant = { λ s. length s.text ≤ 8 };
}

impl Separator {
    /// This text. It takes no memory.
    pub fn new(text: Name) -> Self
        requires { length text ≤ 8 }
        ensures { result ≡ text }
    {
        Separator { text }
    }

    /// The text.
    pub fn as_str(&self) -> &str
        ensures text { result.now ≡ self.now }
        ensures short { length result.now ≤ 8 }
    {
        self.text.as_str()
    }
}

/// The form of a text file.
#[derive(Drop)]
pub struct TextForm {
    /// The columns of a line, from the first.
    pub columns: ColumnList,
    /// What stands between two columns.
    pub delimiter: Separator,
    /// Whether the names in the header line stand in double quotes.
    pub quote_header: bool,
    /// Whether there is a header line.
    pub write_header: bool,
}

/// Why a writer couldn't begin.
#[derive(Clone, Copy, Debug, PartialEq, Eq)]
pub enum TextBeginErr {
    /// The sink failed.
    Failed,
    /// There was no memory for the header line or the buffer of lines.
    Memory,
}
