//! The formats of point data records.

ghost use Rattle.std.specs.Prelude.{◌≡◌};
ghost use Rattle.las_header.specs.Formats.{format_of, format_number, format_size};

/// A format of point data records that is read and written.
#[derive(Clone, Copy, Debug, PartialEq, Eq)]
pub enum Format {
    F0,
    F1,
    F2,
    F3,
    F6,
    F7,
    F8,
}

impl Format {
    /// The format with this number; `None` exactly where it isn't 0, 1, 2, 3, 6, 7 or 8.
    pub fn of_number(number: u8) -> Option<Format>
        ensures { result ≡ format_of number }
    {
        match number {
            0 => Some(Format::F0),
            1 => Some(Format::F1),
            2 => Some(Format::F2),
            3 => Some(Format::F3),
            6 => Some(Format::F6),
            7 => Some(Format::F7),
            8 => Some(Format::F8),
            _ => None,
        }
    }

    /// The number of the format, as the header has it.
    pub fn number(self) -> u8
        ensures { result ≡ format_number self }
    {
        match self {
            Format::F0 => 0,
            Format::F1 => 1,
            Format::F2 => 2,
            Format::F3 => 3,
            Format::F6 => 6,
            Format::F7 => 7,
            Format::F8 => 8,
        }
    }

    /// The bytes that the fields of a record take.
    pub fn size(self) -> u16
        ensures { result ≡ format_size self }
    {
        match self {
            Format::F0 => 20,
            Format::F1 => 28,
            Format::F2 => 26,
            Format::F3 => 34,
            Format::F6 => 30,
            Format::F7 => 36,
            Format::F8 => 38,
        }
    }
}
