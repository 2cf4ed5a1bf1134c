//! Short texts that lie in the value itself.

ghost use Rattle.std.specs.Prelude.{◌≡◌, ◌≤◌, length};

use std::marker::Model;
use std::str;

/// A text of at most `CAP` bytes, with zeros behind it, so that two values with one text are the same. Contracts see
/// it as the list of its bytes.
#[derive(Clone, Copy, Debug, PartialEq, Eq)]
pub(crate) struct Padded<const CAP: usize> {
    bytes: [u8; CAP],
    len: usize,
}

impl<const CAP: usize> Model for Padded<CAP> {
    ghost use Rattle.std.specs.Prelude.{ℕ, List, ◌-◌, ◌++◌, length, take, replicate};
    ghost use Rattle.run_report.specs.Padding.{IsPadded};

    ghost Value = { List ℕ };

    ghost view = { λ p. take p.len p.bytes };

    ghost invariant = { λ p. IsPadded CAP p.len p.bytes };

    ghost inverse = { λ text. record { bytes = text ++ replicate (CAP - length text) 0; len = length text } };

    ghost inverse_ok = { λ p h i. record { bytes = h.padded i; len = h.counted i } };
}

impl<const CAP: usize> Padded<CAP> {
    /// A copy of this text.
    pub(crate) fn of(text: &str) -> Self
        requires { length text.now ≤ CAP }
        ensures { result ≡ text.now }
    {
        let mut bytes = [0; CAP];
        let len = text.len();
        bytes[..len].copy_from_slice(text.as_bytes());
        Padded { bytes, len }
    }

    /// The text.
    pub(crate) fn as_str(&self) -> &str
        ensures text { result.now ≡ self.now }
        ensures short { length result.now ≤ CAP }
    {
        match str::from_utf8(&self.bytes[..self.len]) {
            Ok(text) => text,
            Err(_) => unreachable!(),
        }
    }
}
