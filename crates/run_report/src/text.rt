//! Lines that are printed.

ghost use Rattle.std.specs.Prelude.{◌≡◌, ◌+◌, ◌≤◌, ◌++◌, decimal};
ghost use Rattle.arrayvec.specs.ArrayString.{array_string_len};

use arrayvec::ArrayString;
use itoa::Buffer;

/// The text of one line.
pub(crate) type Text = ArrayString<192>;

/// Puts a number behind the text.
pub(crate) fn push_number(number: u64, text: &mut Text)
    requires { array_string_len text.old + 20 ≤ 192 }
    ensures bytes { text.new.bytes ≡ text.old.bytes ++ decimal number }
    ensures len { array_string_len text.new ≤ array_string_len text.old + 20 }
{
    let mut buffer = Buffer::new();
    text.push_str(buffer.format(number));
}
