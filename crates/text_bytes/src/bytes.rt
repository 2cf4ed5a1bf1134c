//! The sorts of bytes in a text.

ghost use Rattle.std.specs.Prelude.{◌≡◌, ◌<◌, true};
ghost use Rattle.std.specs.List.{list_all};
ghost use Rattle.text_bytes.specs.Bytes.{is_space, is_digit, is_letter, is_word, is_name};

/// Whether a byte is a space, a tab, a line feed or a carriage return.
pub fn is_space(b: u8) -> bool
    ensures { result ≡ is_space b }
{
    b == b' ' || b == b'\t' || b == b'\n' || b == b'\r'
}

/// Whether a byte is a digit.
pub fn is_digit(b: u8) -> bool
    ensures value { result ≡ is_digit b }
    ensures ascii { result ≡ true → b < 128 }
{
    b.is_ascii_digit()
}

/// Whether a byte is a letter or `_`, with which a name may begin.
pub fn is_letter(b: u8) -> bool
    ensures value { result ≡ is_letter b }
    ensures ascii { result ≡ true → b < 128 }
{
    b.is_ascii_alphabetic() || b == b'_'
}

/// Whether a byte is a letter, a digit or `_`, with which a name may go on.
pub fn is_word(b: u8) -> bool
    ensures value { result ≡ is_word b }
    ensures ascii { result ≡ true → b < 128 }
{
    is_letter(b) || is_digit(b)
}

/// Whether all bytes are letters, digits or `_`.
fn are_word_bytes(bytes: &[u8]) -> bool
    ensures { result ≡ list_all is_word bytes.now }
{
    bytes.iter().all(|b| is_word(*b))
}

/// Whether a text is a name: a letter or `_`, and then letters, digits and `_`.
pub fn is_name(text: &str) -> bool
    ensures { result ≡ is_name text.now }
{
    match text.as_bytes() {
        [first, rest @ ..] => is_letter(*first) && are_word_bytes(rest),
        [] => false,
    }
}
