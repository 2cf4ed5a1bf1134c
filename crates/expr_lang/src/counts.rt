//! How many of the first bytes of a text are a word or a number.

ghost use Rattle.std.specs.Prelude.{◌≡◌, ◌≤◌, length};
ghost use Rattle.std.specs.List.{prefix_len};
ghost use Rattle.expr_lang.specs.Lexical as lexical;
ghost use Rattle.text_bytes.specs.Bytes.{is_digit, is_word};

use text_bytes::{is_digit, is_word};

fn words_counted(bytes: &[u8]) -> usize
    ensures { result ≡ prefix_len is_word bytes.now }
{
    bytes.iter().take_while(|b| is_word(**b)).count()
}

fn digits_counted(bytes: &[u8]) -> usize
    ensures { result ≡ prefix_len is_digit bytes.now }
{
    bytes.iter().take_while(|b| is_digit(**b)).count()
}

/// How many of the first bytes are letters, digits or `_`.
#[tactic(auto, using(crate::proofs::Spans::word_within))]
pub fn word_len(bytes: &[u8]) -> usize
    ensures value { result ≡ prefix_len is_word bytes.now }
    ensures within { result ≤ length bytes.now }
{
    words_counted(bytes)
}

/// How many of the first bytes are digits.
#[tactic(auto, using(crate::proofs::Spans::digits_within))]
fn digits_len(bytes: &[u8]) -> usize
    ensures value { result ≡ prefix_len is_digit bytes.now }
    ensures within { result ≤ length bytes.now }
{
    digits_counted(bytes)
}

/// How many of the first bytes are a point and the digits behind it.
fn part_len(bytes: &[u8]) -> usize
    ensures value { result ≡ lexical.part_len bytes.now }
    ensures within { result ≤ length bytes.now }
{
    match bytes {
        [first, rest @ ..] => {
            let digits = digits_len(rest);
            if *first != b'.' || digits == 0 {
                return 0;
            }
            digits + 1
        }
        [] => 0,
    }
}

/// How many of the first bytes are a number.
pub fn number_len(bytes: &[u8]) -> usize
    ensures value { result ≡ lexical.number_len bytes.now }
    ensures within { result ≤ length bytes.now }
{
    let digits = digits_len(bytes);
    digits + part_len(&bytes[digits..])
}
