//! The tag and the type of a stage.

ghost use Rattle.std.specs.Prelude.{◌≡◌, length, option_map, ◌||◌};
ghost use Rattle.std.specs.Str.{str_to_ascii_lowercase};
ghost use Rattle.std.specs.List.{list_all};
ghost use Rattle.pipeline_json.specs.Stages.{is_word, is_tag, is_bad_tag, is_unnamed, has_ending, inferred, kind_of};

use stage_names::KindName;

/// The most bytes of a tag after the first.
const MOST_WORDS: usize = 63;

/// Whether a byte is a letter, a digit or `_`.
fn is_word(byte: u8) -> bool
    ensures { result ≡ is_word byte }
{
    byte.is_ascii_alphanumeric() || byte == b'_'
}

/// Whether all bytes are letters, digits or `_`.
fn are_words(bytes: &[u8]) -> bool
    ensures { result ≡ list_all is_word bytes.now }
{
    bytes.iter().all(|b| is_word(*b))
}

/// Whether a text may be a tag.
fn is_tag(tag: &str) -> bool
    ensures { result ≡ is_tag tag.now }
{
    match tag.as_bytes() {
        [first, rest @ ..] => {
            first.is_ascii_alphabetic() && rest.len() <= MOST_WORDS && are_words(rest)
        }
        [] => false,
    }
}

/// Whether there is a tag that may be none.
pub(crate) fn is_bad_tag(tag: Option<&str>) -> bool
    ensures { result ≡ is_bad_tag (option_map (λ s. s.now) tag.entry) }
{
    match tag {
        None => false,
        Some(tag) => !is_tag(tag),
    }
}

/// Whether the name of the file is empty, or there is neither it nor a type.
pub(crate) fn is_unnamed(kind: Option<&str>, filename: Option<&str>) -> bool
    ensures { result ≡ is_unnamed (option_map (λ s. s.now) kind.entry)
        (option_map (λ s. s.now) filename.entry) }
{
    match filename {
        None => kind.is_none(),
        Some(name) => name.is_empty(),
    }
}

/// Whether a name's last four bytes are these, without regard to ASCII case.
fn has_ending(name: &str, ending: &str) -> bool
    requires { length ending.now ≡ 4 }
    ensures { result ≡ has_ending (str_to_ascii_lowercase ending.now) name.now }
{
    let bytes = name.as_bytes();
    let last = &bytes[bytes.len().saturating_sub(4)..];
    last.eq_ignore_ascii_case(ending.as_bytes())
}

/// The type that a file name stands for, in the place of a writer and elsewhere.
fn inferred(is_end: bool, name: &str) -> Option<KindName>
    ensures { result ≡ inferred is_end name.now }
{
    if has_ending(name, ".las") {
        if is_end {
            return Some(KindName::WritersLas);
        }
        return Some(KindName::ReadersLas);
    }
    if is_end
        && (has_ending(name, ".txt") || has_ending(name, ".csv") || has_ending(name, ".xyz"))
    {
        return Some(KindName::WritersText);
    }
    None
}

/// The type of a stage: the one that is named, or else the one that its file name stands for.
pub(crate) fn kind_of(is_end: bool, kind: Option<&str>, filename: Option<&str>) -> Option<KindName>
    ensures { result ≡ kind_of is_end (option_map (λ s. s.now) kind.entry)
        (option_map (λ s. s.now) filename.entry) }
{
    match kind {
        Some(kind) => KindName::named(kind),
        None => match filename {
            Some(name) => inferred(is_end, name),
            None => None,
        },
    }
}
