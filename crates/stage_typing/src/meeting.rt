//! Names of writers under which one file may be written twice.

ghost use Rattle.std.specs.Prelude.{◌≡◌, option_map};
ghost use Rattle.stage_typing.specs.Meeting.{parts_of, is_number, is_number_before, has_digits, begin_alike, end_alike, may_meet};

/// The parts of a name before and behind its `#`, where it has one.
fn parts_of(name: &str) -> Option<(&str, &str)>
    ensures { option_map (λ p. (p.0.now, p.1.now)) result ≡ parts_of name.now }
{
    name.split_once('#')
}

/// Whether a text is one digit or more.
fn is_number(text: &[u8]) -> bool
    ensures { result ≡ is_number text.now }
{
    !text.is_empty() && text.iter().all(|b| b.is_ascii_digit())
}

/// Whether a text is one digit or more before this part.
fn is_number_before(part: &[u8], text: &[u8]) -> bool
    ensures { result ≡ is_number_before part.now text.now }
{
    text.ends_with(part) && is_number(&text[..text.len() - part.len()])
}

/// Whether a text is two parts with one digit or more between them.
fn has_digits(front: &[u8], back: &[u8], text: &[u8]) -> bool
    ensures { result ≡ has_digits (front.now, back.now) text.now }
{
    text.starts_with(front) && is_number_before(back, &text[front.len()..])
}

/// Whether one of two texts begins with the other.
fn begin_alike(one: &[u8], other: &[u8]) -> bool
    ensures { result ≡ begin_alike one.now other.now }
{
    one.starts_with(other) || other.starts_with(one)
}

/// Whether one of two texts ends with the other.
fn end_alike(one: &[u8], other: &[u8]) -> bool
    ensures { result ≡ end_alike one.now other.now }
{
    one.ends_with(other) || other.ends_with(one)
}

/// Whether two names of writers may come to name one file.
pub(crate) fn may_meet(one: &str, other: &str) -> bool
    ensures { result ≡ may_meet one.now other.now }
{
    match (parts_of(one), parts_of(other)) {
        (None, None) => one == other,
        (Some((front, back)), None) => {
            has_digits(front.as_bytes(), back.as_bytes(), other.as_bytes())
        }
        (None, Some((front, back))) => {
            has_digits(front.as_bytes(), back.as_bytes(), one.as_bytes())
        }
        (Some((front, back)), Some((first, last))) => {
            begin_alike(front.as_bytes(), first.as_bytes())
                && end_alike(back.as_bytes(), last.as_bytes())
        }
    }
}
