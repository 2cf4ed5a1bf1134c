//! The names of files that are read and written.

ghost use Rattle.std.specs.Prelude.{◌≡◌, count_by, string_bytes, IfOk};
ghost use Rattle.stage_options.specs.Values.{is_part, is_source, is_target, is_numbered, numbered, is_mark};

use itoa::Buffer;
use std::alloc::{AllocError, Global};

/// Whether a name is one of a file that isn't done yet.
fn is_part(name: &str) -> bool
    ensures { result ≡ is_part name.now }
{
    name.ends_with(".lasline-part")
}

/// Whether a name may be that of a file that is read.
pub fn is_source(name: &str) -> bool
    ensures { result ≡ is_source name.now }
{
    !is_part(name)
}

/// How often a `#` stands in a name.
fn marks(name: &str) -> usize
    ensures { result ≡ count_by is_mark name.now }
{
    name.as_bytes().iter().filter(|b| **b == b'#').count()
}

/// Whether a name may be that of a file that is written: it holds at most one `#`.
pub fn is_target(name: &str) -> bool
    ensures { result ≡ is_target name.now }
{
    !is_part(name) && marks(name) <= 1
}

/// Whether a name holds a `#`.
pub fn is_numbered(name: &str) -> bool
    ensures { result ≡ is_numbered name.now }
{
    name.as_bytes().contains(&b'#')
}

/// The name with the digits of a view's number in place of each `#`. Refused only where memory is wanting.
pub fn numbered(alloc: Global, name: &str, view_number: u64) -> Result<String, AllocError>
    ensures { IfOk result (λ text. string_bytes text ≡ numbered name.now view_number) }
{
    let mut buffer = Buffer::new();
    let digits = buffer.format(view_number);
    let mut text = String::new(alloc);
    let mut rest = name;
    while let Some((front, back)) = rest.split_once('#') {
        text.push_str(front)?;
        text.push_str(digits)?;
        rest = back;
    }
    text.push_str(rest)?;
    Ok(text)
}
