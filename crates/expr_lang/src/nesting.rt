//! How much is open at a token.

ghost use Rattle.std.specs.Prelude.{◌≡◌, ◌<◌, IsTrue, ◌↔◌};
ghost use Rattle.expr_lang.specs.Fronts.{nesting};
ghost use Rattle.expr_lang.specs.Seen.{is_opener, openers_in, waiting_of, waits};

use crate::frame::Pending;

/// The most parentheses and operators before one operand that are open at a token.
const MOST_OPEN: usize = 64;

/// Whether a frame counts as open.
fn is_open(frame: &Pending) -> bool
    ensures { result ≡ is_opener (waiting_of frame.now) }
{
    match frame {
        Pending::Left(_, _, _) => false,
        _ => true,
    }
}

/// How many are open.
fn openers(frames: &[Pending]) -> usize
    ensures { result ≡ openers_in frames.now }
{
    let mut n = 0;
    for frame in frames {
        if is_open(frame) {
            n += 1;
        }
    }
    n
}

/// Whether more is open than may be: parentheses, and operators before an operand that isn't whole.
pub fn is_deep(frames: &Vec<Pending>) -> bool
    ensures { IsTrue result ↔ (64 < nesting (waits frames.now.items)) }
{
    openers(frames.as_slice()) > MOST_OPEN
}
