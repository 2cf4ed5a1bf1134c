//! The places of faults of sorts: a condition in the place of a value, or a value in that of a condition.

ghost use Rattle.std.specs.Prelude.{◌≡◌, ◌<◌, ◌^◌, slice_get, option_map};
ghost use Rattle.expr_lang.specs.Grammar.{place_if};
ghost use Rattle.expr_lang.specs.Seen.{operand_of};
ghost use Rattle.expr_lang.specs.Texts.{place_at, condition_sorts, only_wrong, is_only_misfit, assignment_sorts};

use crate::assign::AssignParts;
use crate::frame::{OperandTree, first_of, is_a_condition};
use crate::token::Placed;

/// The place of a token, or of the end.
pub fn place_of(tokens: &[Placed], k: usize, end: usize) -> usize
    ensures { result ≡ place_at end (slice_get tokens.now k) }
{
    match tokens.get(k) {
        Some(placed) => placed.at,
        None => end,
    }
}

/// The place of the first fault of sorts where all tokens are this operand, which is to be a condition.
pub fn condition_misfit(tokens: &[Placed], part: &OperandTree) -> Option<usize>
    ensures { result ≡ condition_sorts tokens.now (operand_of part.now) }
{
    let own = if is_a_condition(&part.tree) {
        None
    } else {
        Some(place_of(tokens, 0, 0))
    };
    first_of(part.wrong, own)
}

/// Whether a value stands behind WHERE.
fn is_limit_misfit(only: &Option<OperandTree>) -> bool
    ensures { result ≡ is_only_misfit (option_map operand_of only.now) }
{
    match only {
        Some(part) => !is_a_condition(&part.tree),
        None => false,
    }
}

/// The place of the first fault of sorts behind WHERE.
fn limit_wrong(only: &Option<OperandTree>) -> Option<usize>
    ensures { result ≡ only_wrong (option_map operand_of only.now) }
{
    match only {
        Some(part) => part.wrong,
        None => None,
    }
}

/// The place of a token, where something is so.
fn place_where(is_so: bool, tokens: &[Placed], k: usize) -> Option<usize>
    ensures { result ≡ place_if is_so (place_at 0 (slice_get tokens.now k)) }
{
    if is_so {
        Some(place_of(tokens, k, 0))
    } else {
        None
    }
}

/// The place of the first fault of sorts of an assignment.
pub fn assignment_misfit(tokens: &[Placed], parts: &AssignParts) -> Option<usize>
    requires { parts.now.size < 2 ^ 60 }
    ensures { result ≡ assignment_sorts tokens.now parts.now.size (operand_of parts.now.value)
        (option_map operand_of parts.now.only) }
{
    let value = place_where(is_a_condition(&parts.value.tree), tokens, 2);
    let only = place_where(is_limit_misfit(&parts.only), tokens, parts.size + 3);
    first_of(
        parts.value.wrong,
        first_of(limit_wrong(&parts.only), first_of(value, only)),
    )
}
