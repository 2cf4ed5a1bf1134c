//! Texts of expressions.

ghost use Rattle.std.specs.Prelude.{◌≡◌, None, Some, IfOk, IsErrOf, option_map};
ghost use Rattle.expr_lang.specs.Faults.{HasNoFault};
ghost use Rattle.expr_lang.specs.Fronts.{IsTooDeep};
ghost use Rattle.expr_lang.specs.Seen.{operand_of};
ghost use Rattle.expr_lang.specs.Said.{condition_in, condition_of, assignment_in, assignment_of_text};
ghost use Rattle.expr_lang.specs.Texts.{language, formula_in, HasTokenFault, IsConditionSaid, SaysCondition, HasConditionFault};
ghost use Rattle.expr_lang.specs.Texts.{IsAssignmentSaid, IsTooDeepAssignment, SaysAssignment, HasAssignmentFault};
ghost use Rattle.expr_lang.specs.declared.fault.ExprFault.{ExprFault};

use crate::assign::read_assignment;
use crate::expr::{Assign, Expr};
use crate::fault::{ExprErr, ExprFault, ExprKind};
use crate::frame::OperandTree;
use crate::read::{ReadErr, read};
use crate::sorts::{assignment_misfit, condition_misfit, place_of};
use crate::split::tokens;
use crate::token::Placed;
use std::alloc::Global;

/// The most bytes of a text.
const MOST_BYTES: usize = 4096;

/// The refusal of a fault.
fn fault(at: usize, kind: ExprKind) -> ExprErr
    ensures { result ≡ ExprErr.Fault (record { at = at; kind = kind }) }
{
    ExprErr::Fault(ExprFault { at, kind })
}

/// The condition that tokens say, where the text ends at a place.
fn condition(alloc: Global, tokens: &[Placed], end: usize) -> Result<Expr, ExprErr>
    ensures none { IfOk result (λ _. HasNoFault (language IsConditionSaid IsTooDeep) tokens.now) }
    ensures said { IfOk result (λ e. IsConditionSaid tokens.now e None) }
    ensures value { IfOk result (λ e. condition_in tokens.now ≡ Some e) }
    ensures refused { (f : ExprFault) → IsErrOf result (ExprErr.Fault f) → condition_in tokens.now ≡ None }
    ensures fault { (f : ExprFault) → IsErrOf result (ExprErr.Fault f)
        → HasTokenFault IsConditionSaid IsTooDeep end tokens.now f.at f.kind }
{
    let stretch = match read(alloc, tokens) {
        Ok(stretch) => stretch,
        Err(ReadErr::Fault(k, kind)) => return Err(fault(place_of(tokens, k, end), kind)),
        Err(ReadErr::Memory) => return Err(ExprErr::Memory),
    };
    if stretch.size < tokens.len() {
        return Err(fault(place_of(tokens, stretch.size, end), ExprKind::Unexpected));
    }
    match condition_misfit(tokens, &stretch.part) {
        Some(at) => Err(fault(at, ExprKind::Unexpected)),
        None => Ok(Expr::new(stretch.part.tree)),
    }
}

/// The condition behind WHERE.
fn limit_expr(only: Option<OperandTree>) -> Option<Expr>
    ensures { result ≡ option_map formula_in (option_map operand_of only) }
{
    match only {
        Some(part) => Some(Expr::new(part.tree)),
        None => None,
    }
}

/// The assignment that tokens say, where the text ends at a place.
fn assignment(alloc: Global, tokens: &[Placed], end: usize) -> Result<Assign, ExprErr>
    ensures none { IfOk result (λ _. HasNoFault (language IsAssignmentSaid IsTooDeepAssignment) tokens.now) }
    ensures said { IfOk result (λ a. IsAssignmentSaid tokens.now a None) }
    ensures value { IfOk result (λ a. assignment_in tokens.now ≡ Some a) }
    ensures refused { (f : ExprFault) → IsErrOf result (ExprErr.Fault f) → assignment_in tokens.now ≡ None }
    ensures fault { (f : ExprFault) → IsErrOf result (ExprErr.Fault f)
        → HasTokenFault IsAssignmentSaid IsTooDeepAssignment end tokens.now f.at f.kind }
{
    let parts = match read_assignment(alloc, tokens) {
        Ok(parts) => parts,
        Err(ReadErr::Fault(k, kind)) => return Err(fault(place_of(tokens, k, end), kind)),
        Err(ReadErr::Memory) => return Err(ExprErr::Memory),
    };
    match assignment_misfit(tokens, &parts) {
        Some(at) => Err(fault(at, ExprKind::Unexpected)),
        None => Ok(Assign {
            target: parts.target,
            value: Expr::new(parts.value.tree),
            only: limit_expr(parts.only),
        }),
    }
}

/// The condition that a text of at most 4,096 bytes says.
///
/// The fault that is answered is the text's length, else that of the first token that has one, else the first operator with an
/// operand of the wrong sort, else the first byte where the whole is a value.
#[tactic(auto, unfolding(crate::specs::Said::condition_of))]
pub fn parse_expr(alloc: Global, text: &str) -> Result<Expr, ExprErr>
    ensures says { IfOk result (λ e. SaysCondition text.now e) }
    ensures fault { (f : ExprFault) → IsErrOf result (ExprErr.Fault f) → HasConditionFault text.now f }
    ensures value { IfOk result (λ e. condition_of text.now ≡ Some e) }
    ensures refused { (f : ExprFault) → IsErrOf result (ExprErr.Fault f) → condition_of text.now ≡ None }
{
    if text.len() > MOST_BYTES {
        return Err(fault(MOST_BYTES, ExprKind::TooLong));
    }
    let tokens = tokens(alloc, text)?;
    condition(alloc, tokens.as_slice(), text.len())
}

/// The assignment that a text of at most 4,096 bytes says: a name, `=`, a value, and perhaps WHERE and a condition.
///
/// The fault that is answered is the text's length, else that of the first token that has one, else the first operator with an
/// operand of the wrong sort, else the first byte of the value or of the condition, where that is of the wrong sort.
#[tactic(auto, unfolding(crate::specs::Said::assignment_of_text))]
pub fn parse_assign(alloc: Global, text: &str) -> Result<Assign, ExprErr>
    ensures says { IfOk result (λ a. SaysAssignment text.now a) }
    ensures fault { (f : ExprFault) → IsErrOf result (ExprErr.Fault f) → HasAssignmentFault text.now f }
    ensures value { IfOk result (λ a. assignment_of_text text.now ≡ Some a) }
    ensures refused { (f : ExprFault) → IsErrOf result (ExprErr.Fault f) → assignment_of_text text.now ≡ None }
{
    if text.len() > MOST_BYTES {
        return Err(fault(MOST_BYTES, ExprKind::TooLong));
    }
    let tokens = tokens(alloc, text)?;
    assignment(alloc, tokens.as_slice(), text.len())
}
