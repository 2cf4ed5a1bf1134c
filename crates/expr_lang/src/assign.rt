//! Reading the tokens of an assignment.

ghost use Rattle.std.specs.Prelude.{◌≡◌, ℕ, ◌+◌, ◌≤◌, ◌<◌, List, Some, IfOk, OnOk, IsErrOf, length, drop, option_map};
ghost use Rattle.expr_lang.specs.Grammar.{Operand};
ghost use Rattle.expr_lang.specs.Machine.{start};
ghost use Rattle.expr_lang.specs.Reading.{reading};
ghost use Rattle.expr_lang.specs.Reading.{target, bad, refused, head_reading, parts, unread, with_only, with_value, assign_reading};
ghost use Rattle.expr_lang.specs.Seen.{operand_of};
ghost use Rattle.expr_lang.specs.declared.fault.ExprKind.{ExprKind};

use crate::fault::ExprKind;
use crate::frame::OperandTree;
use crate::read::{ReadErr, read};
use crate::token::{Placed, Token};
use file_devices::Name;
use std::alloc::Global;

/// What an assignment has.
#[derive(Drop)]
pub struct AssignParts {
    /// The name before `=`.
    pub target: Name,
    /// The operand behind it.
    pub value: OperandTree,
    /// How many tokens that operand has.
    pub size: usize,
    /// The operand behind WHERE.
    pub only: Option<OperandTree>,
}

/// The fault of a token that no assignment has there.
fn refuse(k: usize, token: &Token) -> ReadErr
    ensures { (at : ℕ) (kind : ExprKind) → result ≡ ReadErr.Fault at kind → bad at kind ≡ refused k token.now }
{
    match token {
        Token::BadNumber => ReadErr::Fault(k, ExprKind::BadNumber),
        _ => ReadErr::Fault(k, ExprKind::Unexpected),
    }
}

/// The name before `=`, or the first fault of the two tokens.
fn head(alloc: Global, tokens: &[Placed]) -> Result<Name, ReadErr>
    ensures ok { IfOk result (λ n. target n ≡ head_reading tokens.now) }
    ensures fault { (at : ℕ) (kind : ExprKind) → IsErrOf result (ReadErr.Fault at kind)
        → bad at kind ≡ head_reading tokens.now }
    ensures long { OnOk result (2 ≤ length tokens.now) }
{
    match tokens {
        [] => Err(ReadErr::Fault(0, ExprKind::Unexpected)),
        [first] => match &first.token {
            Token::Name(_) => Err(ReadErr::Fault(1, ExprKind::Unexpected)),
            token => Err(refuse(0, token)),
        },
        [first, second, ..] => match &first.token {
            Token::Name(name) => match &second.token {
                Token::Assign => Ok(name.try_copy(alloc)?),
                token => Err(refuse(1, token)),
            },
            token => Err(refuse(0, token)),
        },
    }
}

/// The operand behind WHERE, which stands behind the value's tokens, up to the end.
fn only(alloc: Global, tokens: &[Placed], size: usize) -> Result<OperandTree, ReadErr>
    requires { size + 2 < length tokens.now }
    ensures ok { (n : List ℕ) (v : Operand) → IfOk result (λ p. parts n v size (Some (operand_of p))
        ≡ with_only n v size (length tokens.now) (reading start 0 (drop (size + 3) tokens.now))) }
    ensures fault { (n : List ℕ) (v : Operand) (at : ℕ) (kind : ExprKind) → IsErrOf result (ReadErr.Fault at kind)
        → unread at kind ≡ with_only n v size (length tokens.now) (reading start 0 (drop (size + 3) tokens.now)) }
{
    match read(alloc, &tokens[size + 3..]) {
        Ok(stretch) => {
            let end = size + 3 + stretch.size;
            if end < tokens.len() {
                Err(ReadErr::Fault(end, ExprKind::Unexpected))
            } else {
                Ok(stretch.part)
            }
        }
        Err(ReadErr::Fault(k, kind)) => Err(ReadErr::Fault(size + 3 + k, kind)),
        Err(ReadErr::Memory) => Err(ReadErr::Memory),
    }
}

/// What stands behind a name and `=`.
fn behind(alloc: Global, tokens: &[Placed], target: Name) -> Result<AssignParts, ReadErr>
    requires { 2 ≤ length tokens.now }
    ensures ok { IfOk result (λ p. parts p.target (operand_of p.value) p.size (option_map operand_of p.only)
        ≡ with_value target tokens.now (reading start 0 (drop 2 tokens.now))) }
    ensures size { IfOk result (λ p. p.size ≤ length tokens.now) }
    ensures fault { (at : ℕ) (kind : ExprKind) → IsErrOf result (ReadErr.Fault at kind)
        → unread at kind ≡ with_value target tokens.now (reading start 0 (drop 2 tokens.now)) }
{
    let stretch = match read(alloc, &tokens[2..]) {
        Ok(stretch) => stretch,
        Err(ReadErr::Fault(k, kind)) => return Err(ReadErr::Fault(k + 2, kind)),
        Err(ReadErr::Memory) => return Err(ReadErr::Memory),
    };
    let size = stretch.size;
    if size + 2 < tokens.len() {
        let limit = only(alloc, tokens, size)?;
        return Ok(AssignParts {
            target,
            value: stretch.part,
            size,
            only: Some(limit),
        });
    }
    Ok(AssignParts {
        target,
        value: stretch.part,
        size,
        only: None,
    })
}

/// The parts of the assignment that the tokens write, or the first token that has a fault.
pub fn read_assignment(alloc: Global, tokens: &[Placed]) -> Result<AssignParts, ReadErr>
    ensures ok { IfOk result (λ p. parts p.target (operand_of p.value) p.size (option_map operand_of p.only)
        ≡ assign_reading tokens.now) }
    ensures size { IfOk result (λ p. p.size ≤ length tokens.now) }
    ensures fault { (at : ℕ) (kind : ExprKind) → IsErrOf result (ReadErr.Fault at kind)
        → unread at kind ≡ assign_reading tokens.now }
{
    match head(alloc, tokens) {
        Ok(target) => behind(alloc, tokens, target),
        Err(fault) => Err(fault),
    }
}
