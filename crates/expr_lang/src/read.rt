//! Reading tokens up to WHERE or the end.

ghost use Rattle.std.specs.Prelude.{◌≡◌, ◌≤◌, ℕ, Some, None, IfOk, IsErrOf, length};
ghost use Rattle.expr_lang.specs.Faults.{is_bad_number};
ghost use Rattle.expr_lang.specs.Machine as machine;
ghost use Rattle.expr_lang.specs.Reading.{is_where, operand, fault, reading, ended as reading_ended};
ghost use Rattle.expr_lang.specs.Seen.{operand_of, state_of};
ghost use Rattle.expr_lang.specs.declared.fault.ExprKind.{ExprKind};
ghost use Rattle.expr_lang.specs.declared.read.ReadErr.TheVariants.{Memory};

use crate::fault::ExprKind;
use crate::frame::{OperandTree, Pending};
use crate::machine::{StepErr, close, step};
use crate::nesting::is_deep;
use crate::token::{Placed, Token};
use std::alloc::{AllocError, Global};

/// An operand, and how many tokens it has.
#[derive(Drop)]
pub struct Stretch {
    /// The operand.
    pub part: OperandTree,
    /// Its tokens.
    pub size: usize,
}

/// Why tokens aren't read.
#[derive(Debug, Drop)]
pub enum ReadErr {
    /// The number of the token, or of tokens where the end is it, and its fault.
    Fault(usize, ExprKind),
    /// There was no memory.
    Memory,
}

impl From<AllocError> for ReadErr {
    ghost from_gives = { λ _ e. e ≡ Memory };

    fn from(_: AllocError) -> ReadErr {
        ReadErr::Memory
    }
}

/// Whether a number is none that is held.
fn is_a_bad_number(token: &Token) -> bool
    ensures { result ≡ is_bad_number token.now }
{
    match token {
        Token::BadNumber => true,
        _ => false,
    }
}

/// Whether a token is the word WHERE.
fn is_the_where(token: &Token) -> bool
    ensures { result ≡ is_where token.now }
{
    match token {
        Token::Where => true,
        _ => false,
    }
}

/// The operand, where no operator, sign or parenthesis waits for more.
fn whole(
    alloc: Global,
    frames: &mut Vec<Pending>,
    part: Option<OperandTree>,
) -> Result<OperandTree, StepErr>
    ensures ok { IfOk result
        (λ p. machine.whole (machine.closed 1 (state_of frames.old.items part)) ≡ Some (operand_of p)) }
    ensures unexpected { IsErrOf result StepErr.Unexpected
        → machine.whole (machine.closed 1 (state_of frames.old.items part)) ≡ None }
{
    let Some(part) = part else {
        return Err(StepErr::Unexpected);
    };
    let part = close(alloc, 1, frames, part)?;
    if frames.is_empty() {
        Ok(part)
    } else {
        Err(StepErr::Unexpected)
    }
}

/// The operand that ends at a token.
fn ended(
    alloc: Global,
    mut frames: Vec<Pending>,
    part: Option<OperandTree>,
    size: usize,
) -> Result<Stretch, ReadErr>
    ensures ok { IfOk result
        (λ s. operand (operand_of s.part) s.size
        ≡ reading_ended (machine.whole (machine.closed 1 (state_of frames.items part))) size) }
    ensures fault { (at : ℕ) (kind : ExprKind) → IsErrOf result (ReadErr.Fault at kind)
        → fault at kind ≡ reading_ended (machine.whole (machine.closed 1 (state_of frames.items part))) size }
    ensures size { IfOk result (λ s. s.size ≡ size) }
    ensures place { (at : ℕ) (kind : ExprKind) → IsErrOf result (ReadErr.Fault at kind) → at ≡ size }
{
    match whole(alloc, &mut frames, part) {
        Ok(part) => Ok(Stretch { part, size }),
        Err(StepErr::Unexpected) => Err(ReadErr::Fault(size, ExprKind::Unexpected)),
        Err(StepErr::Memory) => Err(ReadErr::Memory),
    }
}

/// The operand that the tokens write up to the first WHERE or the end, or the first token that has a fault.
pub fn read(alloc: Global, tokens: &[Placed]) -> Result<Stretch, ReadErr>
    ensures ok { IfOk result (λ s. operand (operand_of s.part) s.size ≡ reading machine.start 0 tokens.now) }
    ensures fault { (at : ℕ) (kind : ExprKind) → IsErrOf result (ReadErr.Fault at kind)
        → fault at kind ≡ reading machine.start 0 tokens.now }
    ensures within { IfOk result (λ s. s.size ≤ length tokens.now) }
    ensures place { (at : ℕ) (kind : ExprKind) → IsErrOf result (ReadErr.Fault at kind)
        → at ≤ length tokens.now }
{
    let mut frames = Vec::new(alloc);
    let mut part = None;
    for (i, placed) in tokens.iter().enumerate() {
        if is_deep(&frames) {
            return Err(ReadErr::Fault(i, ExprKind::TooDeep));
        }
        if is_a_bad_number(&placed.token) {
            return Err(ReadErr::Fault(i, ExprKind::BadNumber));
        }
        if is_the_where(&placed.token) {
            return ended(alloc, frames, part, i);
        }
        part = match step(alloc, &mut frames, part, placed.at, &placed.token) {
            Ok(next) => next,
            Err(StepErr::Unexpected) => return Err(ReadErr::Fault(i, ExprKind::Unexpected)),
            Err(StepErr::Memory) => return Err(ReadErr::Memory),
        };
    }
    if is_deep(&frames) {
        return Err(ReadErr::Fault(tokens.len(), ExprKind::TooDeep));
    }
    ended(alloc, frames, part, tokens.len())
}
