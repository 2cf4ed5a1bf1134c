//! One token at a time: what waits for an operand, on a stack.

ghost use Rattle.std.specs.Prelude.{◌≡◌, ◌++◌, ◌∷◌, [], Some, None, IfOk, OnOk, IsErrOf};
ghost use Rattle.expr_lang.specs.Machine as machine;
ghost use Rattle.expr_lang.specs.Seen.{operand_of, state_of, waits};
ghost use Rattle.expr_lang.specs.declared.machine.StepErr.TheVariants.{Memory};

use crate::frame::{OperandTree, Pending, denial, join, name_part, negative, number_part};
use crate::op::{BinaryOp, left_level_of, level_of};
use crate::token::Token;
use std::alloc::{AllocError, Global};

/// Why a token isn't taken.
#[derive(Debug, Drop)]
pub enum StepErr {
    /// No expression goes on so.
    Unexpected,
    /// There was no memory.
    Memory,
}

impl From<AllocError> for StepErr {
    ghost from_gives = { λ _ e. e ≡ Memory };

    fn from(_: AllocError) -> StepErr {
        StepErr::Memory
    }
}

/// The operators of at least this level take the operand.
pub fn close(
    alloc: Global,
    least: u8,
    frames: &mut Vec<Pending>,
    mut part: OperandTree,
) -> Result<OperandTree, AllocError>
    ensures { IfOk result
        (λ p. state_of frames.new.items (Some p) ≡ machine.close least (waits frames.old.items) (operand_of part)) }
{
    while let Some(frame) = frames.pop() {
        match frame {
            Pending::Left(left, at, op) if level_of(op) >= least => {
                part = join(alloc, at, op, left, part)?;
            }
            frame => {
                frames.push_reserved(frame);
                return Ok(part);
            }
        }
    }
    Ok(part)
}

/// A whole operand: the operators before it take it.
fn finish(
    alloc: Global,
    frames: &mut Vec<Pending>,
    mut part: OperandTree,
) -> Result<OperandTree, AllocError>
    ensures { IfOk result
        (λ p. state_of frames.new.items (Some p) ≡ machine.finish (waits frames.old.items) (operand_of part)) }
{
    while let Some(frame) = frames.pop() {
        match frame {
            Pending::Denial(at) => part = denial(alloc, at, part)?,
            Pending::Sign(at) => part = negative(alloc, at, part)?,
            frame => {
                frames.push_reserved(frame);
                return Ok(part);
            }
        }
    }
    Ok(part)
}

/// One more that waits, the innermost.
fn put(frames: &mut Vec<Pending>, frame: Pending) -> Result<(), AllocError>
    ensures { OnOk result (frames.new.items ≡ frames.old.items ++ frame ∷ []) }
{
    frames.push(frame)?;
    Ok(())
}

/// An operator behind its closed left operand.
fn push_operator(
    at: usize,
    op: BinaryOp,
    frames: &mut Vec<Pending>,
    part: OperandTree,
) -> Result<(), StepErr>
    ensures ok { OnOk result
        (machine.pushed at op (state_of frames.old.items (Some part)) ≡ state_of frames.new.items None) }
    ensures unexpected { IsErrOf result StepErr.Unexpected
        → machine.pushed at op (state_of frames.old.items (Some part)) ≡ machine.dead }
{
    if let Some(Pending::Left(_, _, before)) = frames.last() {
        if level_of(*before) >= level_of(op) {
            return Err(StepErr::Unexpected);
        }
    }
    put(frames, Pending::Left(part, at, op))?;
    Ok(())
}

/// The operand inside a parenthesis that closes.
fn unwrap_operand(
    alloc: Global,
    frames: &mut Vec<Pending>,
    part: OperandTree,
) -> Result<OperandTree, StepErr>
    ensures ok { IfOk result
        (λ p. machine.unwrapped (state_of frames.old.items (Some part)) ≡ state_of frames.new.items (Some p)) }
    ensures unexpected { IsErrOf result StepErr.Unexpected
        → machine.unwrapped (state_of frames.old.items (Some part)) ≡ machine.dead }
{
    match frames.pop() {
        Some(Pending::Bracket) => Ok(finish(alloc, frames, part)?),
        _ => Err(StepErr::Unexpected),
    }
}

/// One more token, which stands at a place.
pub fn step(
    alloc: Global,
    frames: &mut Vec<Pending>,
    part: Option<OperandTree>,
    at: usize,
    token: &Token,
) -> Result<Option<OperandTree>, StepErr>
    ensures ok { IfOk result
        (λ p. machine.stepped (state_of frames.old.items part) at token.now ≡ state_of frames.new.items p) }
    ensures unexpected { IsErrOf result StepErr.Unexpected
        → machine.stepped (state_of frames.old.items part) at token.now ≡ machine.dead }
{
    let Some(part) = part else {
        match token {
            Token::Number(n) => return Ok(Some(finish(alloc, frames, number_part(*n))?)),
            Token::Name(n) => {
                let name = name_part(alloc, n)?;
                return Ok(Some(finish(alloc, frames, name)?));
            }
            Token::Not => put(frames, Pending::Denial(at))?,
            Token::Operator(BinaryOp::Minus) => put(frames, Pending::Sign(at))?,
            Token::Open => put(frames, Pending::Bracket)?,
            _ => return Err(StepErr::Unexpected),
        }
        return Ok(None);
    };
    match token {
        Token::Operator(op) => {
            let part = close(alloc, left_level_of(*op), frames, part)?;
            push_operator(at, *op, frames, part)?;
            Ok(None)
        }
        Token::Close => {
            let part = close(alloc, 1, frames, part)?;
            Ok(Some(unwrap_operand(alloc, frames, part)?))
        }
        _ => Err(StepErr::Unexpected),
    }
}
