//! What was read of a text, and what waits for an operand.

ghost use Rattle.std.specs.Prelude.{◌≡◌, IfOk, Some, None};
ghost use Rattle.expr_lang.specs.Formula as formula;
ghost use Rattle.expr_lang.specs.Formula.{is_condition, number, name};
ghost use Rattle.expr_lang.specs.Grammar.{bare, minus_at, not_at, binary_at, is_misfit, first_place, place_if};
ghost use Rattle.expr_lang.specs.Seen.{operand_of};
ghost use Rattle.expr_lang.specs.Trees.{formula_of};

use crate::expr::ExprTree;
use crate::op::{BinaryOp, is_of_conditions};
use file_devices::Name;
use std::alloc::{AllocError, Global};

/// An operand that was read.
#[derive(Drop)]
pub struct OperandTree {
    /// Its tree.
    pub tree: ExprTree,
    /// The place of its first operator with an operand of the wrong sort.
    pub wrong: Option<usize>,
}

/// What waits for an operand.
#[derive(Drop)]
pub enum Pending {
    /// An open parenthesis.
    Bracket,
    /// A `-` before one operand, with its place.
    Sign(usize),
    /// A `!`, with its place.
    Denial(usize),
    /// An operator with its left operand and its place.
    Left(OperandTree, usize, BinaryOp),
}

/// Whether the expression of a tree is a condition.
pub fn is_a_condition(tree: &ExprTree) -> bool
    ensures { result ≡ is_condition (formula_of tree.now) }
{
    match tree {
        ExprTree::Number(_) | ExprTree::Name(_) | ExprTree::Negative(_) => false,
        ExprTree::Sum(_, _)
        | ExprTree::Difference(_, _)
        | ExprTree::Product(_, _)
        | ExprTree::Quotient(_, _) => false,
        _ => true,
    }
}

/// The first of two places, of which the first stands before the second.
pub fn first_of(first: Option<usize>, second: Option<usize>) -> Option<usize>
    ensures { result ≡ first_place first second }
{
    match first {
        Some(at) => Some(at),
        None => second,
    }
}

/// The place where something is so.
fn at_if(is_so: bool, at: usize) -> Option<usize>
    ensures { result ≡ place_if is_so at }
{
    if is_so { Some(at) } else { None }
}

/// An operand of one number.
pub fn number_part(n: i64) -> OperandTree
    ensures { operand_of result ≡ bare (number n) }
{
    OperandTree {
        tree: ExprTree::Number(n),
        wrong: None,
    }
}

/// An operand of one name, which is copied.
pub fn name_part(alloc: Global, n: &Name) -> Result<OperandTree, AllocError>
    ensures { IfOk result (λ p. operand_of p ≡ bare (name n.now)) }
{
    let name = n.try_copy(alloc)?;
    Ok(OperandTree {
        tree: ExprTree::Name(name),
        wrong: None,
    })
}

/// The negative of an operand, with the place of its sign.
pub fn negative(alloc: Global, at: usize, part: OperandTree) -> Result<OperandTree, AllocError>
    ensures { IfOk result (λ p. operand_of p ≡ minus_at at (operand_of part)) }
{
    let own = at_if(is_a_condition(&part.tree), at);
    let wrong = first_of(own, part.wrong);
    let tree = ExprTree::Negative(Box::new(alloc, part.tree)?);
    Ok(OperandTree { tree, wrong })
}

/// The denial of an operand, with the place of its `!`.
pub fn denial(alloc: Global, at: usize, part: OperandTree) -> Result<OperandTree, AllocError>
    ensures { IfOk result (λ p. operand_of p ≡ not_at at (operand_of part)) }
{
    let own = at_if(!is_a_condition(&part.tree), at);
    let wrong = first_of(own, part.wrong);
    let tree = ExprTree::Not(Box::new(alloc, part.tree)?);
    Ok(OperandTree { tree, wrong })
}

/// Whether one of two operands is of another sort than the operator takes.
fn is_a_misfit(op: BinaryOp, a: &OperandTree, b: &OperandTree) -> bool
    ensures { result ≡ is_misfit op (operand_of a.now) (operand_of b.now) }
{
    let a = is_a_condition(&a.tree);
    let b = is_a_condition(&b.tree);
    if is_of_conditions(op) {
        !(a && b)
    } else {
        a || b
    }
}

/// The tree of an operator between two trees.
fn with_operator(op: BinaryOp, a: Box<ExprTree>, b: Box<ExprTree>) -> ExprTree
    ensures { formula_of result ≡ formula.binary op (formula_of a.value) (formula_of b.value) }
{
    match op {
        BinaryOp::Or => ExprTree::Or(a, b),
        BinaryOp::And => ExprTree::And(a, b),
        BinaryOp::Equal => ExprTree::Equal(a, b),
        BinaryOp::Different => ExprTree::Different(a, b),
        BinaryOp::AtMost => ExprTree::AtMost(a, b),
        BinaryOp::AtLeast => ExprTree::AtLeast(a, b),
        BinaryOp::Below => ExprTree::Below(a, b),
        BinaryOp::Above => ExprTree::Above(a, b),
        BinaryOp::Plus => ExprTree::Sum(a, b),
        BinaryOp::Minus => ExprTree::Difference(a, b),
        BinaryOp::Times => ExprTree::Product(a, b),
        BinaryOp::Over => ExprTree::Quotient(a, b),
    }
}

/// Two operands with an operator between them, and its place.
pub fn join(
    alloc: Global,
    at: usize,
    op: BinaryOp,
    a: OperandTree,
    b: OperandTree,
) -> Result<OperandTree, AllocError>
    ensures { IfOk result (λ p. operand_of p ≡ binary_at at op (operand_of a) (operand_of b)) }
{
    let own = at_if(is_a_misfit(op, &a, &b), at);
    let wrong = first_of(a.wrong, first_of(own, b.wrong));
    let tree = with_operator(op, Box::new(alloc, a.tree)?, Box::new(alloc, b.tree)?);
    Ok(OperandTree { tree, wrong })
}
