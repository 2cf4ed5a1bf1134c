//! The value of an expression at a point.

ghost use Rattle.std.specs.Prelude.{◌≡◌, ◌≤◌, ◌^◌, IfOk, unsigned_abs};
ghost use Rattle.expr_eval.specs.Trees.{formula_of};
ghost use Rattle.expr_eval.specs.Values.{value_of, holds_at, both, compares, computed, judged};
ghost use Rattle.expr_lang.specs.Formula.{minus, not, binary};

use crate::arith::{ArithFault, computed};
use crate::bound::{Bound, BoundTree};
use cloud_points::Point;
use expr_lang::BinaryOp;

/// The value of a tree at a point.
///
/// It is inlined where it is called, so that a leaf, as most operands are, is read without a call.
#[inline(always)]
#[cycle(values)]
fn tree_value(e: &BoundTree, p: &Point) -> Result<i128, ArithFault>
    ensures value { result ≡ value_of (formula_of e.now) p.now }
    ensures small { IfOk result (λ v. unsigned_abs v ≤ 10 ^ 27) }
{
    match e {
        BoundTree::Number(n) => Ok(*n as i128),
        BoundTree::Dim(dim) => Ok(p.get(*dim)),
        BoundTree::Negative(a) => negative_value(a, p),
        BoundTree::Sum(a, b) => pair_value(BinaryOp::Plus, a, b, p),
        BoundTree::Difference(a, b) => pair_value(BinaryOp::Minus, a, b, p),
        BoundTree::Product(a, b) => pair_value(BinaryOp::Times, a, b, p),
        BoundTree::Quotient(a, b) => pair_value(BinaryOp::Over, a, b, p),
        _ => Ok(0),
    }
}

/// The value of a negative.
#[cycle(values)]
fn negative_value(a: &BoundTree, p: &Point) -> Result<i128, ArithFault>
    ensures value { result ≡ value_of (minus (formula_of a.now)) p.now }
    ensures small { IfOk result (λ v. unsigned_abs v ≤ 10 ^ 27) }
{
    let x = tree_value(a, p)?;
    Ok(-x)
}

/// The value of an operation on the values of two trees.
#[cycle(values)]
fn pair_value(op: BinaryOp, a: &BoundTree, b: &BoundTree, p: &Point) -> Result<i128, ArithFault>
    ensures value { result ≡ both (value_of (formula_of a.now) p.now) (value_of (formula_of b.now) p.now)
        (computed op) }
    ensures small { IfOk result (λ v. unsigned_abs v ≤ 10 ^ 27) }
{
    let x = tree_value(a, p)?;
    let y = tree_value(b, p)?;
    computed(op, x, y)
}

/// Whether a comparison holds of two values.
fn compares(op: BinaryOp, x: i128, y: i128) -> bool
    ensures { result ≡ compares op x y }
{
    match op {
        BinaryOp::Equal => x == y,
        BinaryOp::Different => x != y,
        BinaryOp::AtMost => x <= y,
        BinaryOp::AtLeast => y <= x,
        BinaryOp::Below => x < y,
        BinaryOp::Above => y < x,
        _ => false,
    }
}

/// Whether a comparison holds of the values of two trees.
fn pair_holds(op: BinaryOp, a: &BoundTree, b: &BoundTree, p: &Point) -> Result<bool, ArithFault>
    ensures { result ≡ judged op (formula_of a.now) (formula_of b.now) p.now }
{
    let x = tree_value(a, p)?;
    let y = tree_value(b, p)?;
    Ok(compares(op, x, y))
}

/// Whether the condition of a tree holds at a point. It is inlined as `tree_value` is.
#[inline(always)]
#[cycle(conditions)]
fn tree_holds(e: &BoundTree, p: &Point) -> Result<bool, ArithFault>
    ensures { result ≡ holds_at (formula_of e.now) p.now }
{
    match e {
        BoundTree::Not(a) => not_holds(a, p),
        BoundTree::Or(a, b) => or_holds(a, b, p),
        BoundTree::And(a, b) => and_holds(a, b, p),
        BoundTree::Equal(a, b) => pair_holds(BinaryOp::Equal, a, b, p),
        BoundTree::Different(a, b) => pair_holds(BinaryOp::Different, a, b, p),
        BoundTree::AtMost(a, b) => pair_holds(BinaryOp::AtMost, a, b, p),
        BoundTree::AtLeast(a, b) => pair_holds(BinaryOp::AtLeast, a, b, p),
        BoundTree::Below(a, b) => pair_holds(BinaryOp::Below, a, b, p),
        BoundTree::Above(a, b) => pair_holds(BinaryOp::Above, a, b, p),
        _ => Ok(false),
    }
}

/// Whether `!a` holds.
#[cycle(conditions)]
fn not_holds(a: &BoundTree, p: &Point) -> Result<bool, ArithFault>
    ensures { result ≡ holds_at (not (formula_of a.now)) p.now }
{
    let x = tree_holds(a, p)?;
    Ok(!x)
}

/// Whether `a || b` holds.
#[cycle(conditions)]
fn or_holds(a: &BoundTree, b: &BoundTree, p: &Point) -> Result<bool, ArithFault>
    ensures { result ≡ holds_at (binary BinaryOp.Or (formula_of a.now) (formula_of b.now)) p.now }
{
    let x = tree_holds(a, p)?;
    if x { Ok(true) } else { tree_holds(b, p) }
}

/// Whether `a && b` holds.
#[cycle(conditions)]
fn and_holds(a: &BoundTree, b: &BoundTree, p: &Point) -> Result<bool, ArithFault>
    ensures { result ≡ holds_at (binary BinaryOp.And (formula_of a.now) (formula_of b.now)) p.now }
{
    let x = tree_holds(a, p)?;
    if x { tree_holds(b, p) } else { Ok(false) }
}

/// The value of an expression at a point, in nanounits, or the first fault in the order of evaluation: operands go from left to
/// right. A condition has the value 0.
pub fn value(e: &Bound, p: &Point) -> Result<i128, ArithFault>
    ensures value { result ≡ value_of e.now p.now }
    ensures small { IfOk result (λ v. unsigned_abs v ≤ 10 ^ 27) }
{
    tree_value(e.tree(), p)
}

/// Whether a condition holds at a point, or the first fault in the order of evaluation. The right operand of `&&` and `||` is
/// evaluated only where the left one doesn't decide. A value doesn't hold.
pub fn holds(e: &Bound, p: &Point) -> Result<bool, ArithFault>
    ensures { result ≡ holds_at e.now p.now }
{
    tree_holds(e.tree(), p)
}
