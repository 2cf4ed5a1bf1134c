//! Dimensions in place of names.

ghost use Rattle.std.specs.Prelude.{◌≡◌, Ok, IfOk, IfErr, Some, None};
ghost use Rattle.cloud_points.specs.Layouts.{holds};
ghost use Rattle.expr_lang.specs.Formula as formula;
ghost use Rattle.expr_lang.specs.Trees as texts;
ghost use Rattle.expr_eval.specs.Forms.{form_formula};
ghost use Rattle.expr_eval.specs.Bindings.{bound_dim, bound_in, dim_of as dim_named, IsAnswered};
ghost use Rattle.expr_lang.specs.Formula.{renamed};
ghost use Rattle.expr_eval.specs.Trees.{formula_of};
ghost use Rattle.expr_eval.specs.declared.bind.BindErr.TheVariants.{Memory};

use crate::bound::{Bound, BoundTree};
use cloud_points::{Dim, ExtraNames, Kind, Layout, dim_of};
use expr_lang::{BinaryOp, Expr, ExprTree};
use file_devices::Name;
use std::alloc::{AllocError, Global};

/// Why an expression isn't bound.
#[derive(Drop)]
pub enum BindErr {
    /// The name, as it is spelled in the text, is no dimension that the points have.
    Unknown(Name),
    /// The name, as it is spelled in the text, is a dimension whose values are no numbers.
    NotNumeric(Name),
    /// There was no memory.
    Memory,
}

impl From<AllocError> for BindErr {
    ghost from_gives = { λ _ e. e ≡ Memory };

    fn from(_: AllocError) -> BindErr {
        BindErr::Memory
    }
}

fn boxed(alloc: Global, e: BoundTree) -> Result<Box<BoundTree>, AllocError>
    ensures { IfOk result (λ b. b.value ≡ e) }
{
    Ok(Box::new(alloc, e)?)
}

/// The dimension of a name, without regard to the case of its letters.
///
/// Refused is one that is no dimension of the layout, which is `Unknown`, or is GpsTime, which is `NotNumeric`.
#[tactic(auto, using(crate::proofs::Renamed::dim_bound))]
pub fn bind_name(
    alloc: Global,
    name: &Name,
    layout: &Layout,
    names: &ExtraNames,
) -> Result<Dim, BindErr>
    ensures ok { IfOk result (λ d. bound_dim (holds layout.now) names.now name.now ≡ Ok d) }
    ensures named { IfOk result (λ d. d ≡ dim_named names.now name.now) }
    ensures err { IfErr result (λ e. IsAnswered e (bound_dim (holds layout.now) names.now name.now)) }
{
    match dim_of(name.as_str(), names) {
        Some(dim) if layout.has(dim) => match dim.kind() {
            Kind::Word => Err(BindErr::NotNumeric(name.try_copy(alloc)?)),
            _ => Ok(dim),
        },
        _ => Err(BindErr::Unknown(name.try_copy(alloc)?)),
    }
}

/// The form of an expression.
enum Form<'a> {
    Number(i64),
    Name(&'a Name),
    Negative(&'a ExprTree),
    Not(&'a ExprTree),
    Pair(BinaryOp, &'a ExprTree, &'a ExprTree),
}

fn form_of(e: &ExprTree) -> Form<'_>
    ensures { form_formula result ≡ texts.formula_of e.now }
{
    match e {
        ExprTree::Number(n) => Form::Number(*n),
        ExprTree::Name(name) => Form::Name(name),
        ExprTree::Negative(a) => Form::Negative(a),
        ExprTree::Not(a) => Form::Not(a),
        ExprTree::Or(a, b) => Form::Pair(BinaryOp::Or, a, b),
        ExprTree::And(a, b) => Form::Pair(BinaryOp::And, a, b),
        ExprTree::Equal(a, b) => Form::Pair(BinaryOp::Equal, a, b),
        ExprTree::Different(a, b) => Form::Pair(BinaryOp::Different, a, b),
        ExprTree::AtMost(a, b) => Form::Pair(BinaryOp::AtMost, a, b),
        ExprTree::AtLeast(a, b) => Form::Pair(BinaryOp::AtLeast, a, b),
        ExprTree::Below(a, b) => Form::Pair(BinaryOp::Below, a, b),
        ExprTree::Above(a, b) => Form::Pair(BinaryOp::Above, a, b),
        ExprTree::Sum(a, b) => Form::Pair(BinaryOp::Plus, a, b),
        ExprTree::Difference(a, b) => Form::Pair(BinaryOp::Minus, a, b),
        ExprTree::Product(a, b) => Form::Pair(BinaryOp::Times, a, b),
        ExprTree::Quotient(a, b) => Form::Pair(BinaryOp::Over, a, b),
    }
}

fn with_operator(op: BinaryOp, a: Box<BoundTree>, b: Box<BoundTree>) -> BoundTree
    ensures { formula_of result ≡ formula.binary op (formula_of a.value) (formula_of b.value) }
{
    match op {
        BinaryOp::Or => BoundTree::Or(a, b),
        BinaryOp::And => BoundTree::And(a, b),
        BinaryOp::Equal => BoundTree::Equal(a, b),
        BinaryOp::Different => BoundTree::Different(a, b),
        BinaryOp::AtMost => BoundTree::AtMost(a, b),
        BinaryOp::AtLeast => BoundTree::AtLeast(a, b),
        BinaryOp::Below => BoundTree::Below(a, b),
        BinaryOp::Above => BoundTree::Above(a, b),
        BinaryOp::Plus => BoundTree::Sum(a, b),
        BinaryOp::Minus => BoundTree::Difference(a, b),
        BinaryOp::Times => BoundTree::Product(a, b),
        BinaryOp::Over => BoundTree::Quotient(a, b),
    }
}

/// The tree with dimensions in place of its names.
fn bind_tree(
    alloc: Global,
    e: &ExprTree,
    layout: &Layout,
    names: &ExtraNames,
) -> Result<BoundTree, BindErr>
    ensures ok { IfOk result (λ b. bound_in (holds layout.now) names.now (texts.formula_of e.now)
        ≡ Ok (formula_of b)) }
    ensures err { IfErr result (λ f. IsAnswered f
        (bound_in (holds layout.now) names.now (texts.formula_of e.now))) }
{
    match form_of(e) {
        Form::Number(n) => Ok(BoundTree::Number(n)),
        Form::Name(name) => Ok(BoundTree::Dim(bind_name(alloc, name, layout, names)?)),
        Form::Negative(a) => {
            let a = bind_tree(alloc, a, layout, names)?;
            Ok(BoundTree::Negative(boxed(alloc, a)?))
        }
        Form::Not(a) => {
            let a = bind_tree(alloc, a, layout, names)?;
            Ok(BoundTree::Not(boxed(alloc, a)?))
        }
        Form::Pair(op, a, b) => {
            let a = bind_tree(alloc, a, layout, names)?;
            let a = boxed(alloc, a)?;
            let b = bind_tree(alloc, b, layout, names)?;
            Ok(with_operator(op, a, boxed(alloc, b)?))
        }
    }
}

/// The expression with dimensions in place of its names, without regard to the case of their letters.
///
/// Refused is the first name, from left to right, that is no dimension of the layout, which is `Unknown`, or is GpsTime, which is
/// `NotNumeric`.
#[tactic(auto, using(crate::proofs::Renamed::bound_renamed))]
pub fn bind_expr(
    alloc: Global,
    e: &Expr,
    layout: &Layout,
    names: &ExtraNames,
) -> Result<Bound, BindErr>
    ensures ok { IfOk result (λ b. bound_in (holds layout.now) names.now e.now ≡ Ok b) }
    ensures renamed { IfOk result (λ b. b ≡ renamed (dim_named names.now) e.now) }
    ensures err { IfErr result (λ f. IsAnswered f (bound_in (holds layout.now) names.now e.now)) }
{
    Ok(Bound::new(bind_tree(alloc, e.tree(), layout, names)?))
}
