//! Assignments to dimensions in place of names.

ghost use Rattle.std.specs.Prelude.{◌≡◌, Ok, option_map, IfOk, IfErr};
ghost use Rattle.cloud_points.specs.Layouts.{holds};
ghost use Rattle.expr_eval.specs.Bindings.{bound_only, bound_assign, assign_of, dim_of as dim_named, IsAnswered};
ghost use Rattle.expr_lang.specs.Formula.{renamed};

use crate::assignment::Assignment;
use crate::bind::{BindErr, bind_expr, bind_name};
use crate::bound::Bound;
use cloud_points::{ExtraNames, Layout};
use expr_lang::{Assign, Expr};
use std::alloc::Global;

/// The condition of an assignment, bound.
fn bind_only(
    alloc: Global,
    only: &Option<Expr>,
    layout: &Layout,
    names: &ExtraNames,
) -> Result<Option<Bound>, BindErr>
    ensures ok { IfOk result (λ o. bound_only (holds layout.now) names.now only.now ≡ Ok o) }
    ensures renamed { IfOk result (λ o. o ≡ option_map (renamed (dim_named names.now)) only.now) }
    ensures err { IfErr result (λ f. IsAnswered f (bound_only (holds layout.now) names.now only.now)) }
{
    match only {
        Some(condition) => Ok(Some(bind_expr(alloc, condition, layout, names)?)),
        None => Ok(None),
    }
}

/// The assignment with dimensions in place of its names, without regard to the case of their letters.
///
/// Refused is the first name, from left to right, that is no dimension of the layout, which is `Unknown`, or is GpsTime, which is
/// `NotNumeric`.
pub fn bind_assign(
    alloc: Global,
    assign: &Assign,
    layout: &Layout,
    names: &ExtraNames,
) -> Result<Assignment, BindErr>
    ensures ok { IfOk result (λ a. bound_assign (holds layout.now) names.now assign.now ≡ Ok a) }
    ensures renamed { IfOk result (λ a. a ≡ assign_of names.now assign.now) }
    ensures err { IfErr result (λ f. IsAnswered f (bound_assign (holds layout.now) names.now assign.now)) }
{
    let target = bind_name(alloc, &assign.target, layout, names)?;
    let value = bind_expr(alloc, &assign.value, layout, names)?;
    let only = bind_only(alloc, &assign.only, layout, names)?;
    Ok(Assignment {
        target,
        value,
        only,
    })
}
