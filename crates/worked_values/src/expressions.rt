//! Texts of expressions, the dimensions that they name, and their values at points.

mod assignments;
mod conditions;
mod limits;
mod names;
mod values;

use check_report::{Report, checks};
use std::alloc::Global;

/// Tells of the checks of expressions.
pub fn tell(rt: &HostRuntime, alloc: Global, report: &mut Report) {
    checks! { rt, report;
        conditions::first_faults_of_conditions_are_told(alloc);
        conditions::conditions_are_read(alloc);
        assignments::first_faults_of_assignments_are_told(alloc);
        assignments::assignments_are_read(alloc);
        limits::depth_and_length_have_limits(alloc);
        limits::deep_trees_are_evaluated(alloc);
        names::the_first_name_is_refused(alloc);
        values::values_are_exact_or_fault(alloc);
        values::conditions_hold_or_fault(alloc);
    }
}
