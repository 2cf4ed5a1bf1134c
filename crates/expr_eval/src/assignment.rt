//! Assignments to dimensions.

ghost use Rattle.std.specs.Prelude.{◌≡◌};

use crate::bound::Bound;
use cloud_points::Dim;
use std::marker::Model;

/// A dimension takes a value of the point, if the point passes the assignment's own `where`.
#[derive(Drop)]
pub struct Assignment {
    /// The dimension that is set.
    pub target: Dim,

    /// The value, in nanounits.
    pub value: Bound,

    /// The `where`. Without one each point passes.
    pub only: Option<Bound>,
}

/// Assignments that are made one after the other, which contracts see as a list.
#[derive(Drop)]
pub struct Assignments {
    items: Vec<Assignment>,
}

impl Model for Assignments {
    ghost use Rattle.std.specs.Prelude.{List};
    ghost use Rattle.expr_eval.specs.declared.assignment.Assignment.{Assignment as AssignmentSeen};
    ghost use Rattle.std.specs.Coded.{coded_list};
    ghost use Rattle.expr_eval.specs.Codes.{assignment_code};

    ghost Value = { List AssignmentSeen };

    ghost coded = { coded_list assignment_code };

    ghost view = { λ l. l.items.items };
}

impl Assignments {
    /// These assignments, in this order. It takes no memory.
    pub fn new(items: Vec<Assignment>) -> Self
        ensures { result ≡ items.items }
    {
        Assignments { items }
    }

    /// The assignments, in their order.
    pub fn as_slice(&self) -> &[Assignment]
        ensures { result.now ≡ self.now }
    {
        self.items.as_slice()
    }
}
