//! A list of assignments.

ghost use Rattle.std.specs.Prelude.{◌≡◌};

use expr_lang::Assign;
use std::marker::Model;

/// Assignments, which contracts see as a list.
#[derive(Drop)]
pub struct AssignList {
    items: Vec<Assign>,
}

impl Model for AssignList {
    ghost use Rattle.std.specs.Prelude.{List};
    ghost use Rattle.expr_lang.specs.declared.expr.Assign.{Assign as Assigned};
    ghost use Rattle.std.specs.Coded.{coded_list};
    ghost use Rattle.stage_options.specs.Codes.{assign_code};

    ghost Value = { List Assigned };

    ghost coded = { coded_list assign_code };

    ghost view = { λ l. l.items.items };
}

impl AssignList {
    /// These assignments. It takes no memory.
    pub fn new(items: Vec<Assign>) -> Self
        ensures { result ≡ items.items }
    {
        AssignList { items }
    }

    /// The assignments, in the order in which they are made.
    pub fn as_slice(&self) -> &[Assign]
        ensures { result.now ≡ self.now }
    {
        self.items.as_slice()
    }
}
