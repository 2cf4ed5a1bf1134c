//! Lengths of edges.

ghost use Rattle.std.specs.Prelude.{◌≡◌, ◌≤ℤ◌, pos};

use std::marker::Model;

/// The length of an edge in nanounits, at least 1, which contracts see as that number.
#[derive(Clone, Copy, Debug, PartialEq, Eq)]
pub struct EdgeLength {
    nano: i64,
}

impl Model for EdgeLength {
    ghost use Rattle.std.specs.Prelude.{ℤ, ◌≤ℤ◌, pos};

    ghost Value = { ℤ };

    ghost view = { λ l. l.nano };

    ghost invariant = { λ l. pos 1 ≤ℤ l.nano };

    ghost inverse = { λ n. record { nano = n } };
}

impl EdgeLength {
    /// So many nanounits.
    pub fn new(nano: i64) -> Self
        requires { pos 1 ≤ℤ nano }
        ensures { result ≡ nano }
    {
        EdgeLength { nano }
    }

    /// The nanounits.
    pub fn nano(self) -> i64
        ensures value { result ≡ self }
        ensures some { pos 1 ≤ℤ result }
    {
        self.nano
    }
}
