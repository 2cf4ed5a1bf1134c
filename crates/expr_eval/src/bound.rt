//! Expressions over dimensions.

ghost use Rattle.std.specs.Prelude.{◌≡◌};
ghost use Rattle.expr_eval.specs.Trees.{formula_of};

use cloud_points::Dim;
use std::marker::Model;

/// The tree of an expression with dimensions in place of names.
#[derive(Drop)]
pub enum BoundTree {
    /// A number, in nanounits.
    Number(i64),
    /// The value of a dimension.
    Dim(Dim),
    /// `-a`
    Negative(Box<BoundTree>),
    /// `!a`
    Not(Box<BoundTree>),
    /// `a || b`
    Or(Box<BoundTree>, Box<BoundTree>),
    /// `a && b`
    And(Box<BoundTree>, Box<BoundTree>),
    /// `a == b`
    Equal(Box<BoundTree>, Box<BoundTree>),
    /// `a != b`
    Different(Box<BoundTree>, Box<BoundTree>),
    /// `a <= b`
    AtMost(Box<BoundTree>, Box<BoundTree>),
    /// `a >= b`
    AtLeast(Box<BoundTree>, Box<BoundTree>),
    /// `a < b`
    Below(Box<BoundTree>, Box<BoundTree>),
    /// `a > b`
    Above(Box<BoundTree>, Box<BoundTree>),
    /// `a + b`
    Sum(Box<BoundTree>, Box<BoundTree>),
    /// `a - b`
    Difference(Box<BoundTree>, Box<BoundTree>),
    /// `a * b`
    Product(Box<BoundTree>, Box<BoundTree>),
    /// `a / b`
    Quotient(Box<BoundTree>, Box<BoundTree>),
}

/// An expression with dimensions in place of names. A contract sees it as the formula that it says, apart from where it lies
/// in memory.
#[derive(Drop)]
pub struct Bound {
    tree: BoundTree,
}

impl Model for Bound {
    ghost use Rattle.cloud_points.specs.declared.dims.Dim.{Dim};
    ghost use Rattle.expr_eval.specs.DimCodes.{dim_code};
    ghost use Rattle.expr_eval.specs.Trees.{formula_of};
    ghost use Rattle.expr_lang.specs.Codes.{formula_code};
    ghost use Rattle.expr_lang.specs.Formula.{Formula};

    ghost Value = { Formula Dim };

    ghost coded = { formula_code dim_code };

    ghost view = { λ b. formula_of b.tree };
}

impl Bound {
    /// The expression of a tree. It takes no memory.
    pub fn new(tree: BoundTree) -> Bound
        ensures { result ≡ formula_of tree }
    {
        Bound { tree }
    }

    /// Its tree.
    pub fn tree(&self) -> &BoundTree
        ensures { formula_of result.now ≡ self.now }
    {
        &self.tree
    }
}
