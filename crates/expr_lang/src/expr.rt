//! Expressions.

ghost use Rattle.std.specs.Prelude.{◌≡◌};
ghost use Rattle.expr_lang.specs.Trees.{formula_of};

use file_devices::Name;
use std::marker::Model;

/// The tree of an expression. Values are numbers, names, negatives, sums, differences, products and quotients. Conditions are
/// the rest.
#[derive(Drop)]
pub enum ExprTree {
    /// A number, in nanounits.
    Number(i64),
    /// The value of a dimension, by its name as it is spelled in the text.
    Name(Name),
    /// `-a`
    Negative(Box<ExprTree>),
    /// `!a`
    Not(Box<ExprTree>),
    /// `a || b`
    Or(Box<ExprTree>, Box<ExprTree>),
    /// `a && b`
    And(Box<ExprTree>, Box<ExprTree>),
    /// `a == b`
    Equal(Box<ExprTree>, Box<ExprTree>),
    /// `a != b`
    Different(Box<ExprTree>, Box<ExprTree>),
    /// `a <= b`
    AtMost(Box<ExprTree>, Box<ExprTree>),
    /// `a >= b`
    AtLeast(Box<ExprTree>, Box<ExprTree>),
    /// `a < b`
    Below(Box<ExprTree>, Box<ExprTree>),
    /// `a > b`
    Above(Box<ExprTree>, Box<ExprTree>),
    /// `a + b`
    Sum(Box<ExprTree>, Box<ExprTree>),
    /// `a - b`
    Difference(Box<ExprTree>, Box<ExprTree>),
    /// `a * b`
    Product(Box<ExprTree>, Box<ExprTree>),
    /// `a / b`
    Quotient(Box<ExprTree>, Box<ExprTree>),
}

/// An expression: a value, or a condition. A contract sees it as the formula that it says, apart from where it lies in
/// memory.
#[derive(Drop)]
pub struct Expr {
    tree: ExprTree,
}

impl Model for Expr {
    ghost use Rattle.std.specs.Prelude.{List, ℕ};
    ghost use Rattle.std.specs.Coded.{coded_list, coded_ℕ};
    ghost use Rattle.expr_lang.specs.Codes.{formula_code};
    ghost use Rattle.expr_lang.specs.Formula.{Formula};
    ghost use Rattle.expr_lang.specs.Trees.{formula_of};

    ghost Value = { Formula (List ℕ) };

    ghost coded = { formula_code (coded_list coded_ℕ) };

    ghost view = { λ e. formula_of e.tree };
}

impl Expr {
    /// The expression of a tree. It takes no memory.
    pub fn new(tree: ExprTree) -> Expr
        ensures { result ≡ formula_of tree }
    {
        Expr { tree }
    }

    /// Its tree.
    pub fn tree(&self) -> &ExprTree
        ensures { formula_of result.now ≡ self.now }
    {
        &self.tree
    }
}

/// An assignment: the dimension of a name gets a value, at the points where a condition holds.
#[derive(Drop)]
pub struct Assign {
    /// The name, as it is spelled in the text.
    pub target: Name,
    /// The value.
    pub value: Expr,
    /// The condition; None is all points.
    pub only: Option<Expr>,
}
