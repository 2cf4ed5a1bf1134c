//! Expressions over the dimensions of a point: what a text says, or its first fault.
#![tactic(auto)]

mod assign;
mod counts;
mod expr;
mod fault;
mod frame;
mod laws;
mod machine;
mod nesting;
mod op;
mod parse;
mod read;
mod sorts;
mod split;
mod token;

pub use expr::{Assign, Expr, ExprTree};
pub use fault::{ExprErr, ExprFault, ExprKind};
pub use laws::{texts_are_read, texts_have_one_answer};
pub use op::BinaryOp;
pub use parse::{parse_assign, parse_expr};
