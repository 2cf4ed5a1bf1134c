//! The values of expressions at points.
#![tactic(auto)]

mod arith;
mod assigning;
mod assignment;
mod bind;
mod bound;
mod eval;
mod nanos;

pub use arith::ArithFault;
pub use assigning::bind_assign;
pub use assignment::{Assignment, Assignments};
pub use bind::{BindErr, bind_expr, bind_name};
pub use bound::{Bound, BoundTree};
pub use eval::{holds, value};
