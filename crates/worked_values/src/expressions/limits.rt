//! The longest and the deepest expressions.

use super::conditions::fault_of;
use super::values::{holds_at, point_at};
use crate::pieces::add_times;
use expr_lang::{ExprKind, parse_expr};
use std::alloc::Global;

/// Texts by what stands how often before `X > 1` and behind it, and the fault of the text.
const REPEATED: [(&str, usize, &str, &str, usize, Option<(usize, ExprKind)>); 10] = [
    ("(", 64, "X>1", ")", 64, None),
    ("(", 65, "X>1", ")", 65, Some((65, ExprKind::TooDeep))),
    ("-", 64, "X>1", "", 0, None),
    ("-", 65, "X>1", "", 0, Some((65, ExprKind::TooDeep))),
    ("!", 63, "(X>1)", "", 0, None),
    ("!", 64, "(X>1)", "", 0, Some((65, ExprKind::TooDeep))),
    ("(", 65, "", "", 0, Some((65, ExprKind::TooDeep))),
    (" ", 4093, "X>1", "", 0, None),
    (" ", 4094, "X>1", "", 0, Some((4096, ExprKind::TooLong))),
    ("$", 4097, "", "", 0, Some((4096, ExprKind::TooLong))),
];

/// A text of these pieces, each so many times.
fn repeated(alloc: Global, pieces: [(&str, usize); 3]) -> String {
    let mut text = String::new(alloc);
    for &(piece, count) in &pieces {
        add_times(&mut text, piece, count);
    }
    text
}

pub fn depth_and_length_have_limits(alloc: Global) -> bool {
    let mut right = true;
    for &(before, opened, middle, behind, closed, fault) in &REPEATED {
        let text = repeated(alloc, [(before, opened), (middle, 1), (behind, closed)]);
        right &= fault_of(parse_expr(alloc, text.as_str()).err()) == fault;
    }
    right
}

/// A sum of 2044 times X is 2044 where X is 1.
pub fn deep_trees_are_evaluated(alloc: Global) -> bool {
    let text = repeated(alloc, [("2044==X", 1), ("+X", 2043), ("", 0)]);
    holds_at(alloc, text.as_str(), &point_at([1_000_000_000, 0, 0])) == Some(Ok(true))
}
