//! Points, and filters by their texts.

use crate::points::layout_of;
use cloud_points::{Dim, ExtraNames, Point, Spread};
use expr_eval::{Assignment, Assignments, Bound, bind_assign, bind_expr};
use expr_lang::{parse_assign, parse_expr};
use std::alloc::Global;
use stream_filters::Condition;

/// The dimensions of the points.
const DIMS: [Dim; 3] = [Dim::Red, Dim::Blue, Dim::Classification];

/// The condition of a text.
fn condition(alloc: Global, text: &str) -> Option<Bound> {
    let e = parse_expr(alloc, text).ok()?;
    bind_expr(alloc, &e, &layout_of(&DIMS), &ExtraNames::none(alloc)).ok()
}

/// The rule of an expression.
pub(crate) fn expression(alloc: Global, text: &str) -> Option<Condition> {
    Some(Condition(condition(alloc, text)?))
}

/// The `where` of a text, where there is one.
pub(crate) fn only(alloc: Global, text: Option<&str>) -> Option<Option<Bound>> {
    match text {
        None => Some(None),
        Some(text) => Some(Some(condition(alloc, text)?)),
    }
}

fn assignment(alloc: Global, text: &str) -> Option<Assignment> {
    let assign = parse_assign(alloc, text).ok()?;
    bind_assign(alloc, &assign, &layout_of(&DIMS), &ExtraNames::none(alloc)).ok()
}

/// The assignments of two texts.
pub(crate) fn assignments(alloc: Global, texts: [&str; 2]) -> Option<Assignments> {
    let mut items = Vec::new(alloc);
    for text in &texts {
        items.push(assignment(alloc, text)?).ok()?;
    }
    Some(Assignments::new(items))
}

/// Points with these reds, each numbered in its blue from 1 on, as far as there is room.
pub(crate) fn numbered(reds: &[u16]) -> Spread {
    let mut spread = Spread::new();
    let mut point = Point::zero();
    for red in reds {
        point.red = *red;
        point.blue = point.blue.wrapping_add(1);
        let _ = spread.try_push(point);
    }
    spread
}

/// The numbers of the first points, a hundred times each, and its class besides.
pub(crate) fn told(points: &Spread) -> [u16; 8] {
    let mut told = [0; 8];
    let mut at = 0;
    for p in points.as_slice() {
        if at < told.len() {
            let number = p.blue.wrapping_mul(100);
            told[at] = number.wrapping_add(p.classification as u16);
            at += 1;
        }
    }
    told
}
