//! Views that are held, and flows one behind the other.

ghost use Rattle.std.specs.Prelude.{◌≤◌, length};

use cloud_points::{Dim, Layout, Point, Spread};
use std::alloc::{AllocError, Global};
use whole_filters::Views;

/// A flow by the X of its points: its complete views, and its open one.
type Told = (&'static [&'static [i64]], &'static [i64]);

/// Two flows, and the flow that they are together.
const ROWS: [(Told, Told, Told); 5] = [
    (
        (&[&[1]], &[2]),
        (&[&[3, 4], &[5]], &[6]),
        (&[&[1], &[2, 3, 4], &[5]], &[6]),
    ),
    ((&[&[1]], &[2]), (&[], &[3]), (&[&[1]], &[2, 3])),
    ((&[], &[]), (&[&[1, 2], &[]], &[3]), (&[&[1, 2], &[]], &[3])),
    ((&[&[1]], &[]), (&[&[2]], &[]), (&[&[1], &[2]], &[])),
    ((&[], &[1, 2]), (&[], &[]), (&[], &[1, 2])),
];

/// A layout that has the dimension of the points here, and one that lacks it.
fn layouts() -> [Layout; 2] {
    let mut wide = Layout::none();
    wide.add(Dim::X);
    [wide, Layout::none()]
}

/// Puts points with these X behind those of the open view.
fn push_all(alloc: Global, held: &mut Views, view: &[i64]) -> Result<(), AllocError> {
    let mut points = Vec::new(alloc);
    for x in view {
        let mut point = Point::zero();
        point.x = *x;
        points.push(point)?;
    }
    held.push_all(points.as_slice())
}

fn flow(alloc: Global, layout: &Layout, told: Told) -> Result<Views, AllocError> {
    let mut held = Views::none(alloc, layout);
    for view in told.0 {
        push_all(alloc, &mut held, view)?;
        held.end_view()?;
    }
    push_all(alloc, &mut held, told.1)?;
    Ok(held)
}

/// Whether the points of the view at a place have these X.
fn is_told(held: &Views, v: usize, told: &[i64]) -> bool
    requires { v ≤ length held.now.views }
{
    if held.len(v) != told.len() {
        return false;
    }
    for (k, x) in told.iter().enumerate() {
        if held.point(v, k).x != *x {
            return false;
        }
    }
    true
}

/// Whether the points of the complete views have these X.
pub fn are_told(held: &Views, told: &[&[i64]]) -> bool {
    if held.views() != told.len() {
        return false;
    }
    let mut right = true;
    for (v, view) in told.iter().enumerate() {
        right &= is_told(held, v, view);
    }
    right
}

/// Whether the points of the complete views and of the open one have these X.
fn is_flow(held: &Views, told: Told) -> bool {
    are_told(held, told.0) & is_told(held, held.views(), told.1)
}

/// Whether two flows one behind the other, of points in rows of two layouts, are this flow.
fn are_joined(alloc: Global, layouts: &[Layout; 2], row: &[Told; 3]) -> Result<bool, AllocError> {
    let mut held = flow(alloc, &layouts[0], row[0])?;
    held.append(flow(alloc, &layouts[1], row[1])?)?;
    Ok(is_flow(&held, row[2]))
}

pub(crate) fn flows_are_joined(alloc: Global) -> bool {
    let [wide, narrow] = layouts();
    let mut right = true;
    for layouts in &[[wide, wide], [wide, narrow], [narrow, wide]] {
        for &(first, later, together) in &ROWS {
            right &= are_joined(alloc, layouts, &[first, later, together]) == Ok(true);
        }
    }
    right
}

/// Puts two points of the first view and one of the open view behind others.
fn put_fronts(held: &mut Views, other: &Views) -> Result<(), AllocError> {
    held.push_first(other.view(0), other.len(0).min(2))?;
    let open = other.views();
    held.push_first(other.view(open), other.len(open).min(1))
}

/// Whether fronts of views are put behind others.
fn are_put_behind(alloc: Global, layout: &Layout) -> Result<bool, AllocError> {
    let other = flow(alloc, layout, (&[&[3, 4, 5]], &[6, 7]))?;
    let mut held = flow(alloc, layout, (&[&[1]], &[2]))?;
    put_fronts(&mut held, &other)?;
    let right = is_flow(&other, (&[&[3, 4, 5]], &[6, 7]));
    Ok(right & is_flow(&held, (&[&[1]], &[2, 3, 4, 6])))
}

pub(crate) fn fronts_of_views_are_put_behind_others(alloc: Global) -> bool {
    let mut right = true;
    for layout in &layouts() {
        right &= are_put_behind(alloc, layout) == Ok(true);
    }
    right
}

/// Whether the second and the third point of a view are copied.
fn are_copied(alloc: Global, layout: &Layout) -> Result<bool, AllocError> {
    let held = flow(alloc, layout, (&[&[1], &[2, 3, 4, 5]], &[]))?;
    let mut spread = Spread::new();
    spread.push(Point::zero());
    let view = held.view(held.views().min(1));
    if view.len() == 4 {
        view.copy_into(1, 2, &mut spread);
    }
    let right = is_flow(&held, (&[&[1], &[2, 3, 4, 5]], &[]));
    match spread.as_slice() {
        [first, second] => Ok(right & ((first.x, second.x) == (3, 4))),
        _ => Ok(false),
    }
}

pub(crate) fn points_of_views_are_copied(alloc: Global) -> bool {
    let mut right = true;
    for layout in &layouts() {
        right &= are_copied(alloc, layout) == Ok(true);
    }
    right
}
