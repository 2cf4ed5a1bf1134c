//! One point.

ghost use Rattle.std.specs.Prelude.{◌≡◌};
ghost use Rattle.geo_tests.specs.Tests.{different};
ghost use Rattle.stage_meanings.specs.Conditions.{passes};
ghost use Rattle.stage_meanings.specs.Filters.{keeps, becomes, at_point, or_nothing, is_true};
ghost use Rattle.stage_meanings.specs.Rules.{is_below, is_step, is_grouped, put, assigned, in_turn};
ghost use Rattle.set_filters.specs.Kinds.{rule_of, is_by_place, takes};

use cloud_points::{Dim, Point};
use expr_eval::{Assignment, Bound, holds, value};
use name_binding::BoundFilter;
use option_texts::Groups;
use stage_meanings::Reason;

/// Whether the point passes a `where`; where there is none, each does.
fn passes(only: &Option<Bound>, p: &Point) -> Result<bool, Reason>
    ensures { result ≡ passes only.now p.now }
{
    match only {
        None => Ok(true),
        Some(condition) => Ok(holds(condition, p)?),
    }
}

/// Whether the point passes a `where`, which has a value for it.
pub(crate) fn is_passed(only: &Option<Bound>, p: &Point) -> bool
    ensures { result ≡ is_true (passes only.now p.now) }
{
    matches!(passes(only, p), Ok(true))
}

/// The point, if it goes on.
pub(crate) fn kept(goes: bool, p: &Point) -> Option<Point>
    ensures { result ≡ keeps goes p.now }
{
    if goes { Some(*p) } else { None }
}

/// Whether a point goes on that is inside or not.
fn is_on_side(outside: bool, inside: bool) -> bool
    ensures { result ≡ different outside inside }
{
    outside != inside
}

/// Whether return r of the n of a pulse is in one of these groups.
fn is_grouped(groups: &Groups, n: u8, r: u8) -> bool
    ensures { result ≡ is_grouped groups.now n r }
{
    if n <= 1 {
        return groups.only && n == 1;
    }
    (groups.first && r == 1) || (groups.last && r == n) || (groups.intermediate && 1 < r && r < n)
}

/// The point with this value in a dimension, given in nanounits.
fn put(dim: Dim, nano: i128, mut p: Point) -> Result<Point, Reason>
    ensures { result ≡ put dim nano p }
{
    match p.set(dim, nano) {
        Ok(()) => Ok(p),
        Err(_) => Err(Reason::OutOfRange(dim)),
    }
}

/// The point behind an assignment.
fn assigned(part: &Assignment, p: Point) -> Result<Point, Reason>
    ensures { result ≡ assigned part.now p }
{
    if !passes(&part.only, &p)? {
        return Ok(p);
    }
    let nano = value(&part.value, &p)?;
    put(part.target, nano, p)
}

/// The point behind assignments that are made one after the other.
fn in_turn(parts: &[Assignment], mut p: Point) -> Result<Point, Reason>
    ensures { result ≡ in_turn assigned parts.now p }
{
    for part in parts {
        p = assigned(part, p)?;
    }
    Ok(p)
}

/// What a point becomes that passes the `where` of a filter, if it goes on; its position is not asked for.
fn becomes(filter: &BoundFilter, p: &Point) -> Result<Option<Point>, Reason>
    ensures { result ≡ becomes (rule_of filter.now) p.now }
{
    match filter {
        BoundFilter::Range(limits) => Ok(kept(limits.hold(p), p)),
        BoundFilter::Crop(shape, outside) => Ok(kept(is_on_side(*outside, shape.holds(p)), p)),
        BoundFilter::Assign(parts) => Ok(Some(in_turn(parts.as_slice(), *p)?)),
        BoundFilter::Expression(condition) => Ok(kept(holds(condition, p)?, p)),
        BoundFilter::Returns(groups) => {
            Ok(kept(is_grouped(groups, p.number_of_returns, p.return_number), p))
        }
        BoundFilter::Decimation(..) | BoundFilter::Head(_) | BoundFilter::Merge => Ok(Some(*p)),
    }
}

/// What a point becomes, if it goes on. One that doesn't pass stays as it is.
pub(crate) fn at_point(
    filter: &BoundFilter,
    only: &Option<Bound>,
    p: &Point,
) -> Result<Option<Point>, Reason>
    ensures { result ≡ at_point (rule_of filter.now) (passes only.now) p.now }
{
    if passes(only, p)? {
        becomes(filter, p)
    } else {
        Ok(Some(*p))
    }
}

/// What a filter gives for a point: what it becomes, if it can be judged and goes on.
pub(crate) fn given_for(filter: &BoundFilter, only: &Option<Bound>, p: &Point) -> Option<Point>
    ensures { result ≡ or_nothing (at_point (rule_of filter.now) (passes only.now) p.now) }
{
    match at_point(filter, only, p) {
        Ok(given) => given,
        Err(_) => None,
    }
}

/// Whether a filter goes by the positions of points.
pub(crate) fn is_by_place(filter: &BoundFilter) -> bool
    ensures { result ≡ is_by_place (rule_of filter.now) }
{
    matches!(filter, BoundFilter::Decimation(..) | BoundFilter::Head(_))
}

/// Whether a position is below a limit.
fn is_below(limit: Option<u32>, place: u64) -> bool
    ensures { result ≡ is_below limit place }
{
    match limit {
        Some(limit) => place < limit as u64,
        None => true,
    }
}

/// Whether a position is the first one or so many steps behind it, and below a limit.
fn is_step(step: u32, offset: u32, limit: Option<u32>, place: u64) -> bool
    ensures { result ≡ is_step step offset limit place }
{
    let offset = offset as u64;
    is_below(limit, place) && offset <= place && (place - offset).is_multiple_of(step as u64)
}

/// Whether a filter takes the point at a position; one that doesn't go by positions takes any.
pub(crate) fn takes(filter: &BoundFilter, place: u64) -> bool
    ensures { result ≡ takes (rule_of filter.now) place }
{
    match filter {
        BoundFilter::Decimation(step, offset, limit) => is_step(*step, *offset, *limit, place),
        BoundFilter::Head(count) => place < *count as u64,
        _ => true,
    }
}
