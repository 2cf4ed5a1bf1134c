//! One view.

ghost use Rattle.std.specs.Prelude.{◌≡◌, ◌≤◌, ◌+◌, ◌++◌, ◌||◌, not, [], length, take, if◌then◌else◌, OnOk};
ghost use Rattle.std.specs.List.{cons_option, filter_map};
ghost use Rattle.cloud_points.specs.Queue.{up_to_limit};
ghost use Rattle.stage_meanings.specs.Conditions.{passes};
ghost use Rattle.stage_meanings.specs.Filters.{on_view, chosen, at_point, or_nothing, is_true};
ghost use Rattle.set_filters.specs.Kinds.{rule_of, takes};

use crate::judging::{given_for, is_by_place, is_passed, kept, takes};
use cloud_points::Point;
use expr_eval::Bound;
use name_binding::BoundFilter;
use std::alloc::AllocError;
use whole_filters::{Rows, Views};

/// Puts a point, if there is one, at the end of the open view.
fn push_some(given: &mut Views, p: Option<Point>) -> Result<(), AllocError>
    ensures { OnOk result (given.new ≡ record given.old
        { open_view = given.old.open_view ++ cons_option p [] }) }
{
    match p {
        Some(p) => given.push(&p),
        None => Ok(()),
    }
}

/// The position of the next point that passes, behind a point that did or didn't. It stands at the greatest u64.
fn next_place(place: u64, passed: bool) -> u64
    ensures { result ≡ (if passed then up_to_limit (place + 1) else place) }
{
    if passed {
        place.saturating_add(1)
    } else {
        place
    }
}

/// Whether a point goes on that did or didn't pass, at a position that the filter takes or not.
fn goes_on(passed: bool, taken: bool) -> bool
    ensures { result ≡ (not passed || taken) }
{
    !passed || taken
}

/// Puts what each of the first `count` points becomes by itself at the end of the open view of `given`.
fn filter_each(
    filter: &BoundFilter,
    only: &Option<Bound>,
    view: &Rows,
    count: usize,
    given: &mut Views,
) -> Result<(), AllocError>
    requires { count ≤ length view.now }
    ensures { OnOk result (given.new ≡ record given.old {
      open_view = given.old.open_view
          ++ filter_map (λ p. or_nothing (at_point (rule_of filter.now) (passes only.now) p)) (take count view.now);
    }) }
{
    for k in 0..count {
        push_some(given, given_for(filter, only, &view.get(k)))?;
    }
    Ok(())
}

/// Puts those of the first `count` points at the end of the open view of `given` that stand at positions that a filter
/// takes, and all that don't pass.
fn filter_places(
    filter: &BoundFilter,
    only: &Option<Bound>,
    view: &Rows,
    count: usize,
    given: &mut Views,
) -> Result<(), AllocError>
    requires { count ≤ length view.now }
    ensures { OnOk result (given.new ≡ record given.old {
      open_view = given.old.open_view
          ++ chosen (λ p. is_true (passes only.now p)) (takes (rule_of filter.now)) 0 (take count view.now);
    }) }
{
    let mut place = 0;
    for k in 0..count {
        let p = view.get(k);
        let passed = is_passed(only, &p);
        push_some(given, kept(goes_on(passed, takes(filter, place)), &p))?;
        place = next_place(place, passed);
    }
    Ok(())
}

/// Puts what a filter makes of the first `count` points of a view at the end of the open view of `given`.
pub(crate) fn filter_view(
    filter: &BoundFilter,
    only: &Option<Bound>,
    view: &Rows,
    count: usize,
    given: &mut Views,
) -> Result<(), AllocError>
    requires { count ≤ length view.now }
    ensures { OnOk result (given.new ≡ record given.old {
      open_view = given.old.open_view ++ on_view (rule_of filter.now) (passes only.now) (take count view.now);
    }) }
{
    if is_by_place(filter) {
        filter_places(filter, only, view, count, given)
    } else {
        filter_each(filter, only, view, count, given)
    }
}
