//! The first point that can't be judged, and what stands before it.

ghost use Rattle.std.specs.Prelude.{◌≡◌, ◌≤◌, length, None, IfSome};
ghost use Rattle.std.specs.Option.{option_map};
ghost use Rattle.cloud_points.specs.Queue.{up_to_limit};
ghost use Rattle.stage_meanings.specs.Conditions.{passes};
ghost use Rattle.stage_meanings.specs.Filters.{why, first_from, stop_of, before_stop, point_fault};
ghost use Rattle.set_filters.specs.Kinds.{rule_of};
ghost use Rattle.set_filters.specs.Stops.{number_at, numbered, IsIn, part, IsWithin};

use crate::judging::at_point;
use cloud_points::{Point, PointFault};
use expr_eval::Bound;
use name_binding::BoundFilter;
use stage_meanings::Reason;
use whole_filters::{Rows, Views};

/// A point that can't be judged.
#[derive(Clone, Copy, Debug)]
pub(crate) struct Stop {
    /// The place of its view; the open one stands last.
    pub view: usize,

    /// Its place there.
    pub place: usize,

    /// Why.
    pub reason: Reason,
}

/// A part of views, from their beginning on.
#[derive(Clone, Copy, Debug)]
pub(crate) struct Span {
    /// How many whole views.
    pub views: usize,

    /// How many points of the next one.
    pub points: usize,

    /// Whether it is cut off there.
    pub cut: bool,
}

/// Why a point can't be judged.
fn why(filter: &BoundFilter, only: &Option<Bound>, p: &Point) -> Option<Reason>
    ensures { result ≡ why (rule_of filter.now) (passes only.now) p.now }
{
    match at_point(filter, only, p) {
        Ok(_) => None,
        Err(reason) => Some(reason),
    }
}

/// The first of these points that can't be judged, by its place.
fn first_in(filter: &BoundFilter, only: &Option<Bound>, points: &Rows) -> Option<(usize, Reason)>
    ensures { result ≡ first_from (why (rule_of filter.now) (passes only.now)) 0 points.now }
{
    for k in 0..points.len() {
        if let Some(reason) = why(filter, only, &points.get(k)) {
            return Some((k, reason));
        }
    }
    None
}

/// The first point of all views that can't be judged.
pub(crate) fn first_stop(filter: &BoundFilter, only: &Option<Bound>, views: &Views) -> Option<Stop>
    ensures stop { stop_of (rule_of filter.now) (passes only.now) views.now
        ≡ option_map (numbered views.now) result }
    ensures there { IfSome result (IsIn views.now) }
{
    for view in 0..views.views() {
        if let Some((place, reason)) = first_in(filter, only, views.view(view)) {
            return Some(Stop {
                view,
                place,
                reason,
            });
        }
    }
    let view = views.views();
    let (place, reason) = first_in(filter, only, views.view(view))?;
    Some(Stop {
        view,
        place,
        reason,
    })
}

/// The number of the point at a place of a view: how many stand before it, over all views. It stands at the greatest u64.
fn number_at(views: &Views, view: usize, place: usize) -> u64
    requires { view ≤ length views.now.views }
    ensures { result ≡ up_to_limit (number_at views.now view place) }
{
    let mut before: u64 = 0;
    for v in 0..view {
        before = before.saturating_add(views.len(v) as u64);
    }
    before.saturating_add(place as u64)
}

/// The fault of a point that can't be judged.
pub(crate) fn fault_of(views: &Views, stop: Option<Stop>) -> Option<PointFault>
    requires { IfSome stop (IsIn views.now) }
    ensures { result ≡ option_map (λ s. point_fault (up_to_limit s.0) s.1)
        (option_map (numbered views.now) stop) }
{
    match stop {
        Some(stop) => Some(stop.reason.at(number_at(views, stop.view, stop.place))),
        None => None,
    }
}

/// What stands before a point that can't be judged; all where there is none.
pub(crate) fn before_stop(views: &Views, stop: Option<Stop>) -> Span
    requires { IfSome stop (IsIn views.now) }
    ensures part { part views.now result ≡ before_stop (option_map (numbered views.now) stop) views.now }
    ensures within { IsWithin views.now result }
{
    match stop {
        Some(stop) => Span {
            views: stop.view,
            points: stop.place,
            cut: true,
        },
        None => Span {
            views: views.views(),
            points: views.len(views.views()),
            cut: views.is_cut(),
        },
    }
}
