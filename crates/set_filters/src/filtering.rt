//! What a filter gave for whole views.

ghost use Rattle.std.specs.Prelude.{◌≡◌, IfOk};
ghost use Rattle.cloud_points.specs.Flows.{map_views};
ghost use Rattle.stage_meanings.specs.Conditions.{passes};
ghost use Rattle.stage_meanings.specs.Filtering.{filtered, filtered_stop};
ghost use Rattle.stage_meanings.specs.Filters.{on_view, merged};
ghost use Rattle.set_filters.specs.Kinds.{filtering_of, rule_of};
ghost use Rattle.set_filters.specs.Stops.{part, IsWithin};

use crate::stops::{Span, before_stop, fault_of, first_stop};
use crate::viewing::filter_view;
use cloud_points::PointFault;
use expr_eval::Bound;
use name_binding::BoundFilter;
use std::alloc::AllocError;
use whole_filters::Views;

/// What a filter gave for whole views, and where it stopped.
#[derive(Drop)]
pub struct Filtered {
    /// What it gave.
    pub views: Views,

    /// The fault of the point at which it stopped.
    pub fault: Option<PointFault>,
}

/// All points in one view; of cut views only an open one.
fn merge(views: &Views) -> Result<Views, AllocError>
    ensures { IfOk result (λ given. given ≡ merged views.now) }
{
    let mut given = views.like();
    for v in 0..views.views() {
        given.push_view(views.view(v))?;
    }
    given.push_view(views.view(views.views()))?;
    if views.is_cut() {
        given.set_cut();
    } else {
        given.end_view()?;
    }
    Ok(given)
}

/// What a filter makes of a part of views, of each view by itself.
fn filter_part(
    filter: &BoundFilter,
    only: &Option<Bound>,
    views: &Views,
    span: Span,
) -> Result<Views, AllocError>
    requires { IsWithin views.now span }
    ensures { IfOk result (λ given. given
        ≡ map_views (on_view (rule_of filter.now) (passes only.now)) (part views.now span)) }
{
    let mut given = views.like();
    for v in 0..span.views {
        let view = views.view(v);
        filter_view(filter, only, view, view.len(), &mut given)?;
        given.end_view()?;
    }
    filter_view(
        filter,
        only,
        views.view(span.views),
        span.points,
        &mut given,
    )?;
    if span.cut {
        given.set_cut();
    }
    Ok(given)
}

/// What a filter makes of whole views. It judges the points for which `only` holds, or all where there is none, and gives
/// the others on as they are. Positions count the points of a view that are judged, from 0 on.
///
/// It stops at the first point over all views that can't be judged: where `only`, the filter's condition, or a part of an
/// assignment has no value, or a dimension doesn't hold what it is assigned. It then gives what it makes of the points before
/// that one, cut off there, and the fault, with the number of the point, counted from 0 over all views.
///
/// It is refused for want of memory alone. The views that it takes are dropped.
pub fn filter_views(
    filter: &BoundFilter,
    only: &Option<Bound>,
    views: Views,
) -> Result<Filtered, AllocError>
    ensures value { IfOk result (λ f. f.views ≡ filtered (filtering_of filter.now only.now) views) }
    ensures fault { IfOk result (λ f. f.fault ≡ filtered_stop (filtering_of filter.now only.now) views) }
{
    if let BoundFilter::Merge = filter {
        return Ok(Filtered {
            views: merge(&views)?,
            fault: None,
        });
    }
    let stop = first_stop(filter, only, &views);
    let given = filter_part(filter, only, &views, before_stop(&views, stop))?;
    Ok(Filtered {
        views: given,
        fault: fault_of(&views, stop),
    })
}
