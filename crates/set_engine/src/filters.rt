//! Filters on whole views.

ghost use Rattle.std.specs.Prelude.{◌≡◌, option_map, IfOk};
ghost use Rattle.cloud_points.specs.declared.faults.StageFault.TheVariants as stage;
ghost use Rattle.set_filters.specs.Kinds as plain_kinds;
ghost use Rattle.stage_meanings.specs.Filtering.{filtered, filtered_stop};
ghost use Rattle.stream_filters.specs.Kinds.{filtering_of};

use crate::output::StageOutput;
use cloud_points::{PointFault, StageFault};
use expr_eval::Bound;
use name_binding::BoundFilter;
use set_filters::{Filtered, filter_views};
use std::alloc::AllocError;
use stream_filters::{Condition, Crop, Filter, Head};
use whole_filters::Views;

/// What a filter was made of, with the points for which a condition holds.
fn parts_of(filter: Filter) -> (BoundFilter, Option<Bound>)
    ensures { plain_kinds.filtering_of result.0 result.1 ≡ filtering_of filter }
{
    match filter {
        Filter::Head(head) => {
            let (Head { count }, only) = head.into_parts();
            (BoundFilter::Head(count), only)
        }
        Filter::Decimation(decimation) => {
            let (rule, only) = decimation.into_parts();
            let filter = BoundFilter::Decimation(rule.step, rule.offset, rule.limit);
            (filter, only)
        }
        Filter::Returns(returns) => {
            let (groups, only) = returns.into_parts();
            (BoundFilter::Returns(groups), only)
        }
        Filter::Range(range) => {
            let (limits, only) = range.into_parts();
            (BoundFilter::Range(limits), only)
        }
        Filter::Crop(crop) => {
            let (Crop { shape, outside }, only) = crop.into_parts();
            (BoundFilter::Crop(shape, outside), only)
        }
        Filter::Expression(expression) => {
            let (Condition(condition), only) = expression.into_parts();
            (BoundFilter::Expression(condition), only)
        }
        Filter::Assign(assign) => {
            let (assignments, only) = assign.into_parts();
            (BoundFilter::Assign(assignments), only)
        }
        Filter::Merge => (BoundFilter::Merge, None),
    }
}

/// The fault of a point, as that of a stage.
pub(crate) fn of_point(fault: Option<PointFault>) -> Option<StageFault>
    ensures { result ≡ option_map stage.Point fault }
{
    match fault {
        Some(fault) => Some(StageFault::Point(fault)),
        None => None,
    }
}

/// What a filter makes of whole views, up to the first point that can't be judged.
pub(crate) fn filter_all(filter: Filter, views: Views) -> Result<StageOutput, AllocError>
    ensures value { IfOk result (λ given. given.views ≡ filtered (filtering_of filter) views) }
    ensures fault { IfOk result (λ given. given.fault
        ≡ option_map stage.Point (filtered_stop (filtering_of filter) views)) }
{
    let (filter, only) = parts_of(filter);
    let Filtered { views, fault } = filter_views(&filter, &only, views)?;
    Ok(StageOutput {
        views,
        fault: of_point(fault),
    })
}
