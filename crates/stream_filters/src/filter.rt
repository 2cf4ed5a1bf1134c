//! All filters as one.

ghost use Rattle.std.specs.Prelude.{◌≡◌, false, None};
ghost use Rattle.cloud_points.specs.Events.{is_device, IsOf};
ghost use Rattle.stage_meanings.specs.Filtering.{filter_meaning};
ghost use Rattle.stream_filters.specs.Kinds.{filtering_of, spot_of};

use crate::{Condition, Crop, Decimation, Head, PointFilter};
use cloud_points::{Spread, StageFault};
use expr_eval::Assignments;
use geo_tests::Limits;
use option_texts::Groups;
use stage_meanings::Spot;

/// A filter.
#[derive(Drop)]
pub enum Filter {
    /// The first points of each view go on.
    Head(PointFilter<Head>),

    /// The points at every so many positions of each view go on.
    Decimation(PointFilter<Decimation>),

    /// The returns of some groups go on.
    Returns(PointFilter<Groups>),

    /// The points within its limits go on.
    Range(PointFilter<Limits>),

    /// The points of its shape go on, or those outside.
    Crop(PointFilter<Crop>),

    /// The points for which its condition holds go on.
    Expression(PointFilter<Condition>),

    /// Gives dimensions the values of expressions.
    Assign(PointFilter<Assignments>),

    /// All points go on, in one view.
    Merge,
}

impl Filter {
    /// Turns the points into those that go on, in place. Behind a fault these are what the points before it gave; a filter has
    /// no device, so each of its faults is one of a point.
    pub fn on_chunk(&mut self, points: &mut Spread) -> Option<StageFault>
        ensures filtering { filtering_of self.new ≡ filtering_of self.old }
        ensures spot { spot_of self.new
            ≡ (filter_meaning (filtering_of self.old)).after (spot_of self.old) points.old.items }
        ensures points { points.new.items
            ≡ (filter_meaning (filtering_of self.old)).emit (spot_of self.old) points.old.items }
        ensures fault { result ≡ (filter_meaning (filtering_of self.old)).fault (spot_of self.old)
            points.old.items }
        ensures no_device { is_device result ≡ false }
        ensures unnamed { IsOf None result }
    {
        match self {
            Filter::Head(filter) => filter.on_chunk(points),
            Filter::Decimation(filter) => filter.on_chunk(points),
            Filter::Returns(filter) => filter.on_chunk(points),
            Filter::Range(filter) => filter.on_chunk(points),
            Filter::Crop(filter) => filter.on_chunk(points),
            Filter::Expression(filter) => filter.on_chunk(points),
            Filter::Assign(filter) => filter.on_chunk(points),
            Filter::Merge => None,
        }
    }

    /// Whether the end of a view goes on.
    pub fn on_end_view(&mut self) -> bool
        ensures filtering { filtering_of self.new ≡ filtering_of self.old }
        ensures spot { ((filter_meaning (filtering_of self.old)).at_view (spot_of self.old))
            ≡ (spot_of self.new, result) }
    {
        match self {
            Filter::Head(filter) => filter.on_end_view(),
            Filter::Decimation(filter) => filter.on_end_view(),
            Filter::Returns(filter) => filter.on_end_view(),
            Filter::Range(filter) => filter.on_end_view(),
            Filter::Crop(filter) => filter.on_end_view(),
            Filter::Expression(filter) => filter.on_end_view(),
            Filter::Assign(filter) => filter.on_end_view(),
            Filter::Merge => return false,
        }
        true
    }

    /// Whether an end of a view goes before the end of all, which comes next. `cut` says whether that is cut.
    pub fn on_end(&self, cut: bool) -> bool
        ensures { (filter_meaning (filtering_of self.now)).at_end (spot_of self.now) cut
            ≡ (spot_of self.now, result) }
    {
        matches!(self, Filter::Merge) && !cut
    }
}
