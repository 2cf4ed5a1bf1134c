//! A filter that judges its points one by one.

ghost use Rattle.std.specs.Prelude.{◌≡◌, false, None};
ghost use Rattle.cloud_points.specs.Events.{is_device, IsOf};
ghost use Rattle.stage_meanings.specs.ByRule.{rule_meaning, spot_anew, spot_at};
ghost use Rattle.stage_meanings.specs.Conditions.{passes};

use crate::PointRule;
use crate::judge::judge_chunk;
use cloud_points::{Spread, StageFault};
use expr_eval::Bound;
use stage_meanings::Spot;

/// Judges the points that pass its `where` by a rule, and lets the others go on as they are.
#[derive(Drop)]
pub struct PointFilter<R> {
    rule: R,
    only: Option<Bound>,
    spot: Spot,
}

impl<R> PointFilter<R> {
    /// Judges by this rule: each point, or where there is a `where` those for which it holds.
    pub fn new(rule: R, only: Option<Bound>) -> Self
        ensures { result ≡ record { rule = rule; only = only; spot = spot_at 0 } }
    {
        PointFilter {
            rule,
            only,
            spot: Spot::first(),
        }
    }

    /// The rule and the `where`, with the filter ended.
    pub fn into_parts(self) -> (R, Option<Bound>)
        ensures { (result.0 ≡ self.rule) × (result.1 ≡ self.only) }
    {
        let PointFilter {
            rule,
            only,
            spot: _,
        } = self;
        (rule, only)
    }
}

impl<R: PointRule> PointFilter<R> {
    /// Turns the points into those that go on. Behind a fault these are what the points before it gave.
    pub(crate) fn on_chunk(&mut self, points: &mut Spread) -> Option<StageFault>
        ensures spot { self.new ≡ record self.old {
          spot =
              (rule_meaning (R.rule self.old.rule) (passes self.old.only)).after self.old.spot points.old.items;
        } }
        ensures points { points.new.items
            ≡ (rule_meaning (R.rule self.old.rule) (passes self.old.only)).emit self.old.spot points.old.items }
        ensures fault { result
            ≡ (rule_meaning (R.rule self.old.rule) (passes self.old.only)).fault self.old.spot points.old.items }
        ensures no_device { is_device result ≡ false }
        ensures unnamed { IsOf None result }
    {
        let (kept, fault) = judge_chunk(
            &self.rule,
            &self.only,
            &mut self.spot,
            points.as_mut_slice(),
        );
        points.truncate(kept);
        fault
    }

    /// Behind the end of a view the places begin anew.
    pub(crate) fn on_end_view(&mut self)
        ensures { self.new ≡ record self.old { spot = spot_anew self.old.spot } }
    {
        self.spot.begin_view();
    }
}
