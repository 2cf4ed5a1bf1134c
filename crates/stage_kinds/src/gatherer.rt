//! A stage that needs whole views, while it takes them.

ghost use Rattle.std.specs.Prelude.{◌≡◌, [], true, false};
ghost use Rattle.cloud_points.specs.Events.{ran_short};
ghost use Rattle.cloud_points.specs.Flows.{empty_flow};
ghost use Rattle.stage_kinds.specs.Makings.{IsGoodMaking};
ghost use Rattle.view_works.specs.Collecting.{collecting, held, state_of};

use crate::Making;
use cloud_points::{Layout, Spread};
use std::alloc::Global;
use std::marker::Model;
use view_works::Collector;
use whole_filters::Views;

/// A stage that needs whole views, while it takes them, beside what it is to make of them. A clause sees it as a collector; the form of
/// what it is to write can be written.
#[derive(Drop)]
pub struct Gatherer {
    collector: Collector<Making>,
}

impl Model for Gatherer {
    ghost use Rattle.stage_kinds.specs.Makings.{IsGoodMaking};
    ghost use Rattle.stage_kinds.specs.declared.making.Making.{Making as Makes};
    ghost use Rattle.view_works.specs.declared.collector.Collector.{Collector as Collects};
    ghost use Rattle.expr_eval.specs.contracts.bound.Bound as bound_type;
    ghost use Rattle.std.specs.Coded.{codes};

    ghost Value = { Collects Makes };

    ghost coded = { Prim.hlevel (codes, bound_type.the_row.coded) };

    ghost view = { λ g. g.collector };

    ghost invariant = { λ g. IsGoodMaking g.collector.making };
}

impl Gatherer {
    /// One that holds nothing yet. It keeps points in rows that have the dimensions of the layout, and their keys will be hashed by
    /// the seed.
    pub fn new(alloc: Global, layout: &Layout, seed: u64, making: Making) -> Gatherer
        requires { IsGoodMaking making }
        ensures views { result.views ≡ empty_flow }
        ensures short { result.short ≡ false }
        ensures making { result.making ≡ making }
    {
        Gatherer {
            collector: Collector::new(alloc, layout, seed, making),
        }
    }

    /// Takes points of the open view, which go on. Where memory is wanting they don't.
    pub(crate) fn on_chunk(&mut self, points: &mut Spread)
        ensures state { ran_short self.old.short self.new.short ≡ false
            → state_of self.new ≡ collecting.after (state_of self.old) points.old.items }
        ensures points { ran_short self.old.short self.new.short ≡ false → points.new.items ≡ points.old.items }
        ensures event { ran_short self.old.short self.new.short ≡ true → points.new.items ≡ [] }
        ensures stays_short { self.old.short ≡ true → self.new.short ≡ true }
    {
        self.collector.on_chunk(points)
    }

    /// Ends the open view.
    pub(crate) fn on_end_view(&mut self)
        ensures state { ran_short self.old.short self.new.short ≡ false
            → state_of self.new ≡ (collecting.at_view (state_of self.old)).0 }
        ensures stays_short { self.old.short ≡ true → self.new.short ≡ true }
    {
        self.collector.on_end_view()
    }

    /// Notes whether the flow, which has ended, is cut.
    pub(crate) fn on_end(&mut self, cut: bool)
        ensures state { state_of self.new ≡ (collecting.at_end (state_of self.old) cut).0 }
        ensures stays_short { self.new.short ≡ self.old.short }
    {
        self.collector.on_end(cut)
    }

    /// Whether memory was wanting.
    pub(crate) fn is_short(&self) -> bool
        ensures { result ≡ self.now.short }
    {
        self.collector.is_short()
    }

    /// What the stage is to make of whole views, and the flow that it took; None exactly where memory was wanting as it came.
    pub fn into_parts(self) -> (Making, Option<Views>)
        ensures making { result.0 ≡ self.making }
        ensures good { IsGoodMaking result.0 }
        ensures views { result.1 ≡ held self.short self.views }
    {
        let Gatherer { collector } = self;
        collector.into_parts()
    }
}
