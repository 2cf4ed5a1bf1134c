//! A root that keeps what it takes.

use cloud_points::{Layout, Spread};
use std::alloc::Global;
use whole_filters::Views;

/// A stage that needs whole views, while it takes them: it keeps the flow, beside what it is to make of it, and gives it on. Where
/// memory is wanting it notes that, and keeps nothing from then on.
#[derive(Drop)]
pub struct Collector<M> {
    making: M,
    views: Views,
    short: bool,
}

impl<M> Collector<M> {
    ghost use Rattle.std.specs.Prelude.{◌≡◌, false, true, []};
    ghost use Rattle.cloud_points.specs.Events.{ran_short};
    ghost use Rattle.cloud_points.specs.Flows.{empty_flow};
    ghost use Rattle.view_works.specs.Collecting.{held, collecting, state_of};

    /// One that holds nothing yet, of a stage that makes this of whole views. It keeps points in rows that have the
    /// dimensions of the layout, and their keys will be hashed by the seed.
    pub fn new(alloc: Global, layout: &Layout, seed: u64, making: M) -> Collector<M>
        ensures views { result.views ≡ empty_flow }
        ensures short { result.short ≡ false }
        ensures making { result.making ≡ making }
    {
        Collector {
            making,
            views: Views::none(alloc, layout).seeded(seed),
            short: false,
        }
    }

    /// Takes points of the open view, which go on. Where memory is wanting they don't.
    pub fn on_chunk(&mut self, points: &mut Spread)
        ensures state { ran_short self.old.short self.new.short ≡ false
            → state_of self.new ≡ collecting.after (state_of self.old) points.old.items }
        ensures points { ran_short self.old.short self.new.short ≡ false → points.new.items ≡ points.old.items }
        ensures event { ran_short self.old.short self.new.short ≡ true → points.new.items ≡ [] }
        ensures making { self.new.making ≡ self.old.making }
        ensures stays_short { self.old.short ≡ true → self.new.short ≡ true }
    {
        if self.short {
            return;
        }
        if self.views.push_all(points.as_slice()).is_err() {
            self.short = true;
            points.clear();
        }
    }

    /// Ends the open view.
    pub fn on_end_view(&mut self)
        ensures state { ran_short self.old.short self.new.short ≡ false
            → state_of self.new ≡ (collecting.at_view (state_of self.old)).0 }
        ensures making { self.new.making ≡ self.old.making }
        ensures stays_short { self.old.short ≡ true → self.new.short ≡ true }
    {
        if !self.short && self.views.end_view().is_err() {
            self.short = true;
        }
    }

    /// Notes whether the flow, which has ended, is cut.
    pub fn on_end(&mut self, cut: bool)
        ensures state { state_of self.new ≡ (collecting.at_end (state_of self.old) cut).0 }
        ensures making { self.new.making ≡ self.old.making }
        ensures stays_short { self.new.short ≡ self.old.short }
    {
        if cut {
            self.views.set_cut();
        }
    }

    /// Whether memory was wanting.
    pub fn is_short(&self) -> bool
        ensures { result ≡ self.now.short }
    {
        self.short
    }

    /// What the stage is to make of whole views, and the flow that it took; None exactly where memory was wanting as it came.
    pub fn into_parts(self) -> (M, Option<Views>)
        ensures making { result.0 ≡ self.making }
        ensures views { result.1 ≡ held self.short self.views }
    {
        let Collector {
            making,
            views,
            short,
        } = self;
        (making, if short { None } else { Some(views) })
    }
}
