//! The work of a plug's stage.

ghost use Rattle.std.specs.Prelude.{◌≡◌, Ok, OnOk, OnErr, IfOk, IfErr, None, true, false, take};
ghost use Rattle.cloud_points.specs.Clearing.{cleared};
ghost use Rattle.cloud_points.specs.Events.{is_device, IsOf};
ghost use Rattle.cloud_points.specs.Layouts.{holds};
ghost use Rattle.stage_meanings.specs.Filters.{keeps};
ghost use Rattle.stage_meanings.specs.Steps.{given, reached, stopped};
ghost use Rattle.plug_stages.specs.Folds.{shown_if};
ghost use Rattle.plug_stages.specs.PlugSteps.{remembered_at};
ghost use Rattle.plug_stages.specs.Works.{IsSamePlug, plug_meaning, plug_spot, plug_steps_in};

use crate::{PlugFilter, PlugSpot};
use cloud_points::{Layout, Point, Spread, StageFault};
use expr_eval::Bound;
use stream_filters::{fault_at, move_down, passes};

/// Shows a plug the points that pass its stage's `where`, view by view, and lets the others go on as they are. What goes on
/// of those that are shown has no dimension outside a layout.
#[derive(Drop)]
pub struct PlugWork<P: PlugFilter> {
    plug: P,
    place: usize,
    only: Option<Bound>,
    layout: Layout,
    number: u64,
    begun: bool,
}

impl<P: PlugFilter> PlugWork<P> {
    /// Of this plug, from this place among those that the caller handed in, for the points for which the `where` holds; all
    /// where there is none. What goes on of these has no dimension outside the layout.
    pub fn new(plug: P, place: usize, only: Option<Bound>, layout: Layout) -> PlugWork<P>
        ensures { result ≡ record {
          plug = plug;
          place = place;
          only = only;
          layout = layout;
          number = 0;
          begun = false;
        } }
    {
        PlugWork {
            plug,
            place,
            only,
            layout,
            number: 0,
            begun: false,
        }
    }

    /// The plug and its place, with the stage ended.
    pub fn into_parts(self) -> (P, usize)
        ensures { (result.0 ≡ self.plug) × (result.1 ≡ self.place) }
    {
        let PlugWork {
            plug,
            place,
            only: _,
            layout: _,
            number: _,
            begun: _,
        } = self;
        (plug, place)
    }

    /// Has the plug begin the view, if it didn't.
    fn begin(&mut self)
        ensures same { IsSamePlug P.PlugFilter self.old self.new }
        ensures spot { plug_spot P.PlugFilter self.new ≡ record (plug_spot P.PlugFilter self.old) {
          begun = true;
          remembered = remembered_at (P.opening self.old.plug) (plug_spot P.PlugFilter self.old);
        } }
    {
        if !self.begun {
            self.plug.begin_view();
            self.begun = true;
        }
    }

    /// Whether a point goes on, as what it then is; one that passes is shown to the plug.
    fn show(&mut self, passed: bool, p: &mut Point) -> bool
        ensures same { IsSamePlug P.PlugFilter self.old self.new }
        ensures spot { plug_spot P.PlugFilter self.new ≡ record (plug_spot P.PlugFilter self.old) {
          begun = true;
          remembered = (shown_if passed (cleared (holds self.old.layout)) (P.step self.old.plug)
              (remembered_at (P.opening self.old.plug) (plug_spot P.PlugFilter self.old)) p.old).0;
        } }
        ensures goes { keeps result p.new
            ≡ (shown_if passed (cleared (holds self.old.layout)) (P.step self.old.plug)
            (remembered_at (P.opening self.old.plug) (plug_spot P.PlugFilter self.old)) p.old).1 }
    {
        self.begin();
        if !passed {
            return true;
        }
        let goes = self.plug.point(p);
        self.layout.clear(p);
        goes
    }

    /// Whether the next point goes on, as what it then is. Behind a fault the work stands where it stood.
    fn judge(&mut self, p: &mut Point) -> Result<bool, StageFault>
        ensures same { IsSamePlug P.PlugFilter self.old self.new }
        ensures sound { OnOk result ((plug_steps_in P.PlugFilter self.old).fault (plug_spot P.PlugFilter self.old) p.old
            ≡ None) }
        ensures becomes { IfOk result (λ goes. (plug_steps_in P.PlugFilter self.old).becomes
            (plug_spot P.PlugFilter self.old) p.old ≡ keeps goes p.new) }
        ensures next { OnOk result (plug_spot P.PlugFilter self.new
            ≡ (plug_steps_in P.PlugFilter self.old).next (plug_spot P.PlugFilter self.old) p.old) }
        ensures fault { IfErr result (λ f. (plug_steps_in P.PlugFilter self.old).fault (plug_spot P.PlugFilter self.old) p.old
            ≡ Some f) }
        ensures stays { OnErr result (plug_spot P.PlugFilter self.new ≡ plug_spot P.PlugFilter self.old) }
    {
        match passes(&self.only, p) {
            Err(reason) => Err(fault_at(self.number, reason)),
            Ok(passed) => {
                let goes = self.show(passed, p);
                self.number = self.number.saturating_add(1);
                Ok(goes)
            }
        }
    }

    /// Judges the points one after the other, up to the first fault. Those that go on come to stand first; answered are how
    /// many they are, and the fault.
    fn judge_each(&mut self, points: &mut [Point]) -> (usize, Option<StageFault>)
        ensures same { IsSamePlug P.PlugFilter self.old self.new }
        ensures gives { take result.0 points.new
            ≡ given (plug_steps_in P.PlugFilter self.old) (plug_spot P.PlugFilter self.old) points.old }
        ensures reaches { plug_spot P.PlugFilter self.new
            ≡ reached (plug_steps_in P.PlugFilter self.old) (plug_spot P.PlugFilter self.old) points.old }
        ensures stops { result.1
            ≡ stopped (plug_steps_in P.PlugFilter self.old) (plug_spot P.PlugFilter self.old) points.old }
    {
        let mut kept = 0;
        for at in 0..points.len() {
            match self.judge(&mut points[at]) {
                Ok(goes) => kept = move_down(points, kept, at, goes),
                Err(fault) => return (kept, Some(fault)),
            }
        }
        (kept, None)
    }

    /// Turns the points into those that go on. Behind a fault these are what the points before it gave.
    #[tactic(auto, using(crate::proofs::NoDevice::plugs_have_no_device, crate::proofs::NoDevice::plugs_name_no_device))]
    pub fn turn(&mut self, points: &mut Spread) -> Option<StageFault>
        ensures meaning { plug_meaning P.PlugFilter self.new ≡ plug_meaning P.PlugFilter self.old }
        ensures spot { plug_spot P.PlugFilter self.new
            ≡ (plug_meaning P.PlugFilter self.old).after (plug_spot P.PlugFilter self.old) points.old.items }
        ensures points { points.new.items
            ≡ (plug_meaning P.PlugFilter self.old).emit (plug_spot P.PlugFilter self.old) points.old.items }
        ensures fault { result
            ≡ (plug_meaning P.PlugFilter self.old).fault (plug_spot P.PlugFilter self.old) points.old.items }
        ensures no_device { is_device result ≡ false }
        ensures unnamed { IsOf None result }
    {
        let (kept, fault) = self.judge_each(points.as_mut_slice());
        points.truncate(kept);
        fault
    }

    /// Ends a view; one of which no point was judged is begun first.
    pub fn end_view(&mut self)
        ensures meaning { plug_meaning P.PlugFilter self.new ≡ plug_meaning P.PlugFilter self.old }
        ensures spot { (plug_spot P.PlugFilter self.new, true)
            ≡ (plug_meaning P.PlugFilter self.old).at_view (plug_spot P.PlugFilter self.old) }
    {
        self.begin();
        self.begun = false;
    }
}
