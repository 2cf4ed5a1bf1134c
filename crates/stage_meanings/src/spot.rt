//! Where a stage stands among its points.

ghost use Rattle.std.specs.Prelude.{◌≡◌};
ghost use Rattle.stage_meanings.specs.ByRule.{spot_at, spot_after, spot_anew};

/// Where the next point of a filter, or of a writer, stands. Both numbers stand at the greatest u64.
#[derive(Clone, Copy, Debug, PartialEq, Eq)]
pub struct Spot {
    /// Its number in the stage's input, counted from 0 over all views.
    pub number: u64,

    /// Its position among the points of its view that pass the filter's `where`, if it is one of them; of a writer's points its
    /// position over all views, which is how many were written before it.
    pub place: u64,
}

impl Spot {
    /// Before the first point.
    pub fn first() -> Spot
        ensures { result ≡ spot_at 0 }
    {
        Spot {
            number: 0,
            place: 0,
        }
    }

    /// Goes on behind a point, which did or didn't pass.
    pub fn pass(&mut self, passed: bool)
        ensures { self.new ≡ spot_after passed self.old }
    {
        self.number = self.number.saturating_add(1);
        if passed {
            self.place = self.place.saturating_add(1);
        }
    }

    /// Goes on with the next view.
    pub fn begin_view(&mut self)
        ensures { self.new ≡ spot_anew self.old }
    {
        self.place = 0;
    }
}
