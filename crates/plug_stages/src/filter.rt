//! A filter that a caller hands in.

use cloud_points::Point;

/// A filter of the caller, by rules of its own. It takes no memory and refuses nothing.
pub trait PlugFilter: Drop {
    ghost use Rattle.std.specs.Prelude.{◌≡◌, ℕ, ℤ, List, Option};
    ghost use Rattle.cloud_points.specs.declared.point.Point.{Point};
    ghost use Rattle.stage_meanings.specs.Filters.{keeps};

    /// What it is called. No call changes it.
    ghost called: { Self → List ℕ };

    /// What it remembers.
    ghost state: { Self → List ℤ };

    /// What it remembers at the beginning of a view. No call changes it.
    ghost opening: { Self → List ℤ };

    /// What a point makes of what it remembers, and the point that goes on, if one does. No call changes it.
    ghost step: { Self → List ℤ → Point → List ℤ × Option Point };

    /// What it is called.
    fn name(&self) -> &str
        ensures { result.now ≡ called self.now };

    /// Begins a view.
    fn begin_view(&mut self)
        ensures called { called self.new ≡ called self.old }
        ensures opening { opening self.new ≡ opening self.old }
        ensures step { step self.new ≡ step self.old }
        ensures state { state self.new ≡ opening self.old };

    /// Whether a point goes on, as what it then is.
    fn point(&mut self, p: &mut Point) -> bool
        ensures called { called self.new ≡ called self.old }
        ensures opening { opening self.new ≡ opening self.old }
        ensures step { step self.new ≡ step self.old }
        ensures stepped { step self.old (state self.old) p.old ≡ (state self.new, keeps result p.new) };
}

/// A boxed filter, of any type.
pub type BoxedFilter = Box<dyn PlugFilter + Send>;

impl PlugFilter for Box<dyn PlugFilter + Send> {
    ghost called = { λ b. (PlugFilter-box b).called b.value };

    ghost state = { λ b. (PlugFilter-box b).state b.value };

    ghost opening = { λ b. (PlugFilter-box b).opening b.value };

    ghost step = { λ b. (PlugFilter-box b).step b.value };

    fn name(&self) -> &str {
        (**self).name()
    }

    fn begin_view(&mut self) {
        (**self).begin_view()
    }

    fn point(&mut self, p: &mut Point) -> bool {
        (**self).point(p)
    }
}
