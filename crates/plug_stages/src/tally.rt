//! A tally that a caller hands in.

use arrayvec::ArrayString;
use cloud_points::Point;

/// A tally of the caller: it is shown points, and says in the end what they came to. It takes no memory and refuses nothing.
pub trait PlugTally: Drop {
    ghost use Rattle.std.specs.Prelude.{◌≡◌, ◌≤◌, ℕ, ℤ, true, List, length};
    ghost use Rattle.cloud_points.specs.declared.point.Point.{Point};
    ghost use Rattle.plug_stages.specs.Printing.{are_printable};

    /// What it is called. No call changes it.
    ghost called: { Self → List ℕ };

    /// What it remembers.
    ghost state: { Self → List ℤ };

    /// What it remembers at the beginning. No call changes it.
    ghost opening: { Self → List ℤ };

    /// What a point makes of what it remembers. No call changes it.
    ghost step: { Self → List ℤ → Point → List ℤ };

    /// What it says in the end of what it remembers. No call changes it.
    ghost text: { Self → List ℤ → List ℕ };

    /// What it is called: at most 64 bytes.
    fn name(&self) -> &str
        ensures name { result.now ≡ called self.now }
        ensures short { length (called self.now) ≤ 64 };

    /// Begins.
    fn begin(&mut self)
        ensures called { called self.new ≡ called self.old }
        ensures opening { opening self.new ≡ opening self.old }
        ensures step { step self.new ≡ step self.old }
        ensures text { text self.new ≡ text self.old }
        ensures state { state self.new ≡ opening self.old };

    /// Takes a point.
    fn point(&mut self, p: &Point)
        ensures called { called self.new ≡ called self.old }
        ensures opening { opening self.new ≡ opening self.old }
        ensures step { step self.new ≡ step self.old }
        ensures text { text self.new ≡ text self.old }
        ensures stepped { state self.new ≡ step self.old (state self.old) p.now };

    /// Puts what it says in the end in place of what `out` held: at most 256 printable ASCII bytes.
    fn close(&self, out: &mut ArrayString<256>)
        ensures text { out.new.bytes ≡ text self.now (state self.now) }
        ensures short { length out.new.bytes ≤ 256 }
        ensures printable { are_printable out.new.bytes ≡ true };
}

/// A boxed tally, of any type.
pub type BoxedTally = Box<dyn PlugTally + Send>;

impl PlugTally for Box<dyn PlugTally + Send> {
    ghost called = { λ b. (PlugTally-box b).called b.value };

    ghost state = { λ b. (PlugTally-box b).state b.value };

    ghost opening = { λ b. (PlugTally-box b).opening b.value };

    ghost step = { λ b. (PlugTally-box b).step b.value };

    ghost text = { λ b. (PlugTally-box b).text b.value };

    fn name(&self) -> &str {
        (**self).name()
    }

    fn begin(&mut self) {
        (**self).begin()
    }

    fn point(&mut self, p: &Point) {
        (**self).point(p)
    }

    fn close(&self, out: &mut ArrayString<256>) {
        (**self).close(out)
    }
}
