//! A tally of the least and the greatest coordinates.

ghost use Rattle.std.specs.Prelude.{◌≡◌, ◌≤◌, ◌+◌, ◌++◌, ◌&&◌, true, List, [], codes};
ghost use Rattle.arrayvec.specs.ArrayString.{array_string_len};
ghost use Rattle.cloud_points.specs.declared.point.Point as point_type;
ghost use Rattle.decimal_coords.specs.Fixed.{fixed_text};
ghost use Rattle.plug_stages.specs.Extents.{bounds_text, extent_text, extent_with, greater, lesser, numbers_of};
ghost use Rattle.plug_stages.specs.Tallied.{tallied};
ghost use Rattle.plug_stages.specs.Printing.{are_printable};

use crate::PlugTally;
use arrayvec::ArrayString;
use cloud_points::Point;
use decimal_coords::print_fixed;

/// The least and the greatest coordinates of some points, in nanounits.
#[derive(Clone, Copy, Debug)]
struct Extent {
    low_x: i64,
    low_y: i64,
    low_z: i64,
    high_x: i64,
    high_y: i64,
    high_z: i64,
}

/// Tells the least X, Y, Z and the greatest X, Y, Z of its points, in units with 3 places and blanks between them; or `empty`
/// where there is no point. It is called `bounds`.
#[derive(Clone, Copy, Debug)]
pub struct Bounds {
    extent: Option<Extent>,
}

/// Puts a number in place of a greater one.
fn lower(low: &mut i64, nano: i64)
    ensures { low.new ≡ lesser low.old nano }
{
    if nano < *low {
        *low = nano;
    }
}

/// Puts a number in place of a lesser one.
fn raise(high: &mut i64, nano: i64)
    ensures { high.new ≡ greater high.old nano }
{
    if *high < nano {
        *high = nano;
    }
}

impl Extent {
    /// That of one point.
    fn of(p: &Point) -> Extent
        ensures { numbers_of result ≡ extent_with [] p.now }
    {
        Extent {
            low_x: p.x,
            low_y: p.y,
            low_z: p.z,
            high_x: p.x,
            high_y: p.y,
            high_z: p.z,
        }
    }

    /// Takes another point.
    fn take(&mut self, p: &Point)
        ensures { numbers_of self.new ≡ extent_with (numbers_of self.old) p.now }
    {
        lower(&mut self.low_x, p.x);
        lower(&mut self.low_y, p.y);
        lower(&mut self.low_z, p.z);
        raise(&mut self.high_x, p.x);
        raise(&mut self.high_y, p.y);
        raise(&mut self.high_z, p.z);
    }

    /// Puts its numbers behind an empty text.
    fn put(&self, out: &mut ArrayString<256>)
        requires { out.old.bytes ≡ [] }
        ensures text { out.new.bytes ≡ extent_text (numbers_of self.now) }
        ensures short { array_string_len out.new ≤ 131 }
        ensures printable { are_printable out.new.bytes ≡ true }
    {
        push_fixed(self.low_x, out);
        push_next(self.low_y, out);
        push_next(self.low_z, out);
        push_next(self.high_x, out);
        push_next(self.high_y, out);
        push_next(self.high_z, out);
    }
}

/// Appends a number with 3 places.
#[tactic(auto, using(crate::proofs::Printable::printable_behind, crate::proofs::Printable::fixed_printable))]
fn push_fixed(nano: i64, out: &mut ArrayString<256>)
    requires room { array_string_len out.old ≤ 235 }
    ensures bytes { out.new.bytes ≡ out.old.bytes ++ fixed_text nano 3 }
    ensures len { array_string_len out.new ≤ array_string_len out.old + 21 }
    ensures printable { are_printable out.new.bytes ≡ are_printable out.old.bytes }
{
    let mut digits = ArrayString::<48>::new();
    print_fixed(nano as i128, 3, &mut digits);
    out.push_str(digits.as_str());
}

/// Appends a blank and a number with 3 places.
#[tactic(auto, using(crate::proofs::Printable::printable_behind))]
fn push_next(nano: i64, out: &mut ArrayString<256>)
    requires room { array_string_len out.old ≤ 234 }
    ensures bytes { out.new.bytes ≡ out.old.bytes ++ codes " " ++ fixed_text nano 3 }
    ensures len { array_string_len out.new ≤ array_string_len out.old + 22 }
    ensures printable { are_printable out.new.bytes ≡ are_printable out.old.bytes }
{
    out.push_str(" ");
    push_fixed(nano, out);
}

impl Bounds {
    /// Of no points.
    #[tactic(auto, using(crate::proofs::Reached::bounds_told))]
    pub fn new() -> Bounds
        ensures called { ⟦<Bounds as PlugTally>⟧.called result ≡ codes "bounds" }
        ensures begins { ⟦<Bounds as PlugTally>⟧.state result ≡ ⟦<Bounds as PlugTally>⟧.opening result }
        ensures rule { (points : List point_type.Point)
            → ⟦<Bounds as PlugTally>⟧.text result
            (tallied (⟦<Bounds as PlugTally>⟧.step result) (⟦<Bounds as PlugTally>⟧.opening result) points)
            ≡ bounds_text points }
    {
        Bounds { extent: None }
    }
}

impl PlugTally for Bounds {
    ghost use Rattle.std.specs.Prelude.{[], codes};
    ghost use Rattle.plug_stages.specs.Extents.{extent_text, extent_with, numbers_if};

    ghost called = { λ _. codes "bounds" };

    ghost state = { λ b. numbers_if b.extent };

    ghost opening = { λ _. [] };

    ghost step = { λ _. extent_with };

    ghost text = { λ _. extent_text };

    fn name(&self) -> &str {
        "bounds"
    }

    fn begin(&mut self) {
        self.extent = None;
    }

    fn point(&mut self, p: &Point) {
        match &mut self.extent {
            None => self.extent = Some(Extent::of(p)),
            Some(extent) => extent.take(p),
        }
    }

    fn close(&self, out: &mut ArrayString<256>) {
        out.clear();
        match &self.extent {
            None => out.push_str("empty"),
            Some(extent) => extent.put(out),
        }
    }
}
