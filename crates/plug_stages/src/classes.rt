//! A tally of the classes of points.

ghost use Rattle.std.specs.Prelude.{◌≡◌, ◌<◌, ◌≤◌, ◌+◌, ◌*◌, ◌++◌, true, ℕ, List, [], ◌∷◌, length, take, min, codes, decimal};
ghost use Rattle.arrayvec.specs.ArrayString.{array_string_len};
ghost use Rattle.cloud_points.specs.declared.point.Point as point_type;
ghost use Rattle.plug_stages.specs.Classes.{came_from, class_text, classes_text, rest_text, spaced};
ghost use Rattle.plug_stages.specs.Tallied.{tallied};
ghost use Rattle.plug_stages.specs.Printing.{are_printable};

use crate::PlugTally;
use arrayvec::ArrayString;
use cloud_points::Point;
use itoa::Buffer;

/// How many classes are told with their numbers.
const MOST_TOLD: usize = 8;

/// Tells how many points of each class there are: `c:n` of the eight least classes that came, in order with blanks between
/// them, and then ` and m more` where more came; or `empty` where there is no point. A number of points stands at the
/// greatest u64. It is called `classes`.
#[derive(Drop)]
pub struct Classes {
    counts: [u64; 256],
}

/// Appends a number.
#[tactic(auto, using(crate::proofs::Printable::printable_behind, crate::proofs::Printable::decimal_printable, crate::proofs::Printable::decimal_few))]
fn push_number(number: u64, out: &mut ArrayString<256>)
    requires room { array_string_len out.old ≤ 236 }
    ensures bytes { out.new.bytes ≡ out.old.bytes ++ decimal number }
    ensures len { array_string_len out.new ≤ array_string_len out.old + 20 }
    ensures few { number < 1000 → array_string_len out.new ≤ array_string_len out.old + 3 }
    ensures printable { are_printable out.new.bytes ≡ are_printable out.old.bytes }
{
    let mut buffer = Buffer::new();
    out.push_str(buffer.format(number));
}

/// Appends a class and how many points have it.
#[tactic(auto, using(crate::proofs::Printable::printable_behind))]
fn push_class(class: usize, count: u64, out: &mut ArrayString<256>)
    requires room { array_string_len out.old ≤ 220 }
    requires class { class < 256 }
    ensures bytes { out.new.bytes ≡ out.old.bytes ++ class_text (class, count) }
    ensures len { array_string_len out.new ≤ array_string_len out.old + 24 }
    ensures printable { are_printable out.new.bytes ≡ are_printable out.old.bytes }
{
    push_number(class as u64, out);
    out.push_str(":");
    push_number(count, out);
}

/// Appends a class behind so many others, if it is among the first, and how many points have it.
fn put_class(before: usize, class: usize, count: u64, out: &mut ArrayString<256>)
    requires room { array_string_len out.old ≤ 25 * min before 8 }
    requires class { class < 256 }
    ensures bytes { (others : List (ℕ × ℕ)) → length others ≡ before → out.old.bytes ≡ spaced (take 8 others)
        → out.new.bytes ≡ spaced (take 8 (others ++ (class, count) ∷ [])) }
    ensures len { array_string_len out.new ≤ 25 * min (before + 1) 8 }
    ensures printable { are_printable out.new.bytes ≡ are_printable out.old.bytes }
{
    if before < MOST_TOLD {
        if before > 0 {
            out.push_str(" ");
        }
        push_class(class, count, out);
    }
}

/// Appends what stands behind the first of so many classes: that there is none, or how many more came.
#[tactic(auto, using(crate::proofs::Printable::printable_behind))]
fn put_rest(came: usize, out: &mut ArrayString<256>)
    requires room { array_string_len out.old ≤ 200 }
    ensures bytes { out.new.bytes ≡ out.old.bytes ++ rest_text came }
    ensures len { array_string_len out.new ≤ array_string_len out.old + 30 }
    ensures printable { are_printable out.new.bytes ≡ are_printable out.old.bytes }
{
    if came == 0 {
        out.push_str("empty");
    } else if came > MOST_TOLD {
        out.push_str(" and ");
        push_number((came - MOST_TOLD) as u64, out);
        out.push_str(" more");
    }
}

impl Classes {
    /// Of no points.
    pub fn new() -> Classes
        ensures called { ⟦<Classes as PlugTally>⟧.called result ≡ codes "classes" }
        ensures begins { ⟦<Classes as PlugTally>⟧.state result ≡ ⟦<Classes as PlugTally>⟧.opening result }
        ensures rule { (points : List point_type.Point)
            → ⟦<Classes as PlugTally>⟧.text result
            (tallied (⟦<Classes as PlugTally>⟧.step result) (⟦<Classes as PlugTally>⟧.opening result) points)
            ≡ classes_text points }
    {
        Classes { counts: [0; 256] }
    }

    /// Puts the first classes that came behind an empty text, and answers how many came.
    fn put_first(&self, out: &mut ArrayString<256>) -> usize
        requires { out.old.bytes ≡ [] }
        ensures bytes { out.new.bytes ≡ spaced (take 8 (came_from 0 self.now.counts)) }
        ensures came { result ≡ length (came_from 0 self.now.counts) }
        ensures room { array_string_len out.new ≤ 200 }
        ensures printable { are_printable out.new.bytes ≡ true }
    {
        let mut came = 0;
        for class in 0..self.counts.len() {
            if self.counts[class] > 0 {
                put_class(came, class, self.counts[class], out);
                came += 1;
            }
        }
        came
    }
}

impl PlugTally for Classes {
    ghost use Rattle.std.specs.Prelude.{codes, map, pos};
    ghost use Rattle.plug_stages.specs.Classes.{count_text, count_with, none_counted};

    ghost called = { λ _. codes "classes" };

    ghost state = { λ c. map pos c.counts };

    ghost opening = { λ _. none_counted };

    ghost step = { λ _. count_with };

    ghost text = { λ _. count_text };

    fn name(&self) -> &str {
        "classes"
    }

    fn begin(&mut self) {
        self.counts = [0; 256];
    }

    fn point(&mut self, p: &Point) {
        let class = p.classification as usize;
        self.counts[class] = self.counts[class].saturating_add(1);
    }

    fn close(&self, out: &mut ArrayString<256>) {
        out.clear();
        let came = self.put_first(out);
        put_rest(came, out);
    }
}
