//! A writer's `where`.

ghost use Rattle.std.specs.Prelude.{◌≡◌, ◌≤◌, ◌<◌, ◌+◌, ◌++◌, [], length, filter, IfNone, IfSome};
ghost use Rattle.std.specs.List.{cons_option};
ghost use Rattle.std.specs.Option.{option_map};
ghost use Rattle.arrayvec.specs.ArrayVec.{array_vec_len};
ghost use Rattle.cloud_points.specs.Queue.{up_to_limit};
ghost use Rattle.stage_meanings.specs.Conditions.{passes};
ghost use Rattle.stage_meanings.specs.Filters.{keeps, is_true, first_unjudged, points_before};
ghost use Rattle.stage_meanings.specs.Places.{IsPlaceOf};

use crate::rules::passes;
use cloud_points::{Point, Spread};
use expr_eval::Bound;
use stage_meanings::Reason;

/// Whether a `where` has a value for the point, and holds.
fn is_written(only: &Option<Bound>, p: &Point) -> bool
    ensures { result ≡ is_true (passes only.now p.now) }
{
    matches!(passes(only, p), Ok(true))
}

/// Puts the point behind the others, if it is to be written.
fn put_if(into: &mut Spread, written: bool, p: Point)
    requires { array_vec_len into.old < 64 }
    ensures items { into.new.items ≡ into.old.items ++ cons_option (keeps written p) [] }
    ensures len { array_vec_len into.new ≤ array_vec_len into.old + 1 }
{
    if written {
        into.push(p);
    }
}

/// A writer's `where`, and how many points stood before the next one. The points for which it holds are written.
#[derive(Drop)]
pub struct WriterWhere {
    only: Option<Bound>,
    number: u64,
}

impl WriterWhere {
    /// By this `where`, or all points where there is none.
    pub fn new(only: Option<Bound>) -> Self
        ensures { result ≡ record { only = only; number = 0 } }
    {
        WriterWhere { only, number: 0 }
    }

    /// The `where`.
    pub fn only(&self) -> Option<&Bound>
        ensures { option_map (λ b. b.now) result ≡ self.now.only }
    {
        self.only.as_ref()
    }

    /// The `where`, with the rest dropped.
    pub fn into_only(self) -> Option<Bound>
        ensures { result ≡ self.only }
    {
        self.only
    }

    /// The place of the first of at most 64 points at which the `where` has no value, and why it has none. Those before it for which
    /// it holds come in place of what `chosen` held.
    ///
    /// Without a `where` these are all points, so that a writer need not ask for them.
    pub fn choose(&self, points: &[Point], chosen: &mut Spread) -> Option<(usize, Reason)>
        requires { length points.now ≤ 64 }
        ensures stop { result ≡ first_unjudged (passes self.now.only) 0 points.now }
        ensures chosen { chosen.new.items
            ≡ filter (λ p. is_true (passes self.now.only p)) (points_before result points.now) }
    {
        chosen.clear();
        for (at, p) in points.iter().enumerate() {
            match passes(&self.only, p) {
                Ok(written) => put_if(chosen, written, *p),
                Err(why) => return Some((at, why)),
            }
        }
        None
    }

    /// The place of the point that is written after k others, where so many are written.
    pub fn place_of(&self, points: &[Point], k: usize) -> Option<usize>
        ensures there { IfSome result (λ at.
            IsPlaceOf (λ p. is_true (passes self.now.only p)) points.now k at) }
        ensures few { IfNone result (length (filter (λ p. is_true (passes self.now.only p)) points.now) ≤ k) }
    {
        let mut passed = 0;
        for at in 0..points.len() {
            if is_written(&self.only, &points[at]) {
                if passed == k {
                    return Some(at);
                }
                passed += 1;
            }
        }
        None
    }

    /// The number of the next point.
    pub fn number(&self) -> u64
        ensures { result ≡ self.now.number }
    {
        self.number
    }

    /// Goes on behind so many points; the number stands at the greatest u64.
    pub fn go_on(&mut self, points: usize)
        ensures { self.new ≡ record self.old { number = up_to_limit (self.old.number + points) } }
    {
        self.number = self.number.saturating_add(points as u64);
    }
}
