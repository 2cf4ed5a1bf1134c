//! What a filter does with a point that passes its `where`.

ghost use Rattle.std.specs.Prelude.{◌≡◌, ◌≤◌, Result, Ok, Err, OnOk, IfOk, IfErr, IfSome, length};
ghost use Rattle.stage_meanings.specs.Filters.{Rule, keeps};
ghost use Rattle.stage_meanings.specs.ByRule.{judged};
ghost use Rattle.geo_tests.specs.Tests.{different};
ghost use Rattle.stage_meanings.specs.Conditions.{passes};
ghost use Rattle.stage_meanings.specs.Rules.{is_below, is_step, is_grouped, put, assigned};
ghost use Rattle.stream_filters.specs.Masks.{IsMaskOf};

use crate::masks::{PointTest, mask_of};
use crate::ranges::mask_of_limit;
use cloud_points::{Dim, Point};
use expr_eval::{Assignment, Assignments, Bound, holds, value};
use geo_tests::{Limits, Shape};
use option_texts::Groups;
use stage_meanings::Reason;

/// A rule by which a filter judges points one after the other.
pub trait PointRule {
    ghost use Rattle.cloud_points.specs.declared.point.Point.{Point};
    ghost use Rattle.stage_meanings.specs.declared.reason.Reason.{Reason};

    ghost rule: { Self → Rule Point Reason };

    /// Whether the point at this place goes on, as what it then is, or why it can't be judged; it may then hold anything.
    fn judge(&self, place: u64, p: &mut Point) -> Result<bool, Reason>
        ensures ok { IfOk result (λ goes. judged (rule self.now) place p.old ≡ Ok (keeps goes p.new)) }
        ensures refused { IfErr result (λ r. judged (rule self.now) place p.old ≡ Err r) };

    /// Of at most 64 points those that go on, as a mask whose lowest bit is the first one's, where the rule only tests each by
    /// itself. None where they are to be judged one after the other.
    fn mask(&self, points: &[Point]) -> Option<u64>
        requires { length points.now ≤ 64 }
        ensures { IfSome result (λ mask. IsMaskOf (rule self.now) mask points.now) }
    {
        None
    }
}

/// The first points of each view go on.
#[derive(Clone, Copy, Debug)]
pub struct Head {
    /// How many.
    pub count: u32,
}

impl PointRule for Head {
    ghost use Rattle.stage_meanings.specs.Rules.{head};

    ghost rule = { λ r. head r.count };

    fn judge(&self, place: u64, _p: &mut Point) -> Result<bool, Reason> {
        Ok(place < self.count as u64)
    }
}

/// Of each view the points at the positions `offset`, `offset + step` and so on go on.
#[derive(Clone, Copy, Debug)]
pub struct Decimation {
    /// From one position to the next; 0 takes the first one alone.
    pub step: u32,

    /// The first position.
    pub offset: u32,

    /// No position from here on; None is all.
    pub limit: Option<u32>,
}

impl Decimation {
    /// Whether it takes the position.
    fn takes(&self, place: u64) -> bool
        ensures { result ≡ is_step self.now.step self.now.offset self.now.limit place }
    {
        let offset = self.offset as u64;
        self.is_below_limit(place)
            && offset <= place
            && (place - offset).is_multiple_of(self.step as u64)
    }

    /// Whether the position is below the limit.
    fn is_below_limit(&self, place: u64) -> bool
        ensures { result ≡ is_below self.now.limit place }
    {
        match self.limit {
            Some(limit) => place < limit as u64,
            None => true,
        }
    }
}

impl PointRule for Decimation {
    ghost use Rattle.stage_meanings.specs.Rules.{decimation};

    ghost rule = { λ r. decimation r.step r.offset r.limit };

    fn judge(&self, place: u64, _p: &mut Point) -> Result<bool, Reason> {
        Ok(self.takes(place))
    }
}

/// Whether return r of the n of a pulse is in one of these groups.
fn is_grouped(groups: &Groups, n: u8, r: u8) -> bool
    ensures { result ≡ is_grouped groups.now n r }
{
    if n <= 1 {
        return groups.only && n == 1;
    }
    (groups.first && r == 1) || (groups.last && r == n) || (groups.intermediate && 1 < r && r < n)
}

impl PointTest for Groups {
    ghost test = { λ groups p. is_grouped groups p.number_of_returns p.return_number };

    fn holds(&self, p: &Point) -> bool {
        is_grouped(self, p.number_of_returns, p.return_number)
    }
}

/// The returns of these groups go on.
impl PointRule for Groups {
    ghost use Rattle.stage_meanings.specs.Rules.{returns};

    ghost rule = { λ groups. returns groups };

    fn judge(&self, _place: u64, p: &mut Point) -> Result<bool, Reason> {
        Ok(self.holds(p))
    }

    fn mask(&self, points: &[Point]) -> Option<u64> {
        Some(mask_of(self, points))
    }
}

impl PointTest for Limits {
    ghost use Rattle.geo_tests.specs.Limits.{in_limits};

    ghost test = { λ limits p. in_limits p limits };

    fn holds(&self, p: &Point) -> bool {
        self.hold(p)
    }
}

/// The points within limits go on.
impl PointRule for Limits {
    ghost use Rattle.stage_meanings.specs.Rules.{range};

    ghost rule = { λ limits. range limits };

    fn judge(&self, _place: u64, p: &mut Point) -> Result<bool, Reason> {
        Ok(self.holds(p))
    }

    fn mask(&self, points: &[Point]) -> Option<u64> {
        match self.alone() {
            Some(limit) => Some(mask_of_limit(&limit, points)),
            None => Some(mask_of(self, points)),
        }
    }
}

/// The points in a shape go on, or those outside.
#[derive(Drop)]
pub struct Crop {
    /// The shape.
    pub shape: Shape,

    /// Whether the points outside go on.
    pub outside: bool,
}

impl PointRule for Crop {
    ghost use Rattle.stage_meanings.specs.Rules.{crop};

    ghost rule = { λ c. crop c.shape c.outside };

    fn judge(&self, _place: u64, p: &mut Point) -> Result<bool, Reason> {
        Ok(is_kept(self.outside, self.shape.holds(p)))
    }
}

/// Whether a point goes on that is inside or not.
fn is_kept(outside: bool, inside: bool) -> bool
    ensures { result ≡ different outside inside }
{
    outside != inside
}

/// The points for which a condition holds go on.
#[derive(Drop)]
pub struct Condition(pub Bound);

impl PointRule for Condition {
    ghost use Rattle.stage_meanings.specs.Rules.{expression};

    ghost rule = { λ r. expression r.0 };

    fn judge(&self, _place: u64, p: &mut Point) -> Result<bool, Reason> {
        Ok(holds(&self.0, p)?)
    }
}

/// Whether the point passes a `where`; where there is none, each does. It is refused exactly where the `where` has no value for it.
pub fn passes(only: &Option<Bound>, p: &Point) -> Result<bool, Reason>
    ensures { result ≡ passes only.now p.now }
{
    match only {
        None => Ok(true),
        Some(condition) => Ok(holds(condition, p)?),
    }
}

/// Sets a dimension, given in nanounits, or says that its range doesn't hold the value.
fn put(p: &mut Point, dim: Dim, nano: i128) -> Result<(), Reason>
    ensures ok { OnOk result (put dim nano p.old ≡ Ok p.new) }
    ensures refused { IfErr result (λ r. put dim nano p.old ≡ Err r) }
{
    match p.set(dim, nano) {
        Ok(()) => Ok(()),
        Err(_) => Err(Reason::OutOfRange(dim)),
    }
}

/// Makes an assignment, or says why it can't be made: its `where` or its value has no value, or the range of its target doesn't
/// hold the value.
fn assign(part: &Assignment, p: &mut Point) -> Result<(), Reason>
    ensures ok { OnOk result (assigned part.now p.old ≡ Ok p.new) }
    ensures refused { IfErr result (λ r. assigned part.now p.old ≡ Err r) }
{
    if !passes(&part.only, p)? {
        return Ok(());
    }
    let nano = value(&part.value, p)?;
    put(p, part.target, nano)
}

impl PointRule for Assignments {
    ghost use Rattle.stage_meanings.specs.Rules.{assign};

    ghost rule = { λ parts. assign parts };

    fn judge(&self, _place: u64, p: &mut Point) -> Result<bool, Reason> {
        for part in self.as_slice() {
            assign(part, p)?;
        }
        Ok(true)
    }
}
