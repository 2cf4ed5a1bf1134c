//! How filters judge the points of a chunk.

ghost use Rattle.std.specs.Prelude.{◌≡◌, ◌≤◌, ◌<◌, ◌+◌, ◌++◌, if◌then◌else◌, [], ◌∷◌, List, Some, None, Ok, Err, OnOk, OnErr, IfOk, IfErr, IfSome, take, drop, length};
ghost use Rattle.std.specs.List.{cons_option};
ghost use Rattle.cloud_points.specs.declared.point.Point.{Point};
ghost use Rattle.stage_meanings.specs.Conditions.{passes};
ghost use Rattle.stage_meanings.specs.Filters.{keeps, fault_at};
ghost use Rattle.stage_meanings.specs.ByRule.{judged, steps_of, spot_past, IsWithin};
ghost use Rattle.stage_meanings.specs.Steps.{given, reached, stopped};
ghost use Rattle.stream_filters.specs.Masks.{IsMaskOf};

use crate::PointRule;
use crate::masks::keep_marked;
use crate::rules::passes;
use cloud_points::{Point, StageFault};
use expr_eval::Bound;
use stage_meanings::{Reason, Spot};

/// Whether the point goes on; one that doesn't pass stays as it is.
fn judge_passed<R: PointRule>(
    rule: &R,
    passed: bool,
    place: u64,
    p: &mut Point,
) -> Result<bool, Reason>
    ensures ok { IfOk result (λ goes. (if passed then judged (R.rule rule.now) place p.old else Ok (Some p.old))
        ≡ Ok (keeps goes p.new)) }
    ensures refused { IfErr result (λ r. (if passed then judged (R.rule rule.now) place p.old else Ok (Some p.old))
        ≡ Err r) }
{
    if passed {
        rule.judge(place, p)
    } else {
        Ok(true)
    }
}

/// The fault of the point with this number.
pub fn fault_at(number: u64, reason: Reason) -> StageFault
    ensures { result ≡ fault_at number reason }
{
    StageFault::Point(reason.at(number))
}

/// Whether the next point goes on, as what it then is. Behind a fault the filter stands where it stood.
fn judge_point<R: PointRule>(
    rule: &R,
    only: &Option<Bound>,
    spot: &mut Spot,
    p: &mut Point,
) -> Result<bool, StageFault>
    ensures sound { IfOk result (λ goes. (steps_of (R.rule rule.now) (passes only.now)).fault spot.old p.old
        ≡ None) }
    ensures becomes { IfOk result (λ goes. (steps_of (R.rule rule.now) (passes only.now)).becomes spot.old p.old
        ≡ keeps goes p.new) }
    ensures next { OnOk result (spot.new ≡ (steps_of (R.rule rule.now) (passes only.now)).next spot.old p.old) }
    ensures fault { IfErr result (λ f. (steps_of (R.rule rule.now) (passes only.now)).fault spot.old p.old
        ≡ Some f) }
    ensures stays { OnErr result (spot.new ≡ spot.old) }
{
    match passes(only, p) {
        Err(reason) => Err(fault_at(spot.number, reason)),
        Ok(passed) => match judge_passed(rule, passed, spot.place, p) {
            Err(reason) => Err(fault_at(spot.number, reason)),
            Ok(goes) => {
                spot.pass(passed);
                Ok(goes)
            }
        },
    }
}

/// Moves the point down behind those that are kept, if it goes on, and answers how many are kept then.
pub fn move_down(points: &mut [Point], kept: usize, at: usize, goes: bool) -> usize
    requires below { kept ≤ at }
    requires there { at < length points.old }
    ensures kept { (p : Point) → (rest : List Point) → drop at points.old ≡ p ∷ rest → take result points.new
        ≡ take kept points.old ++ cons_option (keeps goes p) [] }
    ensures rest { drop (at + 1) points.new ≡ drop (at + 1) points.old }
    ensures same { length points.new ≡ length points.old }
    ensures few { result ≤ at + 1 }
{
    if !goes {
        return kept;
    }
    if kept < at {
        points[kept] = points[at];
    }
    kept + 1
}

/// Judges the points one after the other, up to the first fault. Those that go on come to stand first; answered are how many
/// they are, and the fault.
fn judge_each<R: PointRule>(
    rule: &R,
    only: &Option<Bound>,
    spot: &mut Spot,
    points: &mut [Point],
) -> (usize, Option<StageFault>)
    ensures gives { take result.0 points.new
        ≡ given (steps_of (R.rule rule.now) (passes only.now)) spot.old points.old }
    ensures reaches { spot.new ≡ reached (steps_of (R.rule rule.now) (passes only.now)) spot.old points.old }
    ensures stops { result.1 ≡ stopped (steps_of (R.rule rule.now) (passes only.now)) spot.old points.old }
{
    let mut kept = 0;
    for at in 0..points.len() {
        match judge_point(rule, only, spot, &mut points[at]) {
            Ok(goes) => kept = move_down(points, kept, at, goes),
            Err(fault) => return (kept, Some(fault)),
        }
    }
    (kept, None)
}

/// The mask of the points that go on, where all pass and the rule only tests each by itself.
fn mask_by<R: PointRule>(rule: &R, only: &Option<Bound>, points: &[Point]) -> Option<u64>
    requires { length points.now ≤ 64 }
    ensures all_pass { IfSome result (λ mask. only.now ≡ None) }
    ensures mask { IfSome result (λ mask. IsMaskOf (R.rule rule.now) mask points.now) }
{
    match only {
        Some(_) => None,
        None => rule.mask(points),
    }
}

/// Goes on behind so many points, which all pass.
fn pass_all(spot: &mut Spot, points: usize)
    ensures past { spot.new ≡ spot_past points points spot.old }
    ensures within { IsWithin spot.old }
{
    spot.number = spot.number.saturating_add(points as u64);
    spot.place = spot.place.saturating_add(points as u64);
}

/// Judges the points, at most 64, up to the first fault: at once where they need no more than a test, and else one after the other.
/// Those that go on come to stand first; answered are how many they are, and the fault.
pub(crate) fn judge_chunk<R: PointRule>(
    rule: &R,
    only: &Option<Bound>,
    spot: &mut Spot,
    points: &mut [Point],
) -> (usize, Option<StageFault>)
    requires { length points.old ≤ 64 }
    ensures gives { take result.0 points.new
        ≡ given (steps_of (R.rule rule.now) (passes only.now)) spot.old points.old }
    ensures reaches { spot.new ≡ reached (steps_of (R.rule rule.now) (passes only.now)) spot.old points.old }
    ensures stops { result.1 ≡ stopped (steps_of (R.rule rule.now) (passes only.now)) spot.old points.old }
{
    match mask_by(rule, only, points) {
        Some(mask) => {
            pass_all(spot, points.len());
            (keep_marked(points, mask), None)
        }
        None => judge_each(rule, only, spot, points),
    }
}
