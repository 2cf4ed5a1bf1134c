//! Intervals.

ghost use Rattle.std.specs.Prelude.{◌≡◌, ◌^◌, ◌≤◌, ℤ, int_le, unsigned_abs};
ghost use Rattle.geo_tests.specs.Tests.{in_interval, is_above, is_below};

use limits_text::Interval;
use std::marker::Model;

/// The greatest size of a number that is held against ends.
const MOST: i128 = 100_000_000_000_000_000_000;

fn is_above(low: Option<i64>, inside: bool, v: i128) -> bool
    ensures { result ≡ is_above low inside v }
{
    match low {
        None => true,
        Some(low) => if inside {
            low as i128 <= v
        } else {
            (low as i128) < v
        },
    }
}

fn is_below(high: Option<i64>, inside: bool, v: i128) -> bool
    ensures { result ≡ is_below high inside v }
{
    match high {
        None => true,
        Some(high) => if inside {
            v <= high as i128
        } else {
            v < high as i128
        },
    }
}

/// Whether a value of nanounits is in an interval; any value may be asked.
pub fn in_interval(v: i128, i: &Interval) -> bool
    ensures { result ≡ in_interval v i.now }
{
    let inside = is_above(i.low, i.low_in, v) && is_below(i.high, i.high_in, v);
    if i.negated { !inside } else { inside }
}

/// The least number that is above a low end.
fn least_above(low: Option<i64>, inside: bool) -> i128
    ensures { (v : ℤ) → unsigned_abs v ≤ 10 ^ 20 → int_le result v ≡ is_above low inside v }
{
    match low {
        None => -MOST,
        Some(low) => if inside { low as i128 } else { low as i128 + 1 },
    }
}

/// The greatest number that is below a high end.
fn greatest_below(high: Option<i64>, inside: bool) -> i128
    ensures { (v : ℤ) → unsigned_abs v ≤ 10 ^ 20 → int_le v result ≡ is_below high inside v }
{
    match high {
        None => MOST,
        Some(high) => if inside {
            high as i128
        } else {
            high as i128 - 1
        },
    }
}

/// An interval with the least and the greatest of its numbers, against which many are held; contracts see it as the interval.
#[derive(Drop)]
pub struct Ends {
    interval: Interval,
    least: i128,
    greatest: i128,
}

impl Model for Ends {
    ghost use Rattle.std.specs.Prelude.{◌≡◌, ◌^◌, ◌≤◌, ℤ, int_le, unsigned_abs};
    ghost use Rattle.geo_tests.specs.Tests.{is_above, is_below};
    ghost use Rattle.limits_text.specs.declared.shapes.Interval.{Interval as IntervalSeen};

    ghost Value = { IntervalSeen };

    ghost view = { λ e. e.interval };

    ghost invariant = { λ e. (v : ℤ) → unsigned_abs v ≤ 10 ^ 20
        → (int_le e.least v ≡ is_above e.interval.low e.interval.low_in v)
        × (int_le v e.greatest ≡ is_below e.interval.high e.interval.high_in v) };
}

impl Ends {
    /// The ends of an interval.
    pub fn of(i: &Interval) -> Self
        ensures { result ≡ i.now }
    {
        Ends {
            interval: *i,
            least: least_above(i.low, i.low_in),
            greatest: greatest_below(i.high, i.high_in),
        }
    }

    /// Whether a value of nanounits is in the interval. It is at most 10^20 in size, as those of points are.
    #[inline(always)]
    pub fn hold(&self, v: i128) -> bool
        requires { unsigned_abs v ≤ 10 ^ 20 }
        ensures { result ≡ in_interval v self.now }
    {
        let inside = (self.least <= v) & (v <= self.greatest);
        if self.interval.negated {
            !inside
        } else {
            inside
        }
    }
}
