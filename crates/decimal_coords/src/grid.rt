ghost use Rattle.std.specs.Prelude.{◌≡◌, ◌+◌, ◌*◌, ◌^◌, ◌<◌, ◌≤◌, ℤ, pos, ◌+ℤ◌, ◌*ℤ◌, ◌<ℤ◌, ◌≤ℤ◌, unsigned_abs, IfSome, IfNone, FitsSigned};
ghost use Rattle.std.specs.Int.{w32};
ghost use Rattle.std.specs.Result.{OkIff};
ghost use Rattle.decimal_coords.specs.Grid.{nearest_step};
ghost use Rattle.exact_numbers.specs.Rounding.{half_away};

use thiserror::Error;

/// The step of a grid in nanounits, from 1 to 10^9.
#[derive(Clone, Copy, Debug, PartialEq, Eq)]
pub struct Scale {
    nano: i64,
    ghost low: { pos 1 ≤ℤ nano },
    ghost high: { nano ≤ℤ pos 1_000_000_000 },
}

/// The rounded number leaves i32.
#[derive(Clone, Copy, Debug, PartialEq, Eq, Error)]
#[error("the coordinate leaves the range of the grid")]
pub struct NotHeld;

impl Scale {
    /// The grid of this many nanounits a step; `None` exactly outside 1 to 10^9.
    pub fn new(nano: i64) -> Option<Scale>
        ensures some { IfSome result (λ s. (s.nano ≡ nano) × (pos 1 ≤ℤ nano) × (nano ≤ℤ pos 1_000_000_000)) }
        ensures none { IfNone result ((pos 1 ≤ℤ nano) → pos 1_000_000_000 <ℤ nano) }
    {
        if 1 <= nano && nano <= 1_000_000_000 {
            Some(Scale { nano })
        } else {
            None
        }
    }

    /// The step in nanounits.
    pub fn nano(&self) -> i64
        ensures value { result ≡ self.now.nano }
        ensures low { pos 1 ≤ℤ result }
        ensures high { result ≤ℤ pos 1_000_000_000 }
    {
        self.nano
    }
}

/// The value of a raw coordinate in nanounits: `raw` steps from `off`, which is at most 10^18 in size.
pub fn real(raw: i32, scale: Scale, off: i64) -> i64
    requires { unsigned_abs off ≤ 10 ^ 18 }
    ensures { result ≡ raw *ℤ scale.nano +ℤ off }
{
    raw as i64 * scale.nano() + off
}

/// The raw coordinate of a value in nanounits: the quotient of its distance from `off` and the step,
/// rounded half away from zero. It is refused exactly where that number leaves i32.
///
/// `nano` is at most 4 * 10^18 in size, and `off` is at most 10^18 in size.
pub fn raw(nano: i64, scale: Scale, off: i64) -> Result<i32, NotHeld>
    requires nano { unsigned_abs nano ≤ 4 * 10 ^ 18 }
    requires off { unsigned_abs off ≤ 10 ^ 18 }
    ensures { OkIff result (FitsSigned w32 (nearest_step nano scale.nano off))
        (nearest_step nano scale.nano off) }
{
    match i32::try_from(steps(nano - off, scale.nano() as u64)) {
        Ok(raw) => Ok(raw),
        Err(_) => Err(NotHeld),
    }
}

/// The quotient rounded half away from zero, in 64 bits.
#[inline]
fn steps(distance: i64, unit: u64) -> i64
    requires distance { unsigned_abs distance ≤ 5 * 10 ^ 18 }
    requires low { 1 ≤ unit }
    requires high { unit ≤ 10 ^ 9 }
    ensures value { result ≡ half_away distance unit }
{
    let size = (distance.unsigned_abs() + unit / 2) / unit;
    if distance < 0 {
        -(size as i64)
    } else {
        size as i64
    }
}
