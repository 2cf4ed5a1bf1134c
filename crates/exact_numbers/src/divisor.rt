//! Quotients by one number, each found by a product.

ghost use Rattle.std.specs.Prelude.{◌≡◌, ◌+◌, ◌*◌, ◌/◌, ◌%◌, ◌^◌, ◌<◌, ◌≤◌, unsigned_abs};
ghost use Rattle.exact_numbers.specs.Rounding.{half_away};

/// A number by which many are divided, from 1 to 2^63 - 1, with its reciprocal in parts of 2^64, rounded down.
#[derive(Clone, Copy, Debug, PartialEq, Eq)]
pub struct Divisor {
    by: u64,
    reciprocal: u64,
    ghost low: { 1 ≤ by },
    ghost high: { by < 2 ^ 63 },
    ghost below: { reciprocal * by ≤ 2 ^ 64 },
    ghost near: { 2 ^ 64 ≤ reciprocal * by + by },
}

/// The high half of a product.
#[inline(always)]
fn high_half(a: u64, b: u64) -> u64
    ensures { result ≡ a * b / 2 ^ 64 }
{
    (a as u128 * b as u128 / (1 << 64)) as u64
}

impl Divisor {
    /// For division by this number, which is from 1 to 2^63 - 1.
    #[inline(always)]
    pub const fn new(by: u64) -> Divisor
        requires low { 1 ≤ by }
        requires high { by < 2 ^ 63 }
        ensures { result.by ≡ by }
    {
        Divisor {
            by,
            reciprocal: u64::MAX / by,
        }
    }

    /// The number by which it divides.
    #[inline(always)]
    pub fn by(&self) -> u64
        ensures { result ≡ self.now.by }
    {
        self.by
    }

    /// The quotient, rounded down, and the rest.
    #[inline(always)]
    pub fn divide(&self, n: u64) -> (u64, u64)
        ensures quotient { result.0 ≡ n / self.now.by }
        ensures rest { result.1 ≡ n % self.now.by }
    {
        // It is the quotient, or one less.
        let guess = high_half(n, self.reciprocal);
        let rest = n - guess * self.by;
        if rest < self.by {
            (guess, rest)
        } else {
            (guess + 1, rest - self.by)
        }
    }

    /// The quotient, rounded down.
    #[inline(always)]
    pub fn quotient(&self, n: u64) -> u64
        ensures { result ≡ n / self.now.by }
    {
        self.divide(n).0
    }

    /// The quotient of a number of at most 5 * 10^18 in size, rounded half away from zero.
    #[inline(always)]
    pub fn nearest(&self, n: i64) -> i64
        requires { unsigned_abs n ≤ 5 * 10 ^ 18 }
        ensures { result ≡ half_away n self.now.by }
    {
        let size = self.quotient(n.unsigned_abs() + self.by / 2);
        if n < 0 { -(size as i64) } else { size as i64 }
    }

    /// The quotient of a wide number, rounded down, and the rest. This one is at most 2^32.
    pub fn divide_wide(&self, n: u128) -> (u128, u64)
        requires { self.now.by ≤ 2 ^ 32 }
        ensures quotient { result.0 ≡ n / self.now.by }
        ensures rest { result.1 ≡ n % self.now.by }
    {
        let (high, rest) = self.divide((n >> 64) as u64);
        let (middle, rest) = self.divide((rest << 32) + ((n >> 32) % (1 << 32)) as u64);
        let (low, rest) = self.divide((rest << 32) + (n % (1 << 32)) as u64);
        (
            ((high as u128) << 64) + ((middle as u128) << 32) + low as u128,
            rest,
        )
    }
}
