ghost use Rattle.std.specs.Prelude.{◌≡◌, ◌/◌, ◌%◌, ◌^◌, ◌<◌, ◌≤◌, replicate};

use exact_numbers::power_of_ten;

/// A text of `count` zeros.
pub fn zeros(count: usize) -> &'static str
    requires { count ≤ 9 }
    ensures { result.now ≡ replicate count 48 }
{
    match count {
        0 => "",
        1 => "0",
        2 => "00",
        3 => "000",
        4 => "0000",
        5 => "00000",
        6 => "000000",
        7 => "0000000",
        8 => "00000000",
        _ => "000000000",
    }
}

/// A quotient and what is left over.
#[derive(Clone, Copy)]
pub struct Parts {
    pub quotient: u128,
    pub rest: u64,
}

/// `n / 10^k`, by divisors that the compiler knows.
#[inline]
pub fn divided(n: u64, k: u32) -> u64
    requires { k ≤ 9 }
    ensures { result ≡ n / 10 ^ k }
{
    match k {
        0 => n,
        1 => n / 10,
        2 => n / 100,
        3 => n / 1_000,
        4 => n / 10_000,
        5 => n / 100_000,
        6 => n / 1_000_000,
        7 => n / 10_000_000,
        8 => n / 100_000_000,
        _ => n / 1_000_000_000,
    }
}

/// `n / 10^k` and `n % 10^k`, in 64 bits where `n` has no more.
#[inline]
pub fn split(n: u128, k: u32) -> Parts
    requires { k ≤ 9 }
    ensures quotient { result.quotient ≡ n / 10 ^ k }
    ensures rest { result.rest ≡ n % 10 ^ k }
{
    let by = power_of_ten(k);
    if let Ok(n) = u64::try_from(n) {
        let quotient = divided(n, k);
        return Parts {
            quotient: quotient as u128,
            rest: n - quotient * by,
        };
    }
    Parts {
        quotient: n / by as u128,
        rest: (n % by as u128) as u64,
    }
}
