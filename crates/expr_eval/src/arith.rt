//! Sums, products and quotients of values in nanounits.

ghost use Rattle.std.specs.Prelude.{◌≡◌, ◌≤◌, ◌^◌, ◌*ℤ◌, IfOk, IfErr, OnErr, unsigned_abs, pos, neg_ℤ, ◌≢◌};
ghost use Rattle.expr_eval.specs.Values.{within_limit, product, quotient, rounded_quotient, computed};

use crate::nanos::rounded;
use exact_numbers::half_away;
use expr_lang::BinaryOp;

/// Why an expression has no value at a point.
#[derive(Clone, Copy, Debug, PartialEq, Eq, Drop)]
pub enum ArithFault {
    /// A divisor is 0.
    DivideByZero,
    /// A result is above 10^18 in size, which is 10^27 nanounits.
    ArithOverflow,
}

/// The largest size of a result, in nanounits.
const LIMIT: u128 = 1_000_000_000_000_000_000_000_000_000;

/// One unit in nanounits.
const NANO: i128 = 1_000_000_000;

/// A result, where it is within the limit.
pub fn limited(v: i128) -> Result<i128, ArithFault>
    ensures value { result ≡ within_limit v }
    ensures small { IfOk result (λ r. unsigned_abs r ≤ 10 ^ 27) }
{
    if v.unsigned_abs() > LIMIT {
        return Err(ArithFault::ArithOverflow);
    }
    Ok(v)
}

/// The exact product, in 10^-18. Operands of 64 bits need no test.
fn exact_product(x: i128, y: i128) -> Result<i128, ArithFault>
    ensures ok { IfOk result (λ exact. exact ≡ x *ℤ y) }
    ensures large { OnErr result (2 ^ 127 ≤ unsigned_abs (x *ℤ y)) }
    ensures fault { IfErr result (λ fault. fault ≡ ArithFault.ArithOverflow) }
{
    match (i64::try_from(x), i64::try_from(y)) {
        (Ok(x), Ok(y)) => Ok(x as i128 * y as i128),
        _ => x.checked_mul(y).ok_or(ArithFault::ArithOverflow),
    }
}

/// A product, rounded half away from zero.
pub fn multiply(x: i128, y: i128) -> Result<i128, ArithFault>
    ensures value { result ≡ product x y }
    ensures small { IfOk result (λ r. unsigned_abs r ≤ 10 ^ 27) }
{
    limited(rounded(exact_product(x, y)?))
}

fn negated(x: i128) -> i128
    requires { unsigned_abs x ≤ 10 ^ 27 }
    ensures value { result ≡ neg_ℤ x }
    ensures size { unsigned_abs result ≤ 10 ^ 27 }
{
    -x
}

/// A quotient by what isn't 0, before it is limited.
#[tactic(auto, using(crate::proofs::Quotients::below_zero, crate::proofs::Quotients::above_zero))]
fn exact_quotient(x: i128, y: i128) -> i128
    requires size { unsigned_abs x ≤ 10 ^ 27 }
    requires den { unsigned_abs y ≤ 10 ^ 27 }
    requires some { y ≢ pos 0 }
    ensures { result ≡ rounded_quotient x y }
{
    if y < 0 {
        half_away(negated(x) * NANO, negated(y))
    } else {
        half_away(x * NANO, y)
    }
}

/// A quotient, rounded half away from zero.
pub fn divide(x: i128, y: i128) -> Result<i128, ArithFault>
    requires size { unsigned_abs x ≤ 10 ^ 27 }
    requires den { unsigned_abs y ≤ 10 ^ 27 }
    ensures value { result ≡ quotient x y }
    ensures small { IfOk result (λ r. unsigned_abs r ≤ 10 ^ 27) }
{
    if y == 0 {
        return Err(ArithFault::DivideByZero);
    }
    limited(exact_quotient(x, y))
}

/// What an operation makes of two values. One that isn't of arithmetic makes 0.
pub fn computed(op: BinaryOp, x: i128, y: i128) -> Result<i128, ArithFault>
    requires left { unsigned_abs x ≤ 10 ^ 27 }
    requires right { unsigned_abs y ≤ 10 ^ 27 }
    ensures value { result ≡ computed op x y }
    ensures small { IfOk result (λ r. unsigned_abs r ≤ 10 ^ 27) }
{
    match op {
        BinaryOp::Plus => limited(x + y),
        BinaryOp::Minus => limited(x - y),
        BinaryOp::Times => multiply(x, y),
        BinaryOp::Over => divide(x, y),
        _ => Ok(0),
    }
}
