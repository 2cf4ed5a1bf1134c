//! Edges of a ring.

ghost use Rattle.std.specs.Prelude.{◌≡◌, ◌*ℤ◌, ◌-ℤ◌, ◌≤ℤ◌, ◌∷◌, [], int_lt, pos, ◌&&◌};
ghost use Rattle.std.specs.Ordering.{int_eq};
ghost use Rattle.limits_text.specs.Held.{IsHeld, AreHeld};
ghost use Rattle.geo_tests.specs.Tests.{is_between, on_edge, crosses, turn};

/// What an edge says of a point.
#[derive(Clone, Copy)]
pub(crate) struct Side {
    /// Whether the point is on the edge, its ends included.
    pub(crate) on: bool,
    /// Whether the edge crosses the ray from the point to greater X.
    pub(crate) crosses: bool,
}

/// From `b` to `a`.
fn distance(a: i64, b: i64) -> i64
    requires a { IsHeld a }
    requires b { IsHeld b }
    ensures { result ≡ a -ℤ b }
{
    a - b
}

fn product(a: i64, b: i64) -> i128
    ensures { result ≡ a *ℤ b }
{
    a as i128 * b as i128
}

fn is_same(a: i128, b: i128) -> bool
    ensures { result ≡ int_eq a b }
{
    a == b
}

fn is_less(a: i128, b: i128) -> bool
    ensures { result ≡ int_lt a b }
{
    a < b
}

/// Whether a number is one of these two, or between them.
fn is_between(a: i64, b: i64, v: i64) -> bool
    ensures { result ≡ is_between a b v }
{
    (a <= v && v <= b) || (b <= v && v <= a)
}

/// What an edge says of a point at a height between those of its ends.
fn straddling(low: (i64, i64), high: (i64, i64), p: (i64, i64)) -> Side
    requires held { AreHeld (low ∷ high ∷ p ∷ []) }
    requires above { low.1 ≤ℤ p.1 }
    requires below { p.1 ≤ℤ high.1 }
    ensures on { result.on ≡ on_edge low high p }
    ensures crosses { result.crosses ≡ crosses low high p }
{
    let left = product(distance(high.0, low.0), distance(p.1, low.1));
    let right = product(distance(high.1, low.1), distance(p.0, low.0));
    Side {
        on: is_same(left, right) & is_between(low.0, high.0, p.0),
        crosses: (p.1 < high.1) & is_less(right, left),
    }
}

/// What an edge says of a point. An edge that is above or below it takes no product.
pub(crate) fn side_of(a: (i64, i64), b: (i64, i64), p: (i64, i64)) -> Side
    requires { AreHeld (a ∷ b ∷ p ∷ []) }
    ensures on { result.on ≡ on_edge a b p }
    ensures crosses { result.crosses ≡ crosses a b p }
{
    if a.1 <= p.1 && p.1 <= b.1 {
        straddling(a, b, p)
    } else if b.1 <= p.1 && p.1 <= a.1 {
        straddling(b, a, p)
    } else {
        Side {
            on: false,
            crosses: false,
        }
    }
}
