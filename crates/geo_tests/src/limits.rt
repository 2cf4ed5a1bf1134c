//! Limits of dimensions.

ghost use Rattle.std.specs.Prelude.{◌≡◌, ◌||◌, IfSome, is_some, length, true};
ghost use Rattle.std.specs.List.{list_all};
ghost use Rattle.cloud_points.specs.Layouts.{holds};
ghost use Rattle.cloud_points.specs.declared.dims.Dim.{Dim as Dimension};
ghost use Rattle.cloud_points.specs.Points.{get};
ghost use Rattle.cloud_points.specs.declared.point.Point.{Point as PointSeen};
ghost use Rattle.geo_tests.specs.Limits.{is_within, one_holds, in_limits};
ghost use Rattle.geo_tests.specs.Tests.{in_interval};

use crate::intervals::in_interval;
use cloud_points::{Dim, Layout, Point};
use limits_text::Interval;
use std::marker::Model;

/// An interval for the values of a dimension.
#[derive(Clone, Copy, Debug, PartialEq, Eq)]
pub struct Limit {
    /// The dimension.
    pub dim: Dim,

    /// The values.
    pub interval: Interval,
}

impl Limit {
    /// Whether the value of its dimension is one of these.
    fn holds(&self, p: &Point) -> bool
        ensures { result ≡ in_interval (get p.now self.now.dim) self.now.interval }
    {
        in_interval(p.get(self.dim), &self.interval)
    }
}

/// Limits, which contracts see as their list.
#[derive(Drop)]
pub struct Limits {
    items: Vec<Limit>,
}

impl Model for Limits {
    ghost use Rattle.std.specs.Prelude.{List};
    ghost use Rattle.geo_tests.specs.declared.limits.Limit.{Limit as LimitSeen};

    ghost Value = { List LimitSeen };

    ghost view = { λ l. l.items.items };
}

/// Puts the dimension of a limit into a set, where the limit holds at a point.
fn add_within(within: &mut Layout, limit: &Limit, p: &Point)
    ensures { (dim : Dimension) → holds within.new dim
        ≡ (is_within p.now dim limit.now || holds within.old dim) }
{
    if limit.holds(p) {
        within.add(limit.dim);
    }
}

/// The dimensions of which a limit holds at a point.
fn dims_within(limits: &[Limit], p: &Point) -> Layout
    ensures { (dim : Dimension) → holds result dim ≡ one_holds limits.now p.now dim }
{
    let mut within = Layout::none();
    for limit in limits {
        add_within(&mut within, limit, p);
    }
    within
}

/// Whether the dimension of each limit is in a set.
fn has_all(limits: &[Limit], dims: &Layout) -> bool
    ensures { result ≡ list_all (λ a. holds dims.now a.dim) limits.now }
{
    for limit in limits {
        if !dims.has(limit.dim) {
            return false;
        }
    }
    true
}

impl Limits {
    /// These limits. It takes no memory.
    pub fn new(items: Vec<Limit>) -> Self
        ensures { result ≡ items.items }
    {
        Limits { items }
    }

    /// These limits, in their order.
    pub fn as_slice(&self) -> &[Limit]
        ensures { result.now ≡ self.now }
    {
        self.items.as_slice()
    }

    /// The limit of which a point is to be within, where there is no other.
    pub fn alone(&self) -> Option<Limit>
        ensures limit { IfSome result (λ limit. (p : PointSeen)
            → in_limits p self.now ≡ in_interval (get p limit.dim) limit.interval) }
        ensures found { length self.now ≡ 1 → is_some result ≡ true }
    {
        match self.as_slice() {
            [limit] => Some(*limit),
            _ => None,
        }
    }

    /// Whether a point is within them: of each dimension that is named one of its limits holds.
    pub fn hold(&self, p: &Point) -> bool
        ensures { result ≡ in_limits p.now self.now }
    {
        match self.as_slice() {
            // Most ranges name one, which needs no set.
            [limit] => limit.holds(p),
            limits => has_all(limits, &dims_within(limits, p)),
        }
    }
}
