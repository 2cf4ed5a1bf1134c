//! How many points are generated.

ghost use Rattle.std.specs.Prelude.{◌≤◌};

/// How many points are generated: 0 to 10,000,000.
#[derive(Clone, Copy)]
pub(crate) struct PointCount {
    pub(crate) points: u32,
    pub ghost few: { points ≤ 10000000 },
}
