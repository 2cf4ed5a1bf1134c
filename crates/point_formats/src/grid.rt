//! The grid that the raw coordinates of a file count on.

ghost use Rattle.std.specs.Prelude.{◌≡◌, ◌*◌, ◌^◌, ◌<◌, ◌≤◌, pos, ◌≤ℤ◌, unsigned_abs, FitsSigned};
ghost use Rattle.std.specs.Int.{w32};
ghost use Rattle.std.specs.Result.{OkIff};
ghost use Rattle.decimal_coords.specs.Grid.{nearest_step};
ghost use Rattle.exact_numbers.specs.Rounding.{half_away};
ghost use Rattle.point_formats.specs.Grids.{coordinate, scale_on, offset_on, grid_of, HasSteps, IsNear, IsNearOffset, IsStep};

use decimal_coords::{NotHeld, Scale, real};
use exact_numbers::Divisor;
use las_header::Header;
use std::marker::Model;

/// The greatest size of a coordinate in nanounits that some grid may hold.
const MOST_NANO: u64 = 4_000_000_000_000_000_000;

/// The grid of the coordinates X, Y and Z, in this order: raw number 0 is at the offset, and the next ones are the scale
/// apart.
#[derive(Clone, Copy, Debug, PartialEq, Eq)]
pub struct Grid {
    /// The steps of the axes.
    pub scale: [Scale; 3],
    /// The offsets of the axes in nanounits.
    pub offset: [i64; 3],
}

impl Grid {
    /// The grid of a file with this header.
    pub fn of(header: &Header) -> Grid
        ensures { result ≡ grid_of header.now }
    {
        Grid {
            scale: header.scale,
            offset: header.offset,
        }
    }
}

/// The step of an axis is a nanounit at least. It does nothing: its contract is what callers want.
fn known_step(grid: &Grid, axis: usize)
    requires { axis < 3 }
    ensures { pos 1 ≤ℤ scale_on grid.now axis }
{
    let _step = grid.scale[axis].nano();
}

/// The steps of the axes are nanounits at least. It does nothing: its contract is what callers want.
pub(crate) fn known_steps(grid: &Grid)
    ensures { HasSteps grid.now }
{
    known_step(grid, 0);
    known_step(grid, 1);
    known_step(grid, 2);
}

/// The coordinate of a raw number on an axis, in nanounits.
pub(crate) fn coordinate(grid: &Grid, axis: usize, raw: i32) -> i64
    requires axis { axis < 3 }
    requires near { IsNear grid.now }
    ensures { result ≡ coordinate grid.now axis raw }
{
    real(raw, grid.scale[axis], grid.offset[axis])
}

/// The step of an axis, by which distances are divided.
fn divisor_on(grid: &Grid, axis: usize) -> Divisor
    requires { axis < 3 }
    ensures { IsStep result.by (scale_on grid.now axis) }
{
    Divisor::new(grid.scale[axis].nano() as u64)
}

/// A grid made ready for many points, which contracts see as the grid: a quotient by a step is found by a product.
#[derive(Drop)]
pub struct ReadyGrid {
    grid: Grid,
    x: Divisor,
    y: Divisor,
    z: Divisor,
}

impl Model for ReadyGrid {
    ghost use Rattle.point_formats.specs.Grids.{IsStep, scale_on};
    ghost use Rattle.point_formats.specs.declared.grid.Grid.{Grid as GridSeen};

    ghost Value = { GridSeen };

    ghost view = { λ g. g.grid };

    ghost invariant = { λ g. IsStep g.x.by (scale_on g.grid 0) × IsStep g.y.by (scale_on g.grid 1)
        × IsStep g.z.by (scale_on g.grid 2) };
}

impl ReadyGrid {
    /// This grid, made ready.
    pub fn of(grid: &Grid) -> Self
        ensures { result ≡ grid.now }
    {
        ReadyGrid {
            grid: *grid,
            x: divisor_on(grid, 0),
            y: divisor_on(grid, 1),
            z: divisor_on(grid, 2),
        }
    }

    /// The steps of the axes are nanounits at least. It does nothing: its contract is what callers want.
    pub(crate) fn known_steps(&self)
        ensures { HasSteps self.now }
    {
        known_steps(&self.grid);
    }

    /// The step of an axis, made ready.
    #[inline(always)]
    fn step(&self, axis: usize) -> Divisor
        requires { axis < 3 }
        ensures { IsStep result.by (scale_on self.now axis) }
    {
        match axis {
            0 => self.x,
            1 => self.y,
            _ => self.z,
        }
    }

    /// The raw number on an axis of a coordinate in nanounits; it is refused exactly where it leaves 32 bits.
    #[inline(always)]
    pub(crate) fn raw_on(&self, axis: usize, nano: i64) -> Result<i32, NotHeld>
        requires axis { axis < 3 }
        requires near { IsNear self.now }
        ensures { let step = nearest_step nano (scale_on self.now axis) (offset_on self.now axis) in
            OkIff result (FitsSigned w32 step) step }
    {
        raw_number(nano, &self.step(axis), self.grid.offset[axis])
    }
}

/// The number of steps nearest to a distance; it is refused exactly where it leaves 32 bits.
#[inline(always)]
fn steps(distance: i64, step: &Divisor) -> Result<i32, NotHeld>
    requires { unsigned_abs distance ≤ 5 * 10 ^ 18 }
    ensures { OkIff result (FitsSigned w32 (half_away distance step.now.by)) (half_away distance step.now.by) }
{
    match i32::try_from(step.nearest(distance)) {
        Ok(number) => Ok(number),
        Err(_) => Err(NotHeld),
    }
}

/// The raw number of a coordinate in nanounits, of any size; it is refused exactly where it leaves 32 bits.
#[inline(always)]
fn raw_number(nano: i64, step: &Divisor, off: i64) -> Result<i32, NotHeld>
    requires step { step.now.by ≤ 10 ^ 9 }
    requires offset { IsNearOffset off }
    ensures { OkIff result (FitsSigned w32 (nearest_step nano (pos step.now.by) off))
        (nearest_step nano (pos step.now.by) off) }
{
    if nano.unsigned_abs() > MOST_NANO {
        return Err(NotHeld);
    }
    steps(nano - off, step)
}
