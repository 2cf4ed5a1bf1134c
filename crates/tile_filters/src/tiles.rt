//! The filters that part views by squares, and keep the first point of each voxel.

ghost use Rattle.std.specs.Prelude.{◌≡◌, ◌≤ℤ◌, pos, false, [], IfOk};
ghost use Rattle.whole_filters.specs.Whole.{whole_set};
ghost use Rattle.tile_filters.specs.Tiles.{square_of, squares, voxel_of, voxels};

use crate::cells::CellLength;
use cloud_points::Point;
use packed_chunk::PackedRows;
use std::alloc::{AllocError, Global};
use whole_filters::{PointKey, Views, first_of_each, group_by};

/// A square, by its cells.
#[derive(PartialEq, Eq, Hash, Drop)]
pub struct Square {
    x: i128,
    y: i128,
}

/// A voxel, by its cells.
#[derive(PartialEq, Eq, Hash, Drop)]
pub struct Voxel {
    x: i64,
    y: i64,
    z: i64,
}

/// Points are told apart by the squares in which they lie. The squares have a corner at an X and a Y.
#[derive(Clone, Copy)]
struct BySquare {
    length: CellLength,
    x: i64,
    y: i64,
}

impl PointKey for BySquare {
    ghost use Rattle.std.specs.Prelude.{pos};
    ghost use Rattle.tile_filters.specs.Tiles.{square_of};

    type Key = Square;

    ghost key = { λ by. square_of (pos by.length.0.by) by.x by.y };

    #[inline(always)]
    fn key_at(&self, rows: &PackedRows, k: usize) -> Square {
        self.square(&rows.get(k))
    }
}

impl BySquare {
    // The square of a point.
    #[inline(always)]
    fn square(&self, p: &Point) -> Square
        ensures { result ≡ square_of (pos self.now.length.0.by) self.now.x self.now.y p.now }
    {
        Square {
            x: self.length.cell(p.x, self.x),
            y: self.length.cell(p.y, self.y),
        }
    }
}

/// Points are told apart by the voxels in which they lie. The voxels have a corner at 0.
#[derive(Clone, Copy)]
struct ByVoxel(CellLength);

impl PointKey for ByVoxel {
    ghost use Rattle.std.specs.Prelude.{pos};
    ghost use Rattle.tile_filters.specs.Tiles.{voxel_of};

    type Key = Voxel;

    ghost key = { λ by. voxel_of (pos by.0.0.by) };

    #[inline(always)]
    fn key_at(&self, rows: &PackedRows, k: usize) -> Voxel {
        self.voxel(&rows.get(k))
    }
}

impl ByVoxel {
    // The voxel of a point.
    #[inline(always)]
    fn voxel(&self, p: &Point) -> Voxel
        ensures { result ≡ voxel_of (pos self.now.0.0.by) p.now }
    {
        Voxel {
            x: self.0.floor(p.x),
            y: self.0.floor(p.y),
            z: self.0.floor(p.z),
        }
    }
}

/// Parts each view by squares: one view for each pair of cells of X and of Y in which it has points, in the order in which they
/// first appear. A view without points gives no view. Of cut views nothing is left but that they are cut. `length` is that of
/// the squares' sides, and `ox` and `oy` are the X and Y of a corner, all in nanounits.
///
/// It is refused for want of memory alone, and then drops its views.
pub fn splitter(alloc: Global, v: Views, length: i64, ox: i64, oy: i64) -> Result<Views, AllocError>
    requires length { pos 1 ≤ℤ length }
    requires open { v.cut ≡ false → v.open_view ≡ [] }
    ensures { IfOk result (λ made. made ≡ whole_set (squares length ox oy) v) }
{
    let squares = BySquare {
        length: CellLength::new(length),
        x: ox,
        y: oy,
    };
    group_by(alloc, v, &squares)
}

/// Keeps of each view the points that have no earlier point in it in their voxel, that is with the same cells of X, of Y and of
/// Z. `cell` is the voxels' edge in nanounits, and they have a corner at 0. Of cut views nothing is left but that they are cut.
///
/// It is refused for want of memory alone, and then drops its views.
pub fn voxel_first(alloc: Global, v: Views, cell: i64) -> Result<Views, AllocError>
    requires cell { pos 1 ≤ℤ cell }
    requires open { v.cut ≡ false → v.open_view ≡ [] }
    ensures { IfOk result (λ made. made ≡ whole_set (voxels cell) v) }
{
    first_of_each(alloc, v, &ByVoxel(CellLength::new(cell)))
}
