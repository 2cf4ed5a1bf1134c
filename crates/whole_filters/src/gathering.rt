//! What a stage does that needs whole views.

use crate::lengths::EdgeLength;
use cloud_points::Dim;

/// The squares of a grid, in nanounits.
#[derive(Clone, Copy, Debug, PartialEq, Eq)]
pub struct Squares {
    /// The length of their sides.
    pub length: EdgeLength,

    /// The X of a corner.
    pub x: i64,

    /// The Y of that corner.
    pub y: i64,
}

/// What a stage does with whole views.
#[derive(Clone, Copy, Debug, PartialEq, Eq)]
pub enum Gathering {
    /// Orders the points of each view by a dimension, downwards where it says so.
    Sort(Dim, bool),
    /// Keeps so many of the last points of each view.
    Tail(u32),
    /// Parts each view by the values of a dimension.
    GroupBy(Dim),
    /// Parts each view by squares of X and Y.
    Squares(Squares),
    /// Keeps the first point of each voxel of each view. The voxels have edges of this length, and a corner at 0.
    Voxels(EdgeLength),
}
