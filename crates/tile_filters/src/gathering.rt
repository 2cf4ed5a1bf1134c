//! What becomes of views in a stage that needs them whole.

ghost use Rattle.std.specs.Prelude.{◌≡◌, IfOk};
ghost use Rattle.tile_filters.specs.Gathered.{gathered};

use crate::tiles::{splitter, voxel_first};
use std::alloc::{AllocError, Global};
use whole_filters::{Gathering, Views, groupby, sort, tail};

/// What becomes of views, by `sort`, `tail`, `groupby`, `splitter` or `voxel_first`; an open view is dropped. It is refused for
/// want of memory alone, and then drops its views.
pub fn gather(alloc: Global, views: Views, how: Gathering) -> Result<Views, AllocError>
    ensures { IfOk result (λ made. made ≡ gathered how views) }
{
    let mut views = views;
    views.drop_open();
    match how {
        Gathering::Sort(dim, down) => {
            sort(alloc, &mut views, dim, down)?;
            Ok(views)
        }
        Gathering::Tail(count) => {
            tail(&mut views, count as u64);
            Ok(views)
        }
        Gathering::GroupBy(dim) => groupby(alloc, views, dim),
        Gathering::Squares(by) => splitter(alloc, views, by.length.nano(), by.x, by.y),
        Gathering::Voxels(edge) => voxel_first(alloc, views, edge.nano()),
    }
}
