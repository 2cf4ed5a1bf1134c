//! The filter that orders the points of each view.

ghost use Rattle.std.specs.Prelude.{◌≡◌, false, [], flat_map, OnOk, OnErr};
ghost use Rattle.cloud_points.specs.Points.{key_of};
ghost use Rattle.whole_filters.specs.Held.{SamePoints, EachRearranged};
ghost use Rattle.whole_filters.specs.Whole.{whole_set, sorted};

use crate::Views;
use crate::rows::Rows;
use cloud_points::Dim;
use std::alloc::{AllocError, Global};

/// Orders the points of each view by their keys in a dimension, upwards, or downwards where `down` says so. Points of one
/// key stay in their order, downwards too. Of cut views nothing is left but that they are cut.
///
/// It is refused for want of memory alone; each view then has its points in some order. Beside the views it takes room for
/// the keys and places of the points of the longest one, and gives it back.
pub fn sort(alloc: Global, views: &mut Views, dim: Dim, down: bool) -> Result<(), AllocError>
    requires { views.old.cut ≡ false → views.old.open_view ≡ [] }
    ensures ok { OnOk result (views.new ≡ whole_set (sorted (λ p. key_of p dim) down) views.old) }
    ensures refused { OnErr result (SamePoints views.old views.new) }
{
    if views.cut {
        *views = views.like();
        views.set_cut();
        return Ok(());
    }
    sort_each(alloc, &mut views.complete, dim, down)
}

fn sort_each(alloc: Global, views: &mut Vec<Rows>, dim: Dim, down: bool) -> Result<(), AllocError>
    ensures ok { OnOk result (views.new.items ≡ flat_map (sorted (λ p. key_of p dim) down) views.old.items) }
    ensures refused { OnErr result (EachRearranged views.old.items views.new.items) }
{
    for k in 0..views.len() {
        views[k].sort(alloc, dim, down)?;
    }
    Ok(())
}
