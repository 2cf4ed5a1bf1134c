//! The filter that keeps the last points of each view.

ghost use Rattle.std.specs.Prelude.{◌≡◌, false, [], flat_map};
ghost use Rattle.whole_filters.specs.Whole.{whole_set, last_of};

use crate::Views;
use crate::rows::Rows;

/// Keeps the last `count` points of each view, and all where it has no more. Of cut views nothing is left but that they are
/// cut.
pub fn tail(views: &mut Views, count: u64)
    requires { views.old.cut ≡ false → views.old.open_view ≡ [] }
    ensures { views.new ≡ whole_set (last_of count) views.old }
{
    if views.cut {
        *views = views.like();
        views.set_cut();
        return;
    }
    keep_last_of_each(&mut views.complete, count);
}

fn keep_last_of_each(views: &mut Vec<Rows>, count: u64)
    ensures { views.new.items ≡ flat_map (last_of count) views.old.items }
{
    for k in 0..views.len() {
        views[k].keep_last(count);
    }
}
