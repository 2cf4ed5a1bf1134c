//! What a leaf gives.

ghost use Rattle.std.specs.Prelude.{◌≡◌, ◌≤◌, true, false, IfOk};
ghost use Rattle.cloud_points.specs.Events.{is_device};
ghost use Rattle.cloud_points.specs.Marks.{flow_marks};
ghost use Rattle.set_engine.specs.Stops.{IsCaused};

use crate::output::StageOutput;
use cloud_points::{Layout, MOST_POINTS, Make, Spread, Work};
use std::alloc::{AllocError, Global};
use whole_filters::Views;

/// All that a leaf gives, as whole views of a layout, and the fault at its end. Refuses for want of memory alone.
pub(crate) fn leaf_views<W: Work>(
    alloc: Global,
    layout: &Layout,
    leaf: &mut W,
) -> Result<StageOutput, AllocError>
    requires { W.leaf leaf.old ≡ true }
    ensures ok { IfOk result (λ given. is_device given.fault ≡ false
        → W.tells leaf.old ≡ true → W.told leaf.old ≡ flow_marks given.views) }
    ensures fault { IfOk result (λ given. is_device given.fault ≡ false
        → W.tells leaf.old ≡ true → W.told_fault leaf.old ≡ given.fault) }
    ensures caused { IfOk result (λ given. IsCaused (W.op leaf.old)
        (W.faults leaf.old) (W.faults leaf.new) given.fault) }
    ensures leaf { W.leaf leaf.new ≡ true }
    ensures op { W.op leaf.new ≡ W.op leaf.old }
    ensures meaning { W.meaning leaf.new ≡ W.meaning leaf.old }
    ensures later { W.faults leaf.old ≤ W.faults leaf.new }
{
    let mut points = Box::new(alloc, Spread::new())?;
    let mut views = Views::none(alloc, layout);
    'giving: loop {
        match leaf.make(MOST_POINTS, &mut points) {
            Make::Points => views.push_all(points.as_slice())?,
            Make::EndView => views.end_view()?,
            Make::End(cut, fault) => {
                if cut {
                    views.set_cut();
                }
                return Ok(StageOutput { views, fault });
            }
        }
    }
}
