//! Laws of collectors.

ghost use Rattle.std.specs.Prelude.{◌≡◌, Some};
ghost use Rattle.cloud_points.specs.declared.point.Point.{Point};
ghost use Rattle.cloud_points.specs.Flows.{Flow, empty_flow};
ghost use Rattle.cloud_points.specs.Marks.{flow_marks};
ghost use Rattle.network_theory.specs.Machine.{made_of, state_after};
ghost use Rattle.view_works.specs.Collecting.{collecting};
ghost use Rattle.whole_filters.specs.declared.gathering.Gathering.{Gathering};

/// A collector that took a flow holds just that flow, and gave it on.
pub fn collectors_keep_their_flow()
    ensures holds { (g : Gathering) (f : Flow Point)
        → state_after collecting (g, Some empty_flow) f ≡ (g, Some f) }
    ensures gives { (g : Gathering) (f : Flow Point)
        → made_of collecting (g, Some empty_flow) f ≡ flow_marks f }
{}
