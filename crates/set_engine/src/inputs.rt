//! What a stage takes.

ghost use Rattle.std.specs.Prelude.{◌≡◌, ◌<◌, ◌≤◌, ℕ, length, map, slice_get, false, All, OnOk, IfOk};
ghost use Rattle.cloud_points.specs.Flows.{join_all};
ghost use Rattle.pipeline_json.specs.Lists.{has, times};
ghost use Rattle.set_engine.specs.Taking.{value_in};

use cloud_points::Layout;
use std::alloc::{AllocError, Global};
use std::mem::replace;
use whole_filters::Views;

/// Takes the values at these places, each once, and joins them in this order. The others stay.
pub(crate) fn take_joined(
    alloc: Global,
    values: &mut [Views],
    places: &[u32],
) -> Result<Views, AllocError>
    requires inside { All (λ j. j < length values.old) places.now }
    requires once { (j : ℕ) → times j places.now ≤ 1 }
    ensures joined { IfOk result (λ views. views ≡ join_all (map (value_in values.old) places.now)) }
    ensures others { OnOk result ((j : ℕ) → has places.now j ≡ false
        → slice_get values.new j ≡ slice_get values.old j) }
{
    let none = Layout::none();
    let mut joined = Views::none(alloc, &none);
    for place in places {
        let value = replace(&mut values[*place as usize], Views::none(alloc, &none));
        joined.append(value)?;
    }
    Ok(joined)
}
