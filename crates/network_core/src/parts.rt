//! Small parts of a turn.

ghost use Rattle.std.specs.Prelude.{◌≡◌, ◌<◌, true, length};
ghost use Rattle.cloud_points.specs.Events.{first_fault};
ghost use Rattle.network_theory.specs.Net.{item_of};
ghost use Rattle.network_core.specs.Hands.{seen_hand, holds_points};

use chunk_queue::ItemKind;
use cloud_points::{Spread, StageFault};

/// The first of two faults.
pub(crate) fn first(a: Option<StageFault>, b: Option<StageFault>) -> Option<StageFault>
    ensures { result ≡ first_fault a b }
{
    match a {
        Some(fault) => Some(fault),
        None => b,
    }
}

/// The kind of what is to be given, where there are points.
pub(crate) fn hand_of(points: &Spread) -> Option<ItemKind>
    ensures hand { seen_hand result points.now.items ≡ item_of points.now.items }
    ensures held { holds_points result ≡ true → 0 < length points.now.items }
{
    if points.is_empty() {
        None
    } else {
        Some(ItemKind::Points)
    }
}
