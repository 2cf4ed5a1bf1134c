//! A filter that drops spikes.

ghost use Rattle.std.specs.Prelude.{◌≡◌, List, codes};
ghost use Rattle.cloud_points.specs.declared.point.Point as point_type;
ghost use Rattle.plug_stages.specs.Folds.{plug_fold};
ghost use Rattle.plug_stages.specs.Spikes.{without_spikes};

use crate::PlugFilter;
use cloud_points::Point;

/// How far from the height of the last kept point another point's may be, in nanounits.
const MOST_APART: i128 = 50_000_000_000;

/// Drops a point whose Z is more than 50 units from that of the last kept point of its view. The first point of a view is
/// kept. It is called `spike`.
#[derive(Clone, Copy, Debug)]
pub struct Spike {
    last: Option<i64>,
}

impl Spike {
    /// At the beginning of a view.
    pub fn new() -> Spike
        ensures called { ⟦<Spike as PlugFilter>⟧.called result ≡ codes "spike" }
        ensures begins { ⟦<Spike as PlugFilter>⟧.state result ≡ ⟦<Spike as PlugFilter>⟧.opening result }
        ensures rule { (view : List point_type.Point)
            → plug_fold (⟦<Spike as PlugFilter>⟧.step result) (⟦<Spike as PlugFilter>⟧.opening result) view
            ≡ without_spikes view }
    {
        Spike { last: None }
    }
}

impl PlugFilter for Spike {
    ghost use Rattle.std.specs.Prelude.{[], codes};
    ghost use Rattle.std.specs.List.{cons_option};
    ghost use Rattle.plug_stages.specs.Spikes.{spike_step};

    ghost called = { λ _. codes "spike" };

    ghost state = { λ s. cons_option s.last [] };

    ghost opening = { λ _. [] };

    ghost step = { λ _. spike_step };

    fn name(&self) -> &str {
        "spike"
    }

    fn begin_view(&mut self) {
        self.last = None;
    }

    fn point(&mut self, p: &mut Point) -> bool {
        if let Some(z) = self.last {
            let apart = p.z as i128 - z as i128;
            if apart > MOST_APART || apart < -MOST_APART {
                return false;
            }
        }
        self.last = Some(p.z);
        true
    }
}
