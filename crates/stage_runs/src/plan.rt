//! How a tree of stages falls into parts.

ghost use Rattle.std.specs.Prelude.{◌≡◌, IfOk};
ghost use Rattle.pipeline_json.specs.Trees.{IsTree};
ghost use Rattle.stage_options.specs.Shapes.{shapes};
ghost use Rattle.stage_parts.specs.Parts.{AreHomes};
ghost use Rattle.stage_runs.specs.Works.{ins_of};
ghost use Rattle.stage_runs.specs.Parts.{gathers_of};

use crate::inputs::ins_of;
use network_core::InsList;
use stage_options::StageSpec;
use stage_parts::homes_of;
use std::alloc::{AllocError, Global};

/// How a tree of stages falls into parts.
#[derive(Drop)]
pub(crate) struct Plan {
    /// The numbers of the stages that each stage takes.
    pub(crate) ins: InsList,

    /// Whether each stage needs whole views.
    pub(crate) gathers: Vec<bool>,

    /// The number of the first stage above each that needs whole views, or the number of stages.
    pub(crate) homes: Vec<u32>,
}

/// Whether each stage needs whole views.
fn gathers_of(alloc: Global, stages: &[StageSpec]) -> Result<Vec<bool>, AllocError>
    ensures { IfOk result (λ gathers. gathers.items ≡ gathers_of stages.now) }
{
    let mut gathers = Vec::with_capacity(alloc, stages.len())?;
    for stage in stages {
        gathers.push_reserved(stage.options.role().needs_views());
    }
    Ok(gathers)
}

impl Plan {
    /// How these stages fall into parts. Refuses where memory is wanting.
    pub(crate) fn new(alloc: Global, stages: &[StageSpec]) -> Result<Plan, AllocError>
        requires { IsTree (shapes stages.now) }
        ensures ins { IfOk result (λ plan. plan.ins ≡ ins_of stages.now) }
        ensures gathers { IfOk result (λ plan. plan.gathers.items ≡ gathers_of stages.now) }
        ensures homes { IfOk result (λ plan.
            AreHomes (gathers_of stages.now) (ins_of stages.now) plan.homes.items) }
    {
        let ins = ins_of(alloc, stages)?;
        let gathers = gathers_of(alloc, stages)?;
        let homes = homes_of(alloc, &ins, gathers.as_slice())?;
        Ok(Plan {
            ins,
            gathers,
            homes,
        })
    }
}
