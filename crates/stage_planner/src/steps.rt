//! The steps into which the stages of a tree fall.

ghost use Rattle.std.specs.Prelude.{◌≡◌};

use pipeline_json::StageList;
use std::marker::Model;

/// A step of a plan.
#[derive(Drop)]
pub enum PlanStep {
    /// The stages of these numbers, in ascending order, are run together as one net.
    Run(StageList),

    /// The stage of this number needs whole views, and stands alone.
    Whole(u32),
}

/// The steps of a plan, in their order, which contracts see as that list.
#[derive(Drop)]
pub struct StepList {
    steps: Vec<PlanStep>,
}

impl Model for StepList {
    ghost use Rattle.std.specs.Prelude.{List};
    ghost use Rattle.stage_planner.specs.declared.steps.PlanStep.{PlanStep};

    ghost Value = { List PlanStep };

    ghost view = { λ l. l.steps.items };
}

impl StepList {
    /// The list of these steps. It takes no memory.
    pub(crate) fn new(steps: Vec<PlanStep>) -> Self
        ensures { result ≡ steps.items }
    {
        StepList { steps }
    }

    /// The steps, in their order.
    pub fn as_slice(&self) -> &[PlanStep]
        ensures { result.now ≡ self.now }
    {
        self.steps.as_slice()
    }
}
