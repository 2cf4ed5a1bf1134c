//! The stages of a pipeline.

ghost use Rattle.std.specs.Prelude.{◌≡◌};
ghost use Rattle.pipeline_json.specs.Shown.{stages_view};
ghost use Rattle.pipeline_json.specs.Trees.{IsTree};

use crate::stage::RawStage;

/// The 1 to 64 stages of a pipeline. Each stage takes earlier ones, a reader none and another stage at least one; each
/// stage but the last is taken once.
#[derive(Drop)]
pub struct RawTree {
    stages: Vec<RawStage>,
    pub ghost is_tree: { IsTree (stages_view stages.items) },
}

impl RawTree {
    ghost use Rattle.std.specs.Prelude.{◌≡◌};
    ghost use Rattle.pipeline_json.specs.Shown.{stages_view};
    ghost use Rattle.pipeline_json.specs.Trees.{IsTree};
    ghost use Rattle.pipeline_json.specs.TreeShown.{tree_view};

    /// The tree of these stages. It takes no memory.
    pub(crate) fn new(stages: Vec<RawStage>) -> Self
        requires { IsTree (stages_view stages.items) }
        ensures { tree_view result ≡ stages_view stages.items }
    {
        RawTree { stages }
    }

    /// The stages, in the order of the text.
    pub fn as_slice(&self) -> &[RawStage]
        ensures stages { stages_view result.now ≡ tree_view self.now }
        ensures is_tree { IsTree (stages_view result.now) }
    {
        self.stages.as_slice()
    }

    /// Gives the stages back. It takes no memory.
    pub fn into_vec(self) -> Vec<RawStage>
        ensures stages { stages_view result.items ≡ tree_view self }
        ensures is_tree { IsTree (stages_view result.items) }
    {
        self.stages
    }
}
