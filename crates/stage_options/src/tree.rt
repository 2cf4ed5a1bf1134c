//! The stages of a pipeline, with their options.

ghost use Rattle.pipeline_json.specs.Trees.{IsTree};
ghost use Rattle.stage_options.specs.Shapes.{shapes};

use crate::stage::StageSpec;

/// The 1 to 64 stages of a pipeline, with their options. Each stage takes earlier ones, a reader none and another stage at
/// least one; each stage but the last is taken once.
#[derive(Drop)]
pub struct Tree {
    stages: Vec<StageSpec>,
    pub ghost is_tree: { IsTree (shapes stages.items) },
}

impl Tree {
    ghost use Rattle.std.specs.Prelude.{◌≡◌};
    ghost use Rattle.pipeline_json.specs.Trees.{IsTree};
    ghost use Rattle.stage_options.specs.Shapes.{shapes};
    ghost use Rattle.stage_options.specs.TreeShown.{specs_view};

    /// The tree of these stages. It takes no memory.
    pub fn new(stages: Vec<StageSpec>) -> Self
        requires is_tree { IsTree (shapes stages.items) }
        ensures { specs_view result ≡ stages.items }
    {
        Tree { stages }
    }

    /// The stages, in the order of the text.
    pub fn as_slice(&self) -> &[StageSpec]
        ensures stages { result.now ≡ specs_view self.now }
        ensures is_tree { IsTree (shapes result.now) }
    {
        self.stages.as_slice()
    }

    /// Gives the stages back. It takes no memory.
    pub fn into_vec(self) -> Vec<StageSpec>
        ensures stages { result.items ≡ specs_view self }
        ensures is_tree { IsTree (shapes result.items) }
    {
        self.stages
    }
}
