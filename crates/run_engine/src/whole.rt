//! The stages of a tree are evaluated one after the other.

ghost use Rattle.std.specs.Prelude.{◌≡◌, length, IfOk};
ghost use Rattle.pipeline_json.specs.Trees.{IsTree};
ghost use Rattle.stage_kinds.specs.Held.{faults_of};
ghost use Rattle.stage_options.specs.Shapes.{shapes};
ghost use Rattle.stage_forms.specs.Starts.{AreAtStart};
ghost use Rattle.stage_forms.specs.Later.{AreLater};
ghost use Rattle.set_engine.specs.Evaluated.{HaveEnded};

use file_devices::{FileSink, Source};
use plug_stages::{PlugFilter, PlugTally};
use run_ending::Ran;
use run_outcome::Ended;
use set_engine::evaluate_stages;
use stage_kinds::StageWork;
use stage_options::StageSpec;
use std::alloc::{AllocError, Global};

/// Evaluates the stages of a tree one after the other, each on all points that it takes. It answers what each stage gave on and its
/// fault. Refuses where memory is wanting.
pub(crate) fn whole_works<S: Source, K: FileSink, P: PlugFilter, Q: PlugTally>(
    alloc: Global,
    works: Vec<StageWork<S, K, P, Q>>,
    stages: &[StageSpec],
) -> Ran<S, K, P, Q, Result<Ended, AllocError>>
    requires tree { IsTree (shapes stages.now) }
    requires starts { AreAtStart K.bytes stages.now works.items }
    requires count { length works.items ≡ length stages.now }
    ensures later { AreLater P.PlugFilter Q.PlugTally
        (faults_of S.faults K.faults) works.items result.works.items }
    ensures ended { IfOk result.outcome
        (λ ended. HaveEnded S.Source K.Sink P.PlugFilter Q.PlugTally stages.now works.items
        result.works.items ended.faults.items ended.report.items) }
{
    let mut works = works;
    let outcome = evaluate_stages(alloc, works.as_mut_slice(), stages);
    Ran { works, outcome }
}
