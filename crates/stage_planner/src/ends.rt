//! The greatest stage of each stage's step.

ghost use Rattle.std.specs.Prelude.{◌≡◌, ◌<◌, length, map, unwrap_or, IfOk};
ghost use Rattle.std.specs.List.{range_with_len};
ghost use Rattle.pipeline_json.specs.Lists.{has};
ghost use Rattle.stage_planner.specs.Plans.{needs_whole, is_whole, taker, next, end_of};

use stage_options::StageSpec;
use std::alloc::{AllocError, Global};

/// Whether a stage takes stage j.
fn takes(stage: &StageSpec, j: usize) -> bool
    ensures { result ≡ has stage.now.ins j }
{
    stage.ins.as_slice().iter().any(|k| *k as usize == j)
}

/// The stage that takes stage j.
fn taker(stages: &[StageSpec], j: usize) -> Option<usize>
    ensures { result ≡ taker stages.now j }
{
    stages.iter().position(|s| takes(s, j))
}

/// The stage that takes stage j, or else j.
fn taker_of(stages: &[StageSpec], j: usize) -> usize
    requires { j < length stages.now }
    ensures taker { result ≡ unwrap_or (taker stages.now j) j }
    ensures inside { result < length stages.now }
{
    match taker(stages, j) {
        Some(i) => i,
        None => j,
    }
}

/// Whether a stage needs whole views.
fn needs_whole(stage: &StageSpec) -> bool
    ensures { result ≡ needs_whole stage.now }
{
    stage.options.role().needs_views()
}

/// Whether stage i needs whole views.
pub(crate) fn is_whole(stages: &[StageSpec], i: usize) -> bool
    requires { i < length stages.now }
    ensures { result ≡ is_whole stages.now i }
{
    needs_whole(&stages[i])
}

/// The stage that takes stage j in the same run, or else j.
fn next_of(stages: &[StageSpec], j: usize) -> usize
    requires { j < length stages.now }
    ensures next { result ≡ next stages.now j }
    ensures inside { result < length stages.now }
{
    let i = taker_of(stages, j);
    if is_whole(stages, j) || is_whole(stages, i) {
        j
    } else {
        i
    }
}

/// The greatest stage of the step of stage j.
fn end_of(stages: &[StageSpec], j: usize) -> usize
    requires { j < length stages.now }
    ensures { result ≡ end_of stages.now j }
{
    let mut at = j;
    for _step in 0..stages.len() {
        at = next_of(stages, at);
    }
    at
}

/// The greatest stage of each stage's step, stage by stage. Refuses where memory is wanting.
pub(crate) fn ends_of(alloc: Global, stages: &[StageSpec]) -> Result<Vec<usize>, AllocError>
    ensures { IfOk result (λ ends. ends.items
        ≡ map (end_of stages.now) (range_with_len 0 (length stages.now))) }
{
    let mut ends = Vec::new(alloc);
    for j in 0..stages.len() {
        ends.push(end_of(stages, j))?;
    }
    Ok(ends)
}
