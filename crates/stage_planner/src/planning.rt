//! The plan of a tree.

ghost use Rattle.std.specs.Prelude.{◌≡◌, ◌==◌, ◌++◌, ◌∷◌, [], ◌<◌, ◌≤◌, length, map, slice_index, IfOk, OnOk, if◌then◌else◌};
ghost use Rattle.std.specs.List.{range_with_len};
ghost use Rattle.stage_options.specs.TreeShown.{specs_view};
ghost use Rattle.stage_planner.specs.declared.steps.PlanStep.TheVariants.{Run, Whole};
ghost use Rattle.stage_planner.specs.Covering.{Covers};
ghost use Rattle.stage_planner.specs.Plans.{plan_of, part_by, step_at, end_of};

use crate::ends::{ends_of, is_whole};
use crate::steps::{PlanStep, StepList};
use pipeline_json::StageList;
use stage_options::{StageSpec, Tree};
use std::alloc::{AllocError, Global};

/// Puts a number behind the others where it passes.
fn push_where(numbers: &mut Vec<u32>, passes: bool, number: u32) -> Result<(), AllocError>
    ensures { OnOk result (numbers.new.items ≡ numbers.old.items ++ (if passes then number ∷ [] else [])) }
{
    if passes {
        numbers.push(number)?;
    }
    Ok(())
}

/// The stages whose step ends in stage i.
fn part_of(alloc: Global, ends: &[usize], i: usize) -> Result<StageList, AllocError>
    requires { length ends.now ≤ 64 }
    ensures { IfOk result (λ part. part ≡ part_by (slice_index ends.now) (length ends.now) i) }
{
    let mut part = Vec::new(alloc);
    for j in 0..ends.len() {
        push_where(&mut part, ends[j] == i, j as u32)?;
    }
    Ok(StageList::new(part))
}

/// The step that ends in stage i.
fn step_of(alloc: Global, ends: &[usize], whole: bool, i: usize) -> Result<PlanStep, AllocError>
    requires few { length ends.now ≤ 64 }
    requires inside { i < length ends.now }
    ensures { IfOk result (λ step. step
        ≡ (if whole then Whole i else Run (part_by (slice_index ends.now) (length ends.now) i))) }
{
    if whole {
        return Ok(PlanStep::Whole(i as u32));
    }
    Ok(PlanStep::Run(part_of(alloc, ends, i)?))
}

/// Puts the step that ends in stage i behind the others, where one does.
fn push_step(
    alloc: Global,
    steps: &mut Vec<PlanStep>,
    stages: &[StageSpec],
    ends: &[usize],
    i: usize,
) -> Result<(), AllocError>
    requires few { length stages.now ≤ 64 }
    requires inside { i < length stages.now }
    requires ends { ends.now ≡ map (end_of stages.now) (range_with_len 0 (length stages.now)) }
    ensures { OnOk result (steps.new.items
        ≡ steps.old.items ++ (if end_of stages.now i == i then step_at stages.now i ∷ [] else [])) }
{
    if ends[i] != i {
        return Ok(());
    }
    let step = step_of(alloc, ends, is_whole(stages, i), i)?;
    steps.push(step)?;
    Ok(())
}

/// The steps in which the stages of a tree are run. A stage that needs whole views, as those of `filters.sort`,
/// `filters.tail` and `filters.groupby` do and a writer of a file for each view, is a step of its own. The others fall into
/// the largest pieces of the tree that hang together with none of these between, and each piece is one run. The steps stand
/// in the order of their greatest stages, so what a step takes from outside stands in earlier ones. Refuses only where
/// memory is wanting.
pub fn plan(alloc: Global, tree: &Tree) -> Result<StepList, AllocError>
    ensures plan { IfOk result (λ steps. steps ≡ plan_of (specs_view tree.now)) }
    ensures covers { IfOk result (Covers (specs_view tree.now)) }
{
    let stages = tree.as_slice();
    let ends = ends_of(alloc, stages)?;
    let mut steps = Vec::new(alloc);
    for i in 0..stages.len() {
        push_step(alloc, &mut steps, stages, &ends, i)?;
    }
    Ok(StepList::new(steps))
}
