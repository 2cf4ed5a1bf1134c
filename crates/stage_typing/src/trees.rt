//! The typed stages of a tree, or their first fault.

ghost use Rattle.std.specs.Prelude.{◌≡◌, ◌≤◌, length, Ok, None, IfOk, IfErr, OnOk};
ghost use Rattle.pipeline_json.specs.Shown.{stage_view, stages_view};
ghost use Rattle.pipeline_json.specs.Trees.{IsTree};
ghost use Rattle.pipeline_json.specs.TreeShown.{tree_view};
ghost use Rattle.stage_names.specs.Faults.{IsFaultOf};
ghost use Rattle.stage_options.specs.Shapes.{shapes};
ghost use Rattle.stage_options.specs.TreeShown.{specs_view};
ghost use Rattle.stage_typing.specs.TypedTree.{stage_fault, spec_of, specs_of, options_fault, typed_tree, IsToldFault};

use crate::outputs::first_same_output;
use crate::typing::type_options;
use pipeline_json::{RawStage, RawTree, StageList};
use stage_names::{PipeErr, PipeFault};
use stage_options::{StageSpec, Tree};
use std::alloc::{AllocError, Global};

/// A list of the same numbers.
fn copied(alloc: Global, list: &StageList) -> Result<StageList, AllocError>
    ensures { IfOk result (λ copy. copy ≡ list.now) }
{
    let mut numbers = Vec::new(alloc);
    numbers.extend_from_slice(list.as_slice())?;
    Ok(StageList::new(numbers))
}

/// Stage i with its options typed, or its first fault: `OptionUnknown` with the least name, then `OptionMissing`, then
/// `OptionValue`. `Memory` comes only where there was none.
fn type_stage(alloc: Global, raw: &RawStage, i: u32) -> Result<StageSpec, PipeErr>
    ensures no_fault { OnOk result (stage_fault i (stage_view raw.now) ≡ None) }
    ensures ok { IfOk result (λ s. s ≡ spec_of (stage_view raw.now)) }
    ensures fault { IfErr result (IsFaultOf (stage_fault i (stage_view raw.now))) }
{
    let filename = match &raw.filename {
        Some(name) => Some(name.as_str()),
        None => None,
    };
    // No way out of here drops typed options: what a drop of them may do weighs more in a proof than all the rest.
    let ins = copied(alloc, &raw.ins)?;
    match type_options(alloc, raw.kind, filename, &raw.options, i) {
        Ok(options) => Ok(StageSpec { ins, options }),
        Err(err) => Err(err),
    }
}

/// The typed stages, or the first fault of their options.
fn type_stages(alloc: Global, list: &[RawStage]) -> Result<Vec<StageSpec>, PipeErr>
    requires few { length list.now ≤ 64 }
    ensures no_fault { OnOk result (options_fault 0 (stages_view list.now) ≡ None) }
    ensures ok { IfOk result (λ specs. specs.items ≡ specs_of (stages_view list.now)) }
    ensures fault { IfErr result (IsFaultOf (options_fault 0 (stages_view list.now))) }
{
    let mut specs = Vec::with_capacity(alloc, list.len())?;
    for (i, raw) in list.iter().enumerate() {
        match type_stage(alloc, raw, i as u32) {
            Ok(spec) => specs.push_reserved(spec),
            Err(err) => return Err(err),
        }
    }
    Ok(specs)
}

/// The tree with its options typed. The first fault is told: of the stages in their order, of each as `type_stage` tells
/// it, and then `SameOutput` with the least number of a writer whose file an earlier one names. `Memory` comes only where
/// there was none.
pub fn type_tree(alloc: Global, raw: &RawTree) -> Result<Tree, PipeErr>
    ensures ok { IfOk result (λ tree. typed_tree (tree_view raw.now) ≡ Ok (specs_view tree)) }
    ensures fault { IfErr result (IsToldFault (typed_tree (tree_view raw.now))) }
    ensures is_tree { IfOk result (λ tree. IsTree (shapes (specs_view tree))) }
{
    let specs = type_stages(alloc, raw.as_slice())?;
    if let Some(i) = first_same_output(&specs) {
        return Err(PipeErr::Fault(PipeFault::SameOutput(i as u32)));
    }
    Ok(Tree::new(specs))
}
