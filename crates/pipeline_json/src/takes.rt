//! What a stage takes.

ghost use Rattle.std.specs.Prelude.{◌≡◌, ◌≤◌, ◌<◌, length, map, option_map, position, is_none, is_some, unwrap_or, IfOk, IfSome, []};
ghost use Rattle.std.specs.List.{list_any};
ghost use Rattle.serde_json.specs.View.{view};
ghost use Rattle.pipeline_json.specs.Lists.{has, has_twice};
ghost use Rattle.pipeline_json.specs.Shown.{stage_view, stages_view};
ghost use Rattle.pipeline_json.specs.Stages.{taken, pile, is_tagged, place_of, has_tag_twice, place_named, is_unknown, place_or_0, ins_of};
ghost use Rattle.pipeline_json.specs.Trees.{loose};

use crate::stage::RawStage;
use serde_json::Value;
use stage_names::KindName;
use std::alloc::{AllocError, Global};

// ---- stages by their tags

fn is_tagged(stage: &RawStage, name: &str) -> bool
    ensures { result ≡ is_tagged name.now (stage_view stage.now) }
{
    match &stage.tag {
        Some(tag) => tag.as_str() == name,
        None => false,
    }
}

fn tagged_at(earlier: &[RawStage], name: &str) -> Option<usize>
    ensures value { result ≡ position (λ s. is_tagged name.now (stage_view s)) earlier.now }
    ensures below { IfSome result (λ k. k < length earlier.now) }
{
    earlier.iter().position(|s| is_tagged(s, name))
}

/// The number of the stage with the tag.
fn place_of(earlier: &[RawStage], name: &str) -> Option<usize>
    ensures value { result ≡ place_of (stages_view earlier.now) name.now }
    ensures below { IfSome result (λ k. k < length earlier.now) }
{
    tagged_at(earlier, name)
}

/// Whether an earlier stage has the tag.
pub(crate) fn has_tag_twice(earlier: &[RawStage], tag: Option<&str>) -> bool
    ensures { result ≡ has_tag_twice (stages_view earlier.now) (option_map (λ s. s.now) tag.entry) }
{
    match tag {
        None => false,
        Some(tag) => place_of(earlier, tag).is_some(),
    }
}

/// The number of the stage that an input names.
fn place_named(earlier: &[RawStage], value: &Value) -> Option<usize>
    ensures value { result ≡ place_named (stages_view earlier.now) (view value.now) }
    ensures below { IfSome result (λ k. k < length earlier.now) }
{
    place_of(earlier, value.as_str().unwrap_or(""))
}

fn unknown_at(earlier: &[RawStage], items: &[Value]) -> Option<usize>
    ensures { result ≡ position (λ v. is_unknown (stages_view earlier.now) (view v)) items.now }
{
    items.iter().position(|v| place_named(earlier, v).is_none())
}

/// Whether an input names no earlier stage.
pub(crate) fn has_unknown(earlier: &[RawStage], items: &[Value]) -> bool
    ensures { result ≡ is_some (position (is_unknown (stages_view earlier.now)) (map view items.now)) }
{
    unknown_at(earlier, items).is_some()
}

fn place_or_0(earlier: &[RawStage], value: &Value) -> u32
    requires { length earlier.now ≤ 64 }
    ensures { result ≡ place_or_0 (stages_view earlier.now) (view value.now) }
{
    match place_named(earlier, value) {
        Some(at) => at as u32,
        None => 0,
    }
}

/// The numbers of the stages that inputs name.
fn places(alloc: Global, earlier: &[RawStage], items: &[Value]) -> Result<Vec<u32>, AllocError>
    requires { length earlier.now ≤ 64 }
    ensures { IfOk result (λ ins. ins.items ≡ map (place_or_0 (stages_view earlier.now)) (map view items.now)) }
{
    let mut ins = Vec::new(alloc);
    for value in items {
        ins.push(place_or_0(earlier, value))?;
    }
    Ok(ins)
}

// ---- stages that are taken

fn is_input(stages: &[RawStage], number: u32) -> bool
    ensures { result ≡ list_any (λ s. has s.ins number) stages.now }
{
    stages.iter().any(|s| s.ins.as_slice().contains(&number))
}

/// Whether one of the stages takes the one with this number.
fn is_taken(stages: &[RawStage], number: u32) -> bool
    ensures { result ≡ has (taken (stages_view stages.now)) number }
{
    is_input(stages, number)
}

/// The stages that none of these takes.
fn pile(alloc: Global, stages: &[RawStage]) -> Result<Vec<u32>, AllocError>
    requires { length stages.now ≤ 64 }
    ensures { IfOk result (λ ins. ins.items ≡ pile (stages_view stages.now)) }
{
    let count = stages.len() as u32;
    let mut ins = Vec::new(alloc);
    for number in 0..count {
        if !is_taken(stages, number) {
            ins.push(number)?;
        }
    }
    Ok(ins)
}

/// Whether a stage that is taken here was taken before: by an earlier stage, or at an earlier place of the list.
pub(crate) fn has_twice(earlier: &[RawStage], ins: &[u32]) -> bool
    ensures { result ≡ has_twice (taken (stages_view earlier.now)) ins.now }
{
    for (at, number) in ins.iter().enumerate() {
        if is_taken(earlier, *number) || ins[..at].contains(number) {
            return true;
        }
    }
    false
}

/// The stages that a stage takes: with inputs those that they name, without the pile, and a reader none.
pub(crate) fn ins_of(
    alloc: Global,
    earlier: &[RawStage],
    kind: KindName,
    inputs: Option<&[Value]>,
) -> Result<Vec<u32>, AllocError>
    requires { length earlier.now ≤ 64 }
    ensures { IfOk result (λ ins. ins.items
        ≡ ins_of (stages_view earlier.now) kind (option_map (λ s. map view s.now) inputs.entry)) }
{
    match inputs {
        Some(items) => places(alloc, earlier, items),
        None => {
            if kind.is_reader() {
                return Ok(Vec::new(alloc));
            }
            pile(alloc, earlier)
        }
    }
}

/// The least stage but the last that isn't taken.
pub(crate) fn loose(stages: &[RawStage]) -> Option<u32>
    requires { length stages.now ≤ 64 }
    ensures { result ≡ loose (stages_view stages.now) }
{
    let last = stages.len().saturating_sub(1) as u32;
    for number in 0..last {
        if !is_taken(stages, number) {
            return Some(number);
        }
    }
    None
}
