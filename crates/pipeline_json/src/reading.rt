//! The tree of a text.

ghost use Rattle.std.specs.Prelude.{◌≡◌, ◌≤◌, ◌&&◌, [], length, map, option_map, codes, Some, None, Ok, unwrap_or, IfOk, IfErr, IsErrOf};
ghost use Rattle.serde_json.specs.Find.{as_array};
ghost use Rattle.serde_json.specs.View.{view, members_view};
ghost use Rattle.stage_names.specs.declared.faults.PipeFault.{PipeFault};
ghost use Rattle.pipeline_json.specs.Shown.{parts_view, stage_view, stages_view, IsToldFault};
ghost use Rattle.pipeline_json.specs.Stages.{elements, ins_of, kind_of, options_of, parts_fault, stage_fault, stage_of};
ghost use Rattle.pipeline_json.specs.TreeShown.{tree_view};
ghost use Rattle.pipeline_json.specs.Trees.{IsTree, array_in, is_end, stages_of, tree_in, tree_of};

use crate::elements::{Parts, element_parts, member, options_in};
use crate::kinds::{is_bad_tag, is_unnamed, kind_of};
use crate::stage::{RawStage, StageList};
use crate::takes::{has_tag_twice, has_twice, has_unknown, ins_of, loose};
use crate::tree::RawTree;
use file_devices::Name;
use serde_json::{Map, Value};
use stage_names::{KindName, PipeErr, PipeFault};
use std::alloc::{AllocError, Global};

/// The most bytes of a pipeline's text.
pub const MOST_BYTES: usize = 1_048_576;

/// The most stages.
const MOST_STAGES: usize = 64;

/// The type of a stage, and the stages that it takes.
#[derive(Drop)]
struct Taking {
    kind: KindName,
    ins: Vec<u32>,
}

/// What a stage with these parts takes, or its first fault.
fn judged(
    alloc: Global,
    earlier: &[RawStage],
    number: u32,
    is_end: bool,
    parts: &Parts<'_>,
) -> Result<Taking, PipeErr>
    requires few { length earlier.now ≤ 64 }
    requires number { number ≡ length (stages_view earlier.now) }
    ensures ok { IfOk result (λ t. parts_fault (stages_view earlier.now) is_end (parts_view parts.now) ≡ None) }
    ensures kind { IfOk result (λ t. kind_of is_end (parts_view parts.now).type
        (parts_view parts.now).filename ≡ Some t.kind) }
    ensures ins { IfOk result (λ t. t.ins.items
        ≡ ins_of (stages_view earlier.now) t.kind (parts_view parts.now).inputs) }
    ensures fault { (f : PipeFault) → IsErrOf result (PipeErr.Fault f)
        → parts_fault (stages_view earlier.now) is_end (parts_view parts.now) ≡ Some f }
{
    if is_bad_tag(parts.tag) || is_unnamed(parts.kind, parts.filename) {
        return Err(PipeErr::Fault(PipeFault::BadStage(number)));
    }
    let Some(kind) = kind_of(is_end, parts.kind, parts.filename) else {
        if parts.kind.is_some() {
            return Err(PipeErr::Fault(PipeFault::TypeUnknown(number)));
        }
        return Err(PipeErr::Fault(PipeFault::CannotInfer(number)));
    };
    if has_tag_twice(earlier, parts.tag) {
        return Err(PipeErr::Fault(PipeFault::TagTwice(number)));
    }
    if has_unknown(earlier, parts.inputs.unwrap_or(&[])) {
        return Err(PipeErr::Fault(PipeFault::TagUnknown(number)));
    }
    let ins = ins_of(alloc, earlier, kind, parts.inputs)?;
    if kind.is_reader() != ins.is_empty() {
        if kind.is_reader() {
            return Err(PipeErr::Fault(PipeFault::InputOfReader(number)));
        }
        return Err(PipeErr::Fault(PipeFault::NoInput(number)));
    }
    if has_twice(earlier, ins.as_slice()) {
        return Err(PipeErr::Fault(PipeFault::UsedTwice(number)));
    }
    Ok(Taking { kind, ins })
}

/// The options of an element.
fn options_of(alloc: Global, value: &Value) -> Result<Map<String, Value>, AllocError>
    ensures { IfOk result (λ options. members_view options.entries ≡ options_of (view value.now)) }
{
    match value {
        Value::Object(members) => options_in(members),
        _ => Ok(Map::new(alloc)),
    }
}

/// A name with this text.
fn named(alloc: Global, text: Option<&str>) -> Result<Option<Name>, AllocError>
    ensures { IfOk result (λ name. name ≡ option_map (λ s. s.now) text.entry) }
{
    match text {
        None => Ok(None),
        Some(text) => Ok(Some(Name::new(String::from_str(alloc, text)?))),
    }
}

/// The stage that an element is, after the earlier ones, or its first fault.
fn read_stage(
    alloc: Global,
    earlier: &[RawStage],
    number: u32,
    is_end: bool,
    value: &Value,
) -> Result<RawStage, PipeErr>
    requires few { length earlier.now ≤ 64 }
    requires number { number ≡ length (stages_view earlier.now) }
    ensures ok { IfOk result (λ s. stage_fault (stages_view earlier.now) is_end (view value.now) ≡ None) }
    ensures value { IfOk result (λ s. stage_view s
        ≡ stage_of (stages_view earlier.now) is_end (view value.now)) }
    ensures fault { (f : PipeFault) → IsErrOf result (PipeErr.Fault f)
        → stage_fault (stages_view earlier.now) is_end (view value.now) ≡ Some f }
{
    let Some(parts) = element_parts(value) else {
        return Err(PipeErr::Fault(PipeFault::BadStage(number)));
    };
    let taking = judged(alloc, earlier, number, is_end, &parts)?;
    let tag = named(alloc, parts.tag)?;
    let filename = named(alloc, parts.filename)?;
    let options = options_of(alloc, value)?;
    Ok(RawStage {
        kind: taking.kind,
        tag,
        ins: StageList::new(taking.ins),
        filename,
        options,
    })
}

/// Whether a stage stands in the place of a writer: in the last one, if it isn't the only one.
fn is_end(earlier: &[RawStage], later: &[Value]) -> bool
    ensures { result ≡ is_end (stages_view earlier.now) (map view later.now) }
{
    !earlier.is_empty() && later.is_empty()
}

/// The stages that elements are, or their first fault.
fn read_stages(alloc: Global, list: &[Value]) -> Result<Vec<RawStage>, PipeErr>
    requires { length list.now ≤ 64 }
    ensures ok { IfOk result (λ stages. stages_of [] (map view list.now) ≡ Ok (stages_view stages.items)) }
    ensures fault { IfErr result (λ e. IsToldFault (stages_of [] (map view list.now)) e) }
{
    let mut stages = Vec::new(alloc);
    for (i, value) in list.iter().enumerate() {
        let is_end = is_end(&stages, &list[i + 1..]);
        let stage = read_stage(alloc, &stages, i as u32, is_end, value)?;
        if stages.push(stage).is_err() {
            return Err(PipeErr::Memory);
        }
    }
    match loose(&stages) {
        Some(number) => Err(PipeErr::Fault(PipeFault::Loose(number))),
        None => Ok(stages),
    }
}

/// The tree that an array's elements are, or its first fault.
fn read_elements(alloc: Global, list: &[Value]) -> Result<RawTree, PipeErr>
    ensures ok { IfOk result (λ tree. tree_in (map view list.now) ≡ Ok (tree_view tree)) }
    ensures fault { IfErr result (λ e. IsToldFault (tree_in (map view list.now)) e) }
{
    if list.is_empty() {
        return Err(PipeErr::Fault(PipeFault::Empty));
    }
    if list.len() > MOST_STAGES {
        return Err(PipeErr::Fault(PipeFault::TooManyStages));
    }
    let stages = read_stages(alloc, list)?;
    Ok(RawTree::new(stages))
}

/// The elements of an array.
fn items_of(value: &Value) -> Option<&[Value]>
    ensures { option_map (λ list. map view list.now) result ≡ option_map elements (as_array (view value.now)) }
{
    match value {
        Value::Array(list) => Some(list.as_slice()),
        _ => None,
    }
}

/// The array of a pipeline: the whole value, or its member `pipeline`.
fn array_in(value: &Value) -> Option<&[Value]>
    ensures { option_map (λ list. map view list.now) result ≡ array_in (view value.now) }
{
    match value {
        Value::Array(_) => items_of(value),
        Value::Object(members) => match member(members, "pipeline") {
            Some(value) => items_of(value),
            None => None,
        },
        _ => None,
    }
}

/// Reads a pipeline's text, JSON (RFC 8259) as `serde_json` reads it: an array of stages, or an object whose member
/// `pipeline` is one. Of members with one name the last counts.
///
/// A stage is a text, the name of its file, or an object with the members `type`, `tag`, `inputs` (the tags of earlier
/// stages, as a text or an array of texts) and `filename`; the others are its options. Without a type the name's last four
/// bytes stand for one, in any case of the letters: `.las` for `writers.las`, and `.txt`, `.csv` or `.xyz` for
/// `writers.text`, in the last place of two or more; elsewhere `.las` for `readers.las`.
///
/// A reader takes nothing. Another stage takes those that its inputs name, in that order; without the member `inputs` it
/// takes, in ascending order, all earlier stages that no earlier stage takes.
///
/// The first fault is told. Of the whole text:
/// - `TextTooLong`: there are more than 1,048,576 bytes.
/// - `NotJson`: it isn't JSON, or not UTF-8.
/// - `NotAPipeline`: it is neither an array nor an object whose member `pipeline` is one.
/// - `Empty`, `TooManyStages`: there is no stage, or there are more than 64.
///
/// Then of each stage, one after another, with its number from 0 on:
/// - `BadStage`: it is neither a text nor an object; a member `type`, `tag` or `filename` is no text, or `inputs` neither a
///   text nor an array of texts; the tag isn't an ASCII letter with at most 63 ASCII letters, digits and `_` behind it;
///   there is neither a type nor a file name; the file name is empty.
/// - `TypeUnknown`: no type has the name.
/// - `CannotInfer`: there is no type, and the file name stands for none.
/// - `TagTwice`: an earlier stage has the tag.
/// - `TagUnknown`: an input is no earlier stage's tag.
/// - `InputOfReader`: a reader has inputs; an empty array is none.
/// - `NoInput`: another stage takes nothing.
/// - `UsedTwice`: a stage that it takes was taken before, by an earlier stage or at an earlier place of its inputs.
///
/// Then `Loose`, with the least number, where a stage other than the last isn't taken. `Memory` comes only where there
/// was none.
pub fn read_pipeline(alloc: Global, text: &[u8]) -> Result<RawTree, PipeErr>
    ensures ok { IfOk result (λ tree. tree_of text.now ≡ Ok (tree_view tree)) }
    ensures fault { IfErr result (λ e. IsToldFault (tree_of text.now) e) }
    ensures is_tree { IfOk result (λ tree. IsTree (tree_view tree)) }
{
    if text.len() > MOST_BYTES {
        return Err(PipeErr::Fault(PipeFault::TextTooLong));
    }
    let value = match Value::from_slice(alloc, text) {
        Ok(value) => value,
        Err(error) => {
            if error.is_memory() {
                return Err(PipeErr::Memory);
            }
            return Err(PipeErr::Fault(PipeFault::NotJson));
        }
    };
    match array_in(&value) {
        Some(list) => read_elements(alloc, list),
        None => Err(PipeErr::Fault(PipeFault::NotAPipeline)),
    }
}
