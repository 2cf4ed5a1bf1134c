//! The parts of an element of a pipeline.

ghost use Rattle.std.specs.Prelude.{◌≡◌, length, map, codes, filter, not, option_map, IfOk, is_err, is_some, string_bytes};
ghost use Rattle.std.specs.List.{list_all};
ghost use Rattle.serde_json.specs.Find.{get_member, as_str};
ghost use Rattle.serde_json.specs.View.{view, members_view};
ghost use Rattle.pipeline_json.specs.Shown.{parts_view};
ghost use Rattle.pipeline_json.specs.Stages.{part, is_malformed, inputs_in, parts_in, element_parts, is_own, without_own};

use serde_json::{Map, Value};
use std::alloc::AllocError;
use std::slice;

/// The members of an element that aren't options.
#[derive(Drop)]
pub(crate) struct Parts<'a> {
    pub(crate) kind: Option<&'a str>,
    pub(crate) tag: Option<&'a str>,
    pub(crate) inputs: Option<&'a [Value]>,
    pub(crate) filename: Option<&'a str>,
}

/// A member isn't of its form.
#[derive(Drop)]
pub(crate) struct Malformed;

/// The value of the member with this name, if the object has one.
pub fn member<'a>(members: &'a Map<String, Value>, name: &str) -> Option<&'a Value>
    ensures { option_map (λ v. view v.now) result ≡ get_member name.now (members_view members.now.entries) }
{
    members.get(name)
}

/// A member that is a text, if it stands.
fn text_member<'a>(
    members: &'a Map<String, Value>,
    name: &str,
) -> Result<Option<&'a str>, Malformed>
    ensures ok { IfOk result (λ t. option_map (λ s. s.now) t
        ≡ part as_str name.now (members_view members.now.entries)) }
    ensures bad { is_malformed as_str (get_member name.now (members_view members.now.entries)) ≡ is_err result }
{
    match member(members, name) {
        None => Ok(None),
        Some(value) => match value.as_str() {
            Some(text) => Ok(Some(text)),
            None => Err(Malformed),
        },
    }
}

/// Whether all are texts.
fn are_all_texts(items: &[Value]) -> bool
    ensures { result ≡ list_all (λ v. is_some (as_str (view v))) items.now }
{
    items.iter().all(|v| v.is_string())
}

/// The inputs that a value names: a text is the only one.
fn inputs_in(value: &Value) -> Option<&[Value]>
    ensures { option_map (λ s. map view s.now) result ≡ inputs_in (view value.now) }
{
    match value {
        Value::String(_) => Some(slice::from_ref(value)),
        Value::Array(list) => {
            if are_all_texts(list.as_slice()) {
                Some(list.as_slice())
            } else {
                None
            }
        }
        _ => None,
    }
}

/// The member `inputs`, if it stands.
fn inputs_member(members: &Map<String, Value>) -> Result<Option<&[Value]>, Malformed>
    ensures ok { IfOk result (λ t. option_map (λ s. map view s.now) t
        ≡ part inputs_in (codes "inputs") (members_view members.now.entries)) }
    ensures bad { is_malformed inputs_in (get_member (codes "inputs") (members_view members.now.entries))
        ≡ is_err result }
{
    match member(members, "inputs") {
        None => Ok(None),
        Some(value) => match inputs_in(value) {
            Some(items) => Ok(Some(items)),
            None => Err(Malformed),
        },
    }
}

/// The parts of an object.
fn parts_in(members: &Map<String, Value>) -> Option<Parts<'_>>
    ensures { option_map parts_view result ≡ parts_in (members_view members.now.entries) }
{
    let Ok(kind) = text_member(members, "type") else {
        return None;
    };
    let Ok(tag) = text_member(members, "tag") else {
        return None;
    };
    let Ok(inputs) = inputs_member(members) else {
        return None;
    };
    let Ok(filename) = text_member(members, "filename") else {
        return None;
    };
    Some(Parts {
        kind,
        tag,
        inputs,
        filename,
    })
}

/// The parts of an element: a text is a file name.
pub(crate) fn element_parts(value: &Value) -> Option<Parts<'_>>
    ensures { option_map parts_view result ≡ element_parts (view value.now) }
{
    match value {
        Value::String(text) => Some(Parts {
            kind: None,
            tag: None,
            inputs: None,
            filename: Some(text.as_str()),
        }),
        Value::Object(members) => parts_in(members),
        _ => None,
    }
}

/// Whether a member of this name is no option.
fn is_own(name: &str) -> bool
    ensures { result ≡ is_own name.now }
{
    name == "type" || name == "tag" || name == "inputs" || name == "filename"
}

/// Leaves the options.
fn retain_options(members: &mut Map<String, Value>)
    ensures { members.new.entries ≡ filter (λ e. not (is_own (string_bytes e.0))) members.old.entries }
{
    members.retain(|name, _| !is_own(name.as_str()))
}

/// The options of an object.
pub(crate) fn options_in(members: &Map<String, Value>) -> Result<Map<String, Value>, AllocError>
    ensures { IfOk result (λ options. members_view options.entries
        ≡ without_own (members_view members.now.entries)) }
{
    let mut options = members.clone()?;
    retain_options(&mut options);
    Ok(options)
}
