//! The faults of options: unknown names, then missing options, then wrong values.

ghost use Rattle.std.specs.Prelude.{◌≡◌, not, is_some, map, option_map, string_bytes, find, None, IfOk, IfErr, OnOk};
ghost use Rattle.std.specs.BTreeMap.{keys, IsOrdered};
ghost use Rattle.std.specs.String.{string_cmp};
ghost use Rattle.std.specs.List.{filter, list_any};
ghost use Rattle.serde_json.specs.View.{members_view};
ghost use Rattle.stage_options.specs.Rules.{is_within, is_between, has_size, is_either, fits};
ghost use Rattle.stage_options.specs.Values.{value_of};
ghost use Rattle.stage_typing.specs.OptionFaults.{names_of, lesser, least, is_known, first_unknown, stands, is_missing, first_missing, is_wrong, holds_one, is_barred, first_wrong, fault_by};
ghost use Rattle.stage_names.specs.Faults.{IsFaultOf};
ghost use Rattle.stage_options.specs.Seen.{allowed_view, rule_view, rules_view, given_view};

use option_texts::{groups_of, is_columns, is_forward};
use serde_json::{Map, Value};
use stage_names::{PipeErr, PipeFault};
use stage_options::{Allowed, Given, Rule, is_source, is_target, name_from, value_of};
use std::alloc::{AllocError, Global};
use std::cmp::Ordering;

/// Whether a whole number is of this range.
fn is_within(low: u32, high: u32, number: u32) -> bool
    ensures { result ≡ is_within low high number }
{
    low <= number && number <= high
}

/// Whether a decimal is of this range.
fn is_between(low: i64, high: i64, nano: i64) -> bool
    ensures { result ≡ is_between low high nano }
{
    low <= nano && nano <= high
}

/// Whether a text has at least so many bytes and at most so many.
fn has_size(low: usize, high: usize, text: &str) -> bool
    ensures { result ≡ has_size low high text.now }
{
    low <= text.len() && text.len() <= high
}

/// Whether a text is one of two.
fn is_either(one: &str, other: &str, text: &str) -> bool
    ensures { result ≡ is_either one.now other.now text.now }
{
    text == one || text == other
}

/// Whether there is such a value. It takes it, so that who asks has none to drop.
fn is_there<T: Drop>(value: Option<T>) -> bool
    ensures { result ≡ is_some value }
{
    value.is_some()
}

/// Whether an option may hold a value. Refused only where memory is wanting.
fn fits(alloc: Global, allowed: Allowed, given: Given<'_>) -> Result<bool, AllocError>
    ensures { IfOk result (λ is. is ≡ fits (allowed_view allowed) (given_view given.entry)) }
{
    Ok(match allowed {
        Allowed::Whole(low, high) => given.whole().is_some_and(|n| is_within(low, high, n)),
        Allowed::Decimal(low, high) => given.decimal().is_some_and(|n| is_between(low, high, n)),
        Allowed::Format => given.format().is_some(),
        Allowed::Truth => given.truth().is_some(),
        Allowed::Sized(low, high) => given.text().is_some_and(|text| has_size(low, high, text)),
        Allowed::Text => given.text().is_some(),
        Allowed::Either(one, other) => given.text().is_some_and(|text| is_either(one, other, text)),
        Allowed::Exactly(only) => given.text().is_some_and(|text| text == only),
        Allowed::Columns => given.text().is_some_and(|text| is_columns(text)),
        Allowed::Forward => given.text().is_some_and(|text| is_forward(text)),
        Allowed::Source => given.text().is_some_and(|name| is_source(name)),
        Allowed::Target => given.text().is_some_and(|name| is_target(name)),
        Allowed::Bounds => given.bounds().is_some(),
        Allowed::Point => given.point().is_some(),
        Allowed::Ranges => is_there(given.ranges(alloc)?),
        Allowed::Polygon => is_there(given.polygon(alloc)?),
        Allowed::Groups => given.text().is_some_and(|text| groups_of(text).is_some()),
        Allowed::Ferries => is_there(given.ferries(alloc)?),
        Allowed::ExtraDims => is_there(given.extra_dims(alloc)?),
        Allowed::Condition => is_there(given.condition(alloc)?),
        Allowed::Assignments => is_there(given.assignments(alloc)?),
    })
}

/// Whether an option is there.
fn stands(filename: Option<&str>, options: &Map<String, Value>, name: &str) -> bool
    ensures { result ≡ stands (option_map (λ s. s.now) filename.entry) (members_view options.now.entries)
        name.now }
{
    value_of(filename, options, name).is_some()
}

/// Whether one of these options is there.
fn any_stands(filename: Option<&str>, options: &Map<String, Value>, names: &[&str]) -> bool
    ensures { result ≡ list_any (stands (option_map (λ s. s.now) filename.entry)
        (members_view options.now.entries)) (map (λ s. s.now) names.now) }
{
    for name in names {
        if stands(filename, options, name) {
            return true;
        }
    }
    false
}

/// Whether an option is there with a value that it may not hold.
fn is_wrong(
    alloc: Global,
    rule: &Rule,
    filename: Option<&str>,
    options: &Map<String, Value>,
) -> Result<bool, AllocError>
    ensures { IfOk result (λ is. is ≡ is_wrong ((rule_view rule.now).allowed)
        (value_of (rule_view rule.now).name (option_map (λ s. s.now) filename.entry) (members_view options.now.entries))) }
{
    match value_of(filename, options, rule.name()) {
        Some(value) => Ok(!fits(alloc, rule.allowed(), value)?),
        None => Ok(false),
    }
}

/// Whether an option that has to be there isn't.
fn is_missing(rule: &Rule, filename: Option<&str>, options: &Map<String, Value>) -> bool
    ensures { result ≡ is_missing ((rule_view rule.now).presence) ((rule_view rule.now).name)
        (option_map (λ s. s.now) filename.entry) (members_view options.now.entries) }
{
    match rule {
        Rule::Required(name, _) => !stands(filename, options, name),
        Rule::OneOf(name, _, before, behind) => {
            before.is_empty()
                && !(stands(filename, options, name) || any_stands(filename, options, behind))
        }
        Rule::AlongWith(name, _, other) => {
            stands(filename, options, other) && !stands(filename, options, name)
        }
        Rule::Optional(_, _) | Rule::Apart(_, _, _, _, _) => false,
    }
}

/// Whether an option is there with a value of this kind.
fn holds_one(
    alloc: Global,
    allowed: Allowed,
    filename: Option<&str>,
    options: &Map<String, Value>,
    name: &str,
) -> Result<bool, AllocError>
    ensures { IfOk result (λ is. is ≡ holds_one (allowed_view allowed)
        (value_of name.now (option_map (λ s. s.now) filename.entry) (members_view options.now.entries))) }
{
    match value_of(filename, options, name) {
        Some(value) => fits(alloc, allowed, value),
        None => Ok(false),
    }
}

/// Whether an option is there that may not be, or not with its value.
fn is_barred(
    alloc: Global,
    rule: &Rule,
    filename: Option<&str>,
    options: &Map<String, Value>,
) -> Result<bool, AllocError>
    ensures { IfOk result (λ is. is ≡ is_barred ((rule_view rule.now).presence) ((rule_view rule.now).name)
        (option_map (λ s. s.now) filename.entry) (members_view options.now.entries)) }
{
    match rule {
        Rule::OneOf(name, _, before, behind) => Ok(
            stands(filename, options, name)
                && any_stands(filename, options, before)
                && !any_stands(filename, options, behind),
        ),
        Rule::AlongWith(name, _, other) => {
            Ok(stands(filename, options, name) && !stands(filename, options, other))
        }
        Rule::Apart(name, _, these, other, those) => {
            Ok(
                holds_one(alloc, *these, filename, options, name)?
                    && holds_one(alloc, *those, filename, options, other)?,
            )
        }
        Rule::Required(_, _) | Rule::Optional(_, _) => Ok(false),
    }
}

/// Whether one of the options has this name.
fn is_known(table: &[Rule], name: &str) -> bool
    ensures { result ≡ is_known (rules_view table.now) name.now }
{
    for rule in table {
        if rule.name() == name {
            return true;
        }
    }
    false
}

/// The first option that has to be there and isn't.
fn first_missing(
    table: &[Rule],
    filename: Option<&str>,
    options: &Map<String, Value>,
) -> Option<&'static str>
    ensures { option_map (λ s. s.now) result
        ≡ first_missing (rules_view table.now) (option_map (λ s. s.now) filename.entry)
        (members_view options.now.entries) }
{
    for rule in table {
        if is_missing(rule, filename, options) {
            return Some(rule.name());
        }
    }
    None
}

/// The first option with a value that it may not hold, or that may not be there.
fn first_wrong(
    alloc: Global,
    table: &[Rule],
    filename: Option<&str>,
    options: &Map<String, Value>,
) -> Result<Option<&'static str>, AllocError>
    ensures { IfOk result (λ o. option_map (λ s. s.now) o
        ≡ first_wrong (rules_view table.now) (option_map (λ s. s.now) filename.entry) (members_view options.now.entries)) }
{
    for rule in table {
        if is_wrong(alloc, rule, filename, options)? || is_barred(alloc, rule, filename, options)? {
            return Ok(Some(rule.name()));
        }
    }
    Ok(None)
}

/// The first key that is no option's name.
fn unknown_key<'a>(table: &[Rule], options: &'a Map<String, Value>) -> Option<&'a String>
    ensures value { option_map (λ k. k.now) result
        ≡ find (λ k. not (is_known (rules_view table.now) (string_bytes k))) (keys options.now) }
    ensures ordered { IsOrdered string_cmp options.now }
{
    options.keys().find(|k| !is_known(table, k.as_str()))
}

/// The least key that is no option's name. The keys ascend.
fn least_key<'a>(table: &[Rule], options: &'a Map<String, Value>) -> Option<&'a str>
    ensures { option_map (λ k. k.now) result
        ≡ least (filter (λ name. not (is_known (rules_view table.now) name))
        (names_of (members_view options.now.entries))) }
{
    match unknown_key(table, options) {
        Some(key) => Some(key.as_str()),
        None => None,
    }
}

/// The lesser of two names, in the order of their bytes.
fn lesser<'a>(name: &'a str, other: Option<&'a str>) -> &'a str
    ensures { result.now ≡ lesser name.now (option_map (λ s. s.now) other.entry) }
{
    match other {
        Some(other) => match name.cmp(other) {
            Ordering::Greater => other,
            _ => name,
        },
        None => name,
    }
}

/// The least name that is no option's.
fn first_unknown<'a>(
    table: &[Rule],
    filename: Option<&str>,
    options: &'a Map<String, Value>,
) -> Option<&'a str>
    ensures { option_map (λ s. s.now) result
        ≡ first_unknown (rules_view table.now) (option_map (λ s. s.now) filename.entry)
        (members_view options.now.entries) }
{
    let key = least_key(table, options);
    if filename.is_some() && !is_known(table, "filename") {
        Some(lesser("filename", key))
    } else {
        key
    }
}

/// The first fault of stage i's options.
pub(crate) fn refuse(
    alloc: Global,
    table: &[Rule],
    filename: Option<&str>,
    options: &Map<String, Value>,
    i: u32,
) -> Result<(), PipeErr>
    ensures ok { OnOk result (fault_by i (rules_view table.now) (option_map (λ s. s.now) filename.entry)
        (members_view options.now.entries) ≡ None) }
    ensures fault { IfErr result (IsFaultOf
        (fault_by i (rules_view table.now) (option_map (λ s. s.now) filename.entry)
        (members_view options.now.entries))) }
{
    if let Some(name) = first_unknown(table, filename, options) {
        return Err(PipeErr::Fault(PipeFault::OptionUnknown(i, name_from(alloc, name)?)));
    }
    if let Some(name) = first_missing(table, filename, options) {
        return Err(PipeErr::Fault(PipeFault::OptionMissing(i, name_from(alloc, name)?)));
    }
    if let Some(name) = first_wrong(alloc, table, filename, options)? {
        return Err(PipeErr::Fault(PipeFault::OptionValue(i, name_from(alloc, name)?)));
    }
    Ok(())
}
