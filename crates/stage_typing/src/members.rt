//! Options as their members hold them.

ghost use Rattle.std.specs.Prelude.{◌≡◌, ◌≤◌, codes, length, option_map, true, IfOk, IfSome};
ghost use Rattle.std.specs.Option.{unwrap_or};
ghost use Rattle.serde_json.specs.Find.{as_str, get_member};
ghost use Rattle.serde_json.specs.View.{members_view};
ghost use Rattle.forward_rules.specs.Forwarded.{given_or};
ghost use Rattle.las_header.specs.Offsets.{IsOffset};
ghost use Rattle.las_header.specs.ScaleWords.{scale_of_nano};
ghost use Rattle.las_header.specs.Versions.{is_version, takes_format};
ghost use Rattle.stage_options.specs.Expressions.{condition_with};
ghost use Rattle.stage_options.specs.Seen.{given_view};
ghost use Rattle.stage_typing.specs.Typed.{option_in, whole_in, text_in, decimal_or, scale_in, offset_in, extra_dims_in, forward_in, format_in, takes_given, minor_in, las_fields_in, where_in, expression_in, assignments_in, ranges_in, ferries_in, groups_in, name_in, is_down};
ghost use Rattle.stage_options.specs.Values.{whole_of, decimal_of, truth_of};

pub(crate) mod shapes;

use decimal_coords::Scale;
use expr_lang::{Expr, ExprTree};
use file_devices::Name;
use forward_rules::{LasOpts, NameList};
use las_header::{Format, takes_format};
use limits_text::RangeList;
use option_texts::{ExtraDims, Groups, NamedFerries, extra_dims_of, forward_of, groups_of};
use pipeline_json::member;
use serde_json::{Map, Value};
use stage_options::{AssignList, Given, LasFields, name_from};
use std::alloc::{AllocError, Global};

/// The greatest offset, in nanounits.
const MOST_OFFSET: i64 = 999_999_999_999_999_999;

/// The last of several returns.
const LAST_RETURNS: Groups = Groups {
    first: false,
    last: true,
    intermediate: false,
    only: false,
};

/// What an option is given.
fn given<'a>(options: &'a Map<String, Value>, name: &str) -> Option<Given<'a>>
    ensures { option_map given_view result ≡ get_member name.now (members_view options.now.entries) }
{
    match member(options, name) {
        Some(value) => Some(Given::Json(value)),
        None => None,
    }
}

/// The whole number that an option is, or else this one.
pub(crate) fn whole_or(options: &Map<String, Value>, name: &str, default: u32) -> u32
    ensures { result ≡ unwrap_or (option_in whole_of name.now (members_view options.now.entries)) default }
{
    given(options, name)
        .and_then(|given| given.whole())
        .unwrap_or(default)
}

/// The whole number of this range that an option is.
pub(crate) fn whole_in(options: &Map<String, Value>, low: u32, high: u32, name: &str) -> Option<u32>
    ensures value { result ≡ whole_in low high name.now (members_view options.now.entries) }
    ensures low { IfSome result (λ n. low ≤ n) }
    ensures high { IfSome result (λ n. n ≤ high) }
{
    let whole = given(options, name)?.whole()?;
    if low <= whole && whole <= high {
        Some(whole)
    } else {
        None
    }
}

/// The number of 16 bits that an option is.
fn short_in(options: &Map<String, Value>, name: &str) -> Option<u16>
    ensures { result ≡ whole_in 0 65535 name.now (members_view options.now.entries) }
{
    match whole_in(options, 0, 65_535, name) {
        Some(whole) => Some(whole as u16),
        None => None,
    }
}

/// The point data record format that is given.
fn format_in(options: &Map<String, Value>) -> Option<Format>
    ensures { result ≡ format_in (members_view options.now.entries) }
{
    given(options, "dataformat_id")?.format()
}

/// Whether files of a version have points of the format, where one is given.
fn takes_given(format: Option<Format>, minor: u8) -> bool
    ensures { result ≡ takes_given format minor }
{
    match format {
        Some(format) => takes_format(minor, format),
        None => true,
    }
}

/// The minor version whose files have points of the format that is given.
fn minor_in(options: &Map<String, Value>, format: Option<Format>) -> Option<u8>
    requires { format ≡ format_in (members_view options.now.entries) }
    ensures value { result ≡ minor_in (members_view options.now.entries) }
    ensures version { is_version (given_or result 4) ≡ true }
    ensures takes { IfSome format (λ f. takes_format (given_or result 4) f ≡ true) }
{
    let minor = whole_in(options, 2, 4, "minor_version")? as u8;
    if takes_given(format, minor) {
        Some(minor)
    } else {
        None
    }
}

/// The decimal that an option is, in nanounits.
fn decimal_in(options: &Map<String, Value>, name: &str) -> Option<i64>
    ensures { result ≡ option_in decimal_of name.now (members_view options.now.entries) }
{
    given(options, name)?.decimal()
}

/// The decimal that an option is, or else this one, in nanounits.
pub(crate) fn decimal_or(options: &Map<String, Value>, name: &str, default: i64) -> i64
    ensures { result ≡ decimal_or default name.now (members_view options.now.entries) }
{
    decimal_in(options, name).unwrap_or(default)
}

/// The scale factor of so many nanounits.
fn scale_of_nano(nano: i64) -> Option<Scale>
    ensures { result ≡ scale_of_nano nano }
{
    Scale::new(nano)
}

/// The scale factor that an option is.
fn scale_in(options: &Map<String, Value>, name: &str) -> Option<Scale>
    ensures { result ≡ scale_in name.now (members_view options.now.entries) }
{
    scale_of_nano(decimal_in(options, name)?)
}

/// The offset that an option is, in nanounits.
fn offset_in(options: &Map<String, Value>, name: &str) -> Option<i64>
    ensures value { result ≡ offset_in name.now (members_view options.now.entries) }
    ensures small { IfSome result IsOffset }
{
    let offset = decimal_in(options, name)?;
    if -MOST_OFFSET <= offset && offset <= MOST_OFFSET {
        Some(offset)
    } else {
        None
    }
}

/// The truth value that an option is, or else this one.
pub(crate) fn truth_or(options: &Map<String, Value>, name: &str, default: bool) -> bool
    ensures { result ≡ unwrap_or (option_in truth_of name.now (members_view options.now.entries)) default }
{
    given(options, name)
        .and_then(|given| given.truth())
        .unwrap_or(default)
}

/// The text that an option is.
pub(crate) fn text_of<'a>(options: &'a Map<String, Value>, name: &str) -> Option<&'a str>
    ensures { option_map (λ s. s.now) result ≡ option_in as_str name.now (members_view options.now.entries) }
{
    given(options, name)?.text()
}

/// The text of so many bytes that an option is.
pub(crate) fn text_in<'a>(
    options: &'a Map<String, Value>,
    low: usize,
    high: usize,
    name: &str,
) -> Option<&'a str>
    ensures value { option_map (λ s. s.now) result
        ≡ text_in low high name.now (members_view options.now.entries) }
    ensures high { IfSome result (λ s. length s.now ≤ high) }
{
    let text = text_of(options, name)?;
    if low <= text.len() && text.len() <= high {
        Some(text)
    } else {
        None
    }
}

/// The identifier that an option is.
fn identifier_in(
    alloc: Global,
    options: &Map<String, Value>,
    name: &str,
) -> Result<Option<Name>, AllocError>
    ensures value { IfOk result (λ o. o ≡ text_in 0 32 name.now (members_view options.now.entries)) }
    ensures short { IfOk result (λ o. IfSome o (λ name. length name ≤ 32)) }
{
    match text_in(options, 0, 32, name) {
        Some(text) => Ok(Some(name_from(alloc, text)?)),
        None => Ok(None),
    }
}

/// The names of what is forwarded.
fn forward_in(alloc: Global, options: &Map<String, Value>) -> Result<NameList, AllocError>
    ensures { IfOk result (λ names. names ≡ forward_in (members_view options.now.entries)) }
{
    let Some(text) = text_of(options, "forward") else {
        return Ok(NameList::new(Vec::new(alloc)));
    };
    match forward_of(alloc, text)? {
        Some(names) => Ok(NameList::new(names.into_vec())),
        None => Ok(NameList::new(Vec::new(alloc))),
    }
}

/// The extra dimensions that a LAS writer is asked for.
pub(crate) fn extra_dims_in(
    alloc: Global,
    options: &Map<String, Value>,
) -> Result<Option<ExtraDims>, AllocError>
    ensures { IfOk result (λ dims. dims ≡ extra_dims_in (members_view options.now.entries)) }
{
    match text_of(options, "extra_dims") {
        Some(text) => extra_dims_of(alloc, text),
        None => Ok(None),
    }
}

/// What a LAS writer is told of its file.
pub(crate) fn las_fields(
    alloc: Global,
    options: &Map<String, Value>,
) -> Result<LasFields, AllocError>
    ensures { IfOk result (λ fields. fields ≡ las_fields_in (members_view options.now.entries)) }
{
    let format = format_in(options);
    let forward = forward_in(alloc, options)?;
    let system = identifier_in(alloc, options, "system_id")?;
    let software = identifier_in(alloc, options, "software_id")?;
    Ok(LasFields::new(LasOpts {
        format,
        minor: minor_in(options, format),
        scale: [
            scale_in(options, "scale_x"),
            scale_in(options, "scale_y"),
            scale_in(options, "scale_z"),
        ],
        offset: [
            offset_in(options, "offset_x"),
            offset_in(options, "offset_y"),
            offset_in(options, "offset_z"),
        ],
        forward,
        source_id: short_in(options, "filesource_id"),
        encoding: short_in(options, "global_encoding"),
        day: short_in(options, "creation_doy"),
        year: short_in(options, "creation_year"),
        system,
        software,
    }))
}

/// The condition that an option is.
fn condition_in(
    alloc: Global,
    options: &Map<String, Value>,
    name: &str,
) -> Result<Option<Expr>, AllocError>
    ensures { IfOk result (λ o. o ≡ option_in condition_with name.now (members_view options.now.entries)) }
{
    match given(options, name) {
        Some(given) => given.condition(alloc),
        None => Ok(None),
    }
}

/// Which points a stage judges, writes or shows.
pub(crate) fn where_in(
    alloc: Global,
    options: &Map<String, Value>,
) -> Result<Option<Expr>, AllocError>
    ensures { IfOk result (λ o. o ≡ where_in (members_view options.now.entries)) }
{
    condition_in(alloc, options, "where")
}

/// The condition of points that go on.
pub(crate) fn expression_in(alloc: Global, options: &Map<String, Value>) -> Result<Expr, AllocError>
    ensures { IfOk result (λ e. e ≡ expression_in (members_view options.now.entries)) }
{
    match condition_in(alloc, options, "expression")? {
        Some(expression) => Ok(expression),
        None => Ok(Expr::new(ExprTree::Number(0))),
    }
}

/// The assignments that are made.
pub(crate) fn assignments_in(
    alloc: Global,
    options: &Map<String, Value>,
) -> Result<AssignList, AllocError>
    ensures { IfOk result (λ list. list ≡ assignments_in (members_view options.now.entries)) }
{
    let Some(given) = given(options, "value") else {
        return Ok(AssignList::new(Vec::new(alloc)));
    };
    match given.assignments(alloc)? {
        Some(assignments) => Ok(AssignList::new(assignments)),
        None => Ok(AssignList::new(Vec::new(alloc))),
    }
}

/// The whole number that an option is.
pub(crate) fn number_in(options: &Map<String, Value>, name: &str) -> Option<u32>
    ensures { result ≡ option_in whole_of name.now (members_view options.now.entries) }
{
    given(options, name)?.whole()
}

/// Ranges of the values of dimensions.
pub(crate) fn ranges_in(
    alloc: Global,
    options: &Map<String, Value>,
) -> Result<RangeList, AllocError>
    ensures { IfOk result (λ list. list ≡ ranges_in (members_view options.now.entries)) }
{
    let Some(given) = given(options, "limits") else {
        return Ok(RangeList::new(Vec::new(alloc)));
    };
    match given.ranges(alloc)? {
        Some(ranges) => Ok(ranges),
        None => Ok(RangeList::new(Vec::new(alloc))),
    }
}

/// From which dimensions values go to which.
pub(crate) fn ferries_in(
    alloc: Global,
    options: &Map<String, Value>,
) -> Result<NamedFerries, AllocError>
    ensures { IfOk result (λ list. list ≡ ferries_in (members_view options.now.entries)) }
{
    let Some(given) = given(options, "dimensions") else {
        return Ok(NamedFerries::none(alloc));
    };
    match given.ferries(alloc)? {
        Some(ferries) => Ok(ferries),
        None => Ok(NamedFerries::none(alloc)),
    }
}

/// The groups of returns that go on: by default the last of several.
pub(crate) fn groups_in(options: &Map<String, Value>) -> Groups
    ensures { result ≡ groups_in (members_view options.now.entries) }
{
    text_of(options, "groups")
        .and_then(|text| groups_of(text))
        .unwrap_or(LAST_RETURNS)
}

/// The name that an option is.
pub(crate) fn name_in(
    alloc: Global,
    options: &Map<String, Value>,
    name: &str,
) -> Result<Name, AllocError>
    ensures { IfOk result (λ found. found ≡ name_in name.now (members_view options.now.entries)) }
{
    name_from(alloc, text_of(options, name).unwrap_or(""))
}

/// Whether points are put in order downwards.
pub(crate) fn is_down(options: &Map<String, Value>) -> bool
    ensures { result ≡ is_down (option_in as_str (codes "order") (members_view options.now.entries)) }
{
    match text_of(options, "order") {
        Some(text) => text == "DESC",
        None => false,
    }
}
