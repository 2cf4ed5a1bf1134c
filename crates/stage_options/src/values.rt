//! The values of options.

ghost use Rattle.std.specs.Prelude.{◌≡◌, ◌∷◌, [], option_map, option_and_then, IfOk};
ghost use Rattle.serde_json.specs.Data.{number, string};
ghost use Rattle.serde_json.specs.Find.{as_str};
ghost use Rattle.serde_json.specs.View.{view, items_view, members_view, number_view};
ghost use Rattle.expr_lang.specs.Said.{condition_of, assignment_of_text};
ghost use Rattle.limits_text.specs.Texts.{ranges_of, bounds_of, polygon_of, point_of};
ghost use Rattle.option_texts.specs.ExtraDims.{extra_dims_of};
ghost use Rattle.option_texts.specs.Ferries.{ferries_of};
ghost use Rattle.stage_options.specs.Expressions.{condition_with, assignment_with, all_assignments, some_and_few, assignments_with};
ghost use Rattle.stage_options.specs.Values.{text_whole, whole_of, format_with, whole_nano, decimal_of, text_truth, truth_of};
ghost use Rattle.stage_options.specs.Values.{value_of};
ghost use Rattle.stage_options.specs.Seen.{given_view};

use decimal_coords::parse_decimal;
use expr_lang::{Assign, Expr, ExprErr, parse_assign, parse_expr};
use las_header::Format;
use limits_text::{
    Box3, Polygon, RangeList, TextErr, parse_bounds, parse_point, parse_polygon, parse_ranges,
};
use option_texts::{ExtraDims, NamedFerries, extra_dims_of, ferries_of};
use pipeline_json::member;
use serde_json::{Map, Number, Value};
use std::alloc::{AllocError, Global};

/// The most digits of a whole number that is a text.
const MOST_DIGITS: usize = 10;

/// The greatest size of a whole number that is a decimal.
const MOST_WHOLE: u64 = 4_000_000_000;

/// The most assignments of a stage.
const MOST_ASSIGNMENTS: usize = 64;

/// Nanounits in a unit.
const NANO: i64 = 1_000_000_000;

/// What an option is given.
#[derive(Clone, Copy)]
pub enum Given<'a> {
    /// The stage's file name.
    Name(&'a str),

    /// The value of another member.
    Json(&'a Value),
}

/// What the option of this name is given.
pub fn value_of<'a>(
    filename: Option<&'a str>,
    options: &'a Map<String, Value>,
    name: &str,
) -> Option<Given<'a>>
    ensures { option_map given_view result
        ≡ value_of name.now (option_map (λ s. s.now) filename.entry) (members_view options.now.entries) }
{
    if name == "filename" {
        return match filename {
            Some(text) => Some(Given::Name(text)),
            None => None,
        };
    }
    match member(options, name) {
        Some(value) => Some(Given::Json(value)),
        None => None,
    }
}

/// The whole number that a text writes: one to ten ASCII digits.
fn text_whole(text: &str) -> Option<u32>
    ensures { result ≡ text_whole text.now }
{
    let bytes = text.as_bytes();
    if bytes.len() == 0 || bytes.len() > MOST_DIGITS || bytes[0] == b'+' {
        return None;
    }
    text.parse::<u32>().ok()
}

/// The whole number that a number of JSON is.
fn number_whole(json: &Number) -> Option<u32>
    ensures { result ≡ whole_of (number (number_view json.now)) }
{
    u32::try_from(json.as_u64()?).ok()
}

/// A whole number in nanounits, where it is at most 4 * 10^9 in size.
fn whole_nano(whole: i64) -> Option<i64>
    ensures { result ≡ whole_nano whole }
{
    if whole.unsigned_abs() <= MOST_WHOLE {
        Some(whole * NANO)
    } else {
        None
    }
}

/// The decimal that a text writes, in nanounits.
fn text_decimal(text: &str) -> Option<i64>
    ensures { result ≡ decimal_of (string text.now) }
{
    parse_decimal(text).ok()
}

/// The truth value that a text is.
fn text_truth(text: &str) -> Option<bool>
    ensures { result ≡ text_truth text.now }
{
    match text {
        "true" => Some(true),
        "false" => Some(false),
        _ => None,
    }
}

/// The condition that a text is.
fn condition(alloc: Global, text: &str) -> Result<Option<Expr>, AllocError>
    ensures { IfOk result (λ o. o ≡ condition_of text.now) }
{
    match parse_expr(alloc, text) {
        Ok(expression) => Ok(Some(expression)),
        Err(ExprErr::Fault(_)) => Ok(None),
        Err(ExprErr::Memory) => Err(AllocError),
    }
}

/// The assignment that a text is.
fn assignment(alloc: Global, text: &str) -> Result<Option<Assign>, AllocError>
    ensures { IfOk result (λ o. o ≡ assignment_of_text text.now) }
{
    match parse_assign(alloc, text) {
        Ok(assignment) => Ok(Some(assignment)),
        Err(ExprErr::Fault(_)) => Ok(None),
        Err(ExprErr::Memory) => Err(AllocError),
    }
}

/// The box that a text is.
fn bounds(text: &str) -> Option<Box3>
    ensures { result ≡ bounds_of text.now }
{
    match parse_bounds(text) {
        Ok(bounds) => Some(bounds),
        Err(_) => None,
    }
}

/// The point that a text is.
fn point(text: &str) -> Option<(i64, i64)>
    ensures { result ≡ point_of text.now }
{
    match parse_point(text) {
        Ok(point) => Some(point),
        Err(_) => None,
    }
}

/// The ranges that a text is.
fn ranges(alloc: Global, text: &str) -> Result<Option<RangeList>, AllocError>
    ensures { IfOk result (λ o. o ≡ ranges_of text.now) }
{
    match parse_ranges(alloc, text) {
        Ok(ranges) => Ok(Some(ranges)),
        Err(TextErr::Fault(_)) => Ok(None),
        Err(TextErr::Memory) => Err(AllocError),
    }
}

/// The ring that a text is.
fn polygon(alloc: Global, text: &str) -> Result<Option<Polygon>, AllocError>
    ensures { IfOk result (λ o. o ≡ polygon_of text.now) }
{
    match parse_polygon(alloc, text) {
        Ok(polygon) => Ok(Some(polygon)),
        Err(TextErr::Fault(_)) => Ok(None),
        Err(TextErr::Memory) => Err(AllocError),
    }
}

/// The assignment that a value is.
fn assignment_with(alloc: Global, value: &Value) -> Result<Option<Assign>, AllocError>
    ensures { IfOk result (λ o. o ≡ assignment_with (view value.now)) }
{
    match value.as_str() {
        Some(text) => assignment(alloc, text),
        None => Ok(None),
    }
}

/// The assignment that a text is, as a list.
fn one_assignment(alloc: Global, text: Option<&str>) -> Result<Option<Vec<Assign>>, AllocError>
    ensures { IfOk result (λ o. option_map (λ list. list.items) o
        ≡ option_map (λ a. a ∷ []) (option_and_then assignment_of_text (option_map (λ s. s.now) text.entry))) }
{
    let Some(text) = text else {
        return Ok(None);
    };
    let Some(assignment) = assignment(alloc, text)? else {
        return Ok(None);
    };
    let mut list = Vec::new(alloc);
    list.push(assignment)?;
    Ok(Some(list))
}

/// The assignments that values are, where each is one.
fn assignments(alloc: Global, values: &[Value]) -> Result<Option<Vec<Assign>>, AllocError>
    ensures { IfOk result (λ o. option_map (λ list. list.items) o ≡ all_assignments (items_view values.now)) }
{
    let mut list = Vec::with_capacity(alloc, values.len())?;
    for value in values {
        match assignment_with(alloc, value)? {
            Some(assignment) => list.push_reserved(assignment),
            None => return Ok(None),
        }
    }
    Ok(Some(list))
}

/// The assignments, where there are 1 to 64.
fn some_and_few(list: Option<Vec<Assign>>) -> Option<Vec<Assign>>
    ensures { option_map (λ list. list.items) result
        ≡ option_and_then some_and_few (option_map (λ list. list.items) list) }
{
    let list = list?;
    if list.is_empty() || list.len() > MOST_ASSIGNMENTS {
        None
    } else {
        Some(list)
    }
}

impl<'a> Given<'a> {
    /// The whole number that is given.
    pub fn whole(self) -> Option<u32>
        ensures { result ≡ whole_of (given_view self.entry) }
    {
        match self {
            Given::Name(text) => text_whole(text),
            Given::Json(Value::Number(number)) => number_whole(number),
            Given::Json(Value::String(text)) => text_whole(text.as_str()),
            Given::Json(_) => None,
        }
    }

    /// The point data record format that is given by its number.
    pub fn format(self) -> Option<Format>
        ensures { result ≡ format_with (given_view self.entry) }
    {
        Format::of_number(u8::try_from(self.whole()?).ok()?)
    }

    /// The decimal that is given, in nanounits.
    pub fn decimal(self) -> Option<i64>
        ensures { result ≡ decimal_of (given_view self.entry) }
    {
        match self {
            Given::Name(text) => text_decimal(text),
            Given::Json(Value::Number(number)) => whole_nano(number.as_i64()?),
            Given::Json(Value::String(text)) => text_decimal(text.as_str()),
            Given::Json(_) => None,
        }
    }

    /// The truth value that is given.
    pub fn truth(self) -> Option<bool>
        ensures { result ≡ truth_of (given_view self.entry) }
    {
        match self {
            Given::Name(text) => text_truth(text),
            Given::Json(Value::Bool(truth)) => Some(*truth),
            Given::Json(Value::String(text)) => text_truth(text.as_str()),
            Given::Json(_) => None,
        }
    }

    /// The condition that is given. Refused only where memory is wanting.
    pub fn condition(self, alloc: Global) -> Result<Option<Expr>, AllocError>
        ensures { IfOk result (λ o. o ≡ condition_with (given_view self.entry)) }
    {
        match self.text() {
            Some(text) => condition(alloc, text),
            None => Ok(None),
        }
    }

    /// The assignments that are given, by a text or by an array of 1 to 64 texts. Refused only where memory is wanting.
    pub fn assignments(self, alloc: Global) -> Result<Option<Vec<Assign>>, AllocError>
        ensures { IfOk result (λ o. option_map (λ list. list.items) o
            ≡ assignments_with (given_view self.entry)) }
    {
        match self {
            Given::Json(Value::Array(values)) => {
                Ok(some_and_few(assignments(alloc, values.as_slice())?))
            }
            _ => one_assignment(alloc, self.text()),
        }
    }

    /// The box that is given.
    pub fn bounds(self) -> Option<Box3>
        ensures { result ≡ option_and_then bounds_of (as_str (given_view self.entry)) }
    {
        bounds(self.text()?)
    }

    /// The point that is given, in nanounits.
    pub fn point(self) -> Option<(i64, i64)>
        ensures { result ≡ option_and_then point_of (as_str (given_view self.entry)) }
    {
        point(self.text()?)
    }

    /// The ranges that are given. Refused only where memory is wanting.
    pub fn ranges(self, alloc: Global) -> Result<Option<RangeList>, AllocError>
        ensures { IfOk result (λ o. o ≡ option_and_then ranges_of (as_str (given_view self.entry))) }
    {
        match self.text() {
            Some(text) => ranges(alloc, text),
            None => Ok(None),
        }
    }

    /// The ring that is given. Refused only where memory is wanting.
    pub fn polygon(self, alloc: Global) -> Result<Option<Polygon>, AllocError>
        ensures { IfOk result (λ o. o ≡ option_and_then polygon_of (as_str (given_view self.entry))) }
    {
        match self.text() {
            Some(text) => polygon(alloc, text),
            None => Ok(None),
        }
    }

    /// The ferries that are given. Refused only where memory is wanting.
    pub fn ferries(self, alloc: Global) -> Result<Option<NamedFerries>, AllocError>
        ensures { IfOk result (λ o. o ≡ option_and_then ferries_of (as_str (given_view self.entry))) }
    {
        match self.text() {
            Some(text) => ferries_of(alloc, text),
            None => Ok(None),
        }
    }

    /// The extra dimensions that are given. Refused only where memory is wanting.
    pub fn extra_dims(self, alloc: Global) -> Result<Option<ExtraDims>, AllocError>
        ensures { IfOk result (λ o. o ≡ option_and_then extra_dims_of (as_str (given_view self.entry))) }
    {
        match self.text() {
            Some(text) => extra_dims_of(alloc, text),
            None => Ok(None),
        }
    }

    /// The text that is given.
    pub fn text(self) -> Option<&'a str>
        ensures { option_map (λ s. s.now) result ≡ as_str (given_view self.entry) }
    {
        match self {
            Given::Name(text) => Some(text),
            Given::Json(value) => value.as_str(),
        }
    }
}
