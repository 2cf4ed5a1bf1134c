//! Ranges: `NAME[a:b]`, `NAME!(a:b]` and the like, separated by `,`.

ghost use Rattle.std.specs.Prelude.{◌≡◌, IfOk, IfErr, OnOk, Some, slice_range};
ghost use Rattle.limits_text.specs.Causes.{IsCause, IsRefused};
ghost use Rattle.limits_text.specs.Pieces.{IsRangesText};
ghost use Rattle.limits_text.specs.Texts.{ranges_of};
ghost use Rattle.limits_text.specs.Ranges.{any_interval, with_end, with_sign, interval_with, ends_range, name_with, ranges_with, begins_range, are_full, place_or, IsNamed};

use crate::control::{Control, WordKind};
use crate::faults::TextErr;
use crate::shapes::{Interval, NamedRange, RangeList};
use crate::steps::{NextWord, next_word, past_limit};
use file_devices::Name;
use std::alloc::{AllocError, Global};

/// The most ranges.
const RANGES: usize = 64;

/// What was read of ranges.
#[derive(Drop)]
struct Draft {
    ranges: Vec<NamedRange>,
    /// The latest range's.
    interval: Interval,
    /// Where the latest name begins.
    from: usize,
    /// Where the latest name ends.
    to: usize,
}

/// Nothing of an interval.
fn any_interval() -> Interval
    ensures { result ≡ any_interval }
{
    Interval {
        low: None,
        low_in: false,
        high: None,
        high_in: false,
        negated: false,
    }
}

/// With an end, in nanounits.
fn with_end(control: Control, value: i64, interval: &Interval) -> Interval
    ensures { result ≡ with_end control value interval.now }
{
    let mut new = *interval;
    match control {
        Control::Low => new.low = Some(value),
        Control::High => new.high = Some(value),
        _ => {}
    }
    new
}

/// With a sign.
fn with_sign(control: Control, sign: u8, interval: &Interval) -> Interval
    ensures { result ≡ with_sign control sign interval.now }
{
    let mut new = *interval;
    match control {
        Control::Named if sign == b'!' => new.negated = true,
        Control::Named | Control::Negated => new.low_in = sign == b'[',
        Control::High | Control::Close => new.high_in = sign == b']',
        _ => {}
    }
    new
}

/// With a word, where `control` came before it.
fn interval_with(control: Control, step: &NextWord, interval: &Interval) -> Interval
    ensures { result ≡ interval_with control step.now.kind step.now.value interval.now }
{
    match step.kind {
        WordKind::Name => any_interval(),
        WordKind::Number => with_end(control, step.value, interval),
        WordKind::Sign(sign) => with_sign(control, sign, interval),
    }
}

/// Whether a range's name comes next.
fn begins_range(control: Control) -> bool
    ensures { result ≡ begins_range control }
{
    matches!(control, Control::Name)
}

/// Whether a further range comes next and is one too many.
fn are_full(control: Control, count: usize) -> bool
    ensures { result ≡ are_full control count }
{
    matches!(control, Control::Name) && RANGES <= count
}

/// Whether the word ends a range.
fn ends_range(control: Control, kind: WordKind) -> bool
    ensures { result ≡ ends_range control kind }
{
    matches!(control, Control::High | Control::Close) && matches!(kind, WordKind::Sign(_))
}

/// Adds a word, where `control` came before it.
fn add_word(
    alloc: Global,
    text: &str,
    draft: &mut Draft,
    control: Control,
    step: &NextWord,
) -> Result<(), AllocError>
    requires named { IsNamed text.now draft.old.from draft.old.to }
    ensures interval { OnOk result (draft.new.interval
        ≡ interval_with control step.now.kind step.now.value draft.old.interval) }
    ensures name { OnOk result (slice_range text.now draft.new.from draft.new.to
        ≡ name_with control (slice_range text.now step.now.start step.now.end)
        (slice_range text.now draft.old.from draft.old.to)) }
    ensures ranges { OnOk result (draft.new.ranges.items
        ≡ ranges_with control step.now.kind (slice_range text.now draft.old.from draft.old.to)
        (interval_with control step.now.kind step.now.value draft.old.interval) draft.old.ranges.items) }
    ensures from { OnOk result (draft.new.from ≡ place_or control step.now.start draft.old.from) }
    ensures to { OnOk result (draft.new.to ≡ place_or control step.now.end draft.old.to) }
{
    draft.interval = interval_with(control, step, &draft.interval);
    if begins_range(control) {
        draft.from = step.start;
        draft.to = step.end;
        return Ok(());
    }
    if ends_range(control, step.kind) {
        let name = Name::new(String::from_str(alloc, &text[draft.from..draft.to])?);
        let interval = draft.interval;
        draft.ranges.push(NamedRange { name, interval })?;
    }
    Ok(())
}

/// The ranges whose pieces a text shows.
fn read_ranges(alloc: Global, text: &str) -> Result<Vec<NamedRange>, TextErr>
    ensures ok { IfOk result (λ rs. IsRangesText text.now rs.items) }
    ensures fault { IfErr result (λ e. IsCause Control.Name text.now e) }
{
    let mut draft = Draft {
        ranges: Vec::new(alloc),
        interval: any_interval(),
        from: 0,
        to: 0,
    };
    let mut control = Control::Name;
    let mut at = 0;
    loop {
        if are_full(control, draft.ranges.len()) {
            return Err(TextErr::Fault(past_limit(text, Control::Name, control, at)));
        }
        let Some(step) = next_word(text, Control::Name, control, at)? else {
            return Ok(draft.ranges);
        };
        add_word(alloc, text, &mut draft, control, &step)?;
        control = step.control;
        at = step.end;
    }
}

/// The 1 to 64 ranges of a text: `NAME[a:b]`, `NAME!(a:b]` and the like with `,` between them, the ends in nanounits. Or
/// the place of the text's fault, or that there was no memory.
pub fn parse_ranges(alloc: Global, text: &str) -> Result<RangeList, TextErr>
    ensures ok { IfOk result (λ rs. ranges_of text.now ≡ Some rs) }
    ensures fault { IfErr result (λ e. IsCause Control.Name text.now e) }
    ensures refused { IfErr result (λ e. IsRefused e (ranges_of text.now)) }
{
    match read_ranges(alloc, text) {
        Ok(ranges) => Ok(RangeList::new(ranges)),
        Err(err) => Err(err),
    }
}
