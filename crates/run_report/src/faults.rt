//! What is printed of a command that was refused.

ghost use Rattle.std.specs.Prelude.{◌≡◌, ◌+◌, ◌<◌, ◌≤◌, [], ◌++◌, codes, length, OnOk, OnErr};
ghost use Rattle.arrayvec.specs.ArrayString.{array_string_len};
ghost use Rattle.file_devices.specs.Counts.{HasCause};
ghost use Rattle.file_devices.specs.Content.{Appends, AppendsPart};
ghost use Rattle.run_report.specs.declared.refusal.Refusal.TheVariants.{Usage, Pipeline, Data, Device};
ghost use Rattle.run_report.specs.Lines.{line_bytes};
ghost use Rattle.run_report.specs.Faults.{axis_text, header_fault_text, record_text, vlr_fault_text, point_text, point_fault_text, fault_text, at_stage, place_text, op_text, fault_line};

use crate::refusal::{Fault, Place, Refusal};
use crate::text::{Text, push_number};
use cloud_points::PointFault;
use file_devices::{Failed, Name, Op, Sink};
use las_header::{HeaderAxis, HeaderFault};
use las_vlr::VlrFault;
use stage_names::PipeFault;

/// A line in three pieces. The middle one is a name that the refusal holds, so that no copy of it is made.
#[derive(Drop)]
struct Line<'a> {
    before: Text,
    name: &'a str,
    after: &'static str,
}

fn push_place(place: Place, text: &mut Text)
    requires { array_string_len text.old ≤ 100 }
    ensures bytes { text.new.bytes ≡ text.old.bytes ++ place_text place }
    ensures len { array_string_len text.new ≤ array_string_len text.old + 26 }
{
    match place {
        Place::PipelineFile => text.push_str("pipeline file"),
        Place::Generated => text.push_str("generated file"),
        Place::Stage(stage) => {
            text.push_str("stage ");
            push_number(stage as u64, text);
        }
        Place::Out => text.push_str("output"),
    }
}

fn op_name(op: Op) -> &'static str
    ensures name { result.now ≡ op_text op }
    ensures len { length result.now ≤ 6 }
{
    match op {
        Op::Open => "open",
        Op::Read => "read",
        Op::Create => "create",
        Op::Write => "write",
        Op::Patch => "patch",
        Op::Keep => "keep",
    }
}

fn axis_name(axis: HeaderAxis) -> &'static str
    ensures name { result.now ≡ axis_text axis }
    ensures len { length result.now ≤ 1 }
{
    match axis {
        HeaderAxis::X => "X",
        HeaderAxis::Y => "Y",
        HeaderAxis::Z => "Z",
    }
}

fn push_axis(before: &str, axis: HeaderAxis, after: &str, text: &mut Text)
    requires room { array_string_len text.old ≤ 40 }
    requires before { length before.now ≤ 12 }
    requires after { length after.now ≤ 32 }
    ensures bytes { text.new.bytes ≡ text.old.bytes ++ (before.now ++ axis_text axis ++ after.now) }
    ensures len { array_string_len text.new ≤ array_string_len text.old + 45 }
{
    text.push_str(before);
    text.push_str(axis_name(axis));
    text.push_str(after);
}

fn push_header_fault(fault: HeaderFault, text: &mut Text)
    requires { array_string_len text.old ≤ 40 }
    ensures bytes { text.new.bytes ≡ text.old.bytes ++ header_fault_text fault }
    ensures len { array_string_len text.new ≤ array_string_len text.old + 70 }
{
    match fault {
        HeaderFault::NotLas => text.push_str("not a LAS file"),
        HeaderFault::VersionNotRead => text.push_str("version not read"),
        HeaderFault::HeaderSize => text.push_str("header too short"),
        HeaderFault::Compressed => text.push_str("compressed points"),
        HeaderFault::FormatNotRead => text.push_str("point format not read"),
        HeaderFault::RecordTooShort => text.push_str("record too short for its format"),
        HeaderFault::PointsInHeader => text.push_str("points begin inside the header"),
        HeaderFault::ScaleNotPositive(axis) => push_axis("scale of ", axis, " not positive", text),
        HeaderFault::ScaleNotDecimal(axis) => {
            push_axis("scale of ", axis, " has no decimal of 9 places", text)
        }
        HeaderFault::OffsetOutOfRange(axis) => {
            push_axis("offset of ", axis, " out of range", text)
        }
    }
}

fn push_record(kind: &str, number: u32, after: &str, text: &mut Text)
    requires room { array_string_len text.old ≤ 40 }
    requires kind { length kind.now ≤ 5 }
    requires after { length after.now ≤ 30 }
    ensures bytes { text.new.bytes ≡ text.old.bytes ++ record_text kind.now number after.now }
    ensures len { array_string_len text.new ≤ array_string_len text.old + 55 }
{
    text.push_str(kind);
    push_number(number as u64, text);
    text.push_str(after);
}

fn push_vlr_fault(fault: VlrFault, text: &mut Text)
    requires { array_string_len text.old ≤ 40 }
    ensures bytes { text.new.bytes ≡ text.old.bytes ++ vlr_fault_text fault }
    ensures len { array_string_len text.new ≤ array_string_len text.old + 70 }
{
    match fault {
        VlrFault::TooManyVlrs => text.push_str("too many VLRs"),
        VlrFault::VlrPastPoints(number) => {
            push_record("VLR ", number, " ends after the points begin", text)
        }
        VlrFault::VlrPastEnd(number) => push_record("VLR ", number, " ends after the file", text),
        VlrFault::EvlrPastEnd(number) => push_record("EVLR ", number, " ends after the file", text),
    }
}

fn push_point(number: u64, text: &mut Text)
    requires { array_string_len text.old ≤ 100 }
    ensures bytes { text.new.bytes ≡ text.old.bytes ++ point_text number }
    ensures len { array_string_len text.new ≤ array_string_len text.old + 28 }
{
    text.push_str("point ");
    push_number(number, text);
    text.push_str(": ");
}

fn push_point_fault(fault: PointFault, text: &mut Text)
    requires { array_string_len text.old ≤ 40 }
    ensures bytes { text.new.bytes ≡ text.old.bytes ++ point_fault_text fault }
    ensures len { array_string_len text.new ≤ array_string_len text.old + 70 }
{
    match fault {
        PointFault::Cut(number) => {
            text.push_str("file ends before record ");
            push_number(number, text);
        }
        PointFault::NotHeld(number, dim) => {
            push_point(number, text);
            text.push_str(dim.name());
            text.push_str(" not held by the scale");
        }
        PointFault::ValueOutOfRange(number, dim) => {
            push_point(number, text);
            text.push_str(dim.name());
            text.push_str(" out of range");
        }
        PointFault::DivideByZero(number) => {
            push_point(number, text);
            text.push_str("division by zero");
        }
        PointFault::ArithOverflow(number) => {
            push_point(number, text);
            text.push_str("overflow");
        }
        PointFault::TooMany(number) => {
            push_point(number, text);
            text.push_str("more than 4294967295 points");
        }
    }
}

fn push_fault(fault: Fault, text: &mut Text)
    requires { array_string_len text.old ≤ 40 }
    ensures bytes { text.new.bytes ≡ text.old.bytes ++ fault_text fault }
    ensures len { array_string_len text.new ≤ array_string_len text.old + 70 }
{
    match fault {
        Fault::Header(fault) => push_header_fault(fault, text),
        Fault::Vlr(fault) => push_vlr_fault(fault, text),
        Fault::Point(fault) => push_point_fault(fault, text),
    }
}

/// What stands before a fault at a stage.
fn push_stage(stage: u32, text: &mut Text)
    requires { array_string_len text.old ≤ 40 }
    ensures bytes { text.new.bytes ≡ text.old.bytes ++ at_stage stage [] }
    ensures len { array_string_len text.new ≤ array_string_len text.old + 28 }
{
    text.push_str("stage ");
    push_number(stage as u64, text);
    text.push_str(": ");
}

/// A line without a name, with its end.
fn whole_line(mut text: Text) -> Line<'static>
    requires { array_string_len text < 192 }
    ensures { line_bytes result ≡ text.bytes ++ codes "\n" }
{
    text.push_str("\n");
    Line {
        before: text,
        name: "",
        after: "",
    }
}

fn words_line(words: &str) -> Line<'static>
    requires { length words.now ≤ 40 }
    ensures { line_bytes result ≡ codes "lasline: " ++ (words.now ++ codes "\n") }
{
    let mut text = Text::new();
    text.push_str("lasline: ");
    text.push_str(words);
    whole_line(text)
}

fn usage_line(place: usize) -> Line<'static>
    ensures { line_bytes result ≡ fault_line (Usage place) }
{
    let mut text = Text::new();
    text.push_str("lasline: usage: bad or missing word ");
    push_number(place as u64, &mut text);
    whole_line(text)
}

fn data_line(stage: u32, fault: Fault) -> Line<'static>
    ensures { line_bytes result ≡ fault_line (Data stage fault) }
{
    let mut text = Text::new();
    text.push_str("lasline: ");
    push_stage(stage, &mut text);
    push_fault(fault, &mut text);
    whole_line(text)
}

fn device_line(place: Place, op: Op) -> Line<'static>
    ensures { line_bytes result ≡ fault_line (Device place op) }
{
    let mut text = Text::new();
    text.push_str("lasline: device: ");
    push_place(place, &mut text);
    text.push_str(": ");
    text.push_str(op_name(op));
    text.push_str(" failed");
    whole_line(text)
}

/// The line of a fault at a stage of the pipeline, in which a name stands between words.
fn named_line<'a>(stage: u32, before: &str, name: &'a Name, after: &'static str) -> Line<'a>
    requires { length before.now ≤ 40 }
    ensures { line_bytes result ≡ codes "lasline: pipeline: "
        ++ (at_stage stage (before.now ++ name.now) ++ after.now) }
{
    let mut text = Text::new();
    text.push_str("lasline: pipeline: ");
    push_stage(stage, &mut text);
    text.push_str(before);
    Line {
        before: text,
        name: name.as_str(),
        after,
    }
}

/// The line of a fault at a stage of the pipeline, without a name.
fn stage_line(stage: u32, words: &str) -> Line<'static>
    requires { length words.now ≤ 40 }
    ensures { line_bytes result ≡ codes "lasline: pipeline: " ++ (at_stage stage words.now ++ codes "\n") }
{
    let mut text = Text::new();
    text.push_str("lasline: pipeline: ");
    push_stage(stage, &mut text);
    text.push_str(words);
    whole_line(text)
}

fn pipe_fault_line(fault: &PipeFault) -> Line<'_>
    ensures { line_bytes result ≡ fault_line (Pipeline fault.now) }
{
    match fault {
        PipeFault::TextTooLong => words_line("pipeline: text too long"),
        PipeFault::NotJson => words_line("pipeline: not JSON"),
        PipeFault::NotAPipeline => words_line("pipeline: no stage list"),
        PipeFault::Empty => words_line("pipeline: no stages"),
        PipeFault::TooManyStages => words_line("pipeline: more than 64 stages"),
        PipeFault::BadStage(i) => stage_line(*i, "malformed"),
        PipeFault::TypeUnknown(i) => stage_line(*i, "unknown type"),
        PipeFault::CannotInfer(i) => stage_line(*i, "no type for this file name"),
        PipeFault::TagTwice(i) => stage_line(*i, "tag used twice"),
        PipeFault::TagUnknown(i) => stage_line(*i, "unknown input"),
        PipeFault::InputOfReader(i) => stage_line(*i, "a reader takes no input"),
        PipeFault::NoInput(i) => stage_line(*i, "no input"),
        PipeFault::UsedTwice(i) => stage_line(*i, "input already taken"),
        PipeFault::Loose(i) => stage_line(*i, "output not used"),
        PipeFault::OptionUnknown(i, name) => named_line(*i, "unknown option ", name, "\n"),
        PipeFault::OptionMissing(i, name) => named_line(*i, "missing option ", name, "\n"),
        PipeFault::OptionValue(i, name) => named_line(*i, "bad value of option ", name, "\n"),
        PipeFault::SameOutput(i) => stage_line(*i, "output file already named"),
        PipeFault::PlugUnknown(i, name) => named_line(*i, "no plug ", name, "\n"),
        PipeFault::PlugTaken(i, name) => named_line(*i, "plug ", name, " already used\n"),
        PipeFault::DimUnknown(i, name) => named_line(*i, "unknown dimension ", name, "\n"),
        PipeFault::DimNotNumeric(i, name) => named_line(
            *i,
            "dimension ",
            name,
            " is not numeric\n",
        ),
        PipeFault::TooManyDims(i) => stage_line(*i, "more than 8 extra dimensions"),
    }
}

fn refusal_line(refusal: &Refusal) -> Line<'_>
    ensures { line_bytes result ≡ fault_line refusal.now }
{
    match refusal {
        Refusal::Usage(place) => usage_line(*place),
        Refusal::Pipeline(fault) => pipe_fault_line(fault),
        Refusal::Data(stage, fault) => data_line(*stage, *fault),
        Refusal::Device(place, op) => device_line(*place, *op),
        Refusal::Memory => words_line("out of memory"),
    }
}

/// Appends three pieces, one after another.
fn append_all<K: Sink>(before: &[u8], name: &[u8], after: &[u8], out: &mut K) -> Result<(), Failed>
    ensures ok { OnOk result (Appends (K.bytes out.old) (before.now ++ (name.now ++ after.now))
        (K.bytes out.new)) }
    ensures part { OnErr result (AppendsPart (K.bytes out.old) (before.now ++ (name.now ++ after.now))
        (K.bytes out.new)) }
    ensures cause { HasCause (K.faults out.old) (K.faults out.new) result }
{
    out.append(before)?;
    out.append(name)?;
    out.append(after)
}

/// Appends the line that says why a command was refused.
pub fn fault_text<K: Sink>(refusal: &Refusal, out: &mut K) -> Result<(), Failed>
    ensures ok { OnOk result (Appends (K.bytes out.old) (fault_line refusal.now) (K.bytes out.new)) }
    ensures part { OnErr result (AppendsPart (K.bytes out.old) (fault_line refusal.now) (K.bytes out.new)) }
    ensures cause { HasCause (K.faults out.old) (K.faults out.new) result }
{
    let line = refusal_line(refusal);
    append_all(
        line.before.as_bytes(),
        line.name.as_bytes(),
        line.after.as_bytes(),
        out,
    )
}
