//! What is printed of a run that kept its outputs.

ghost use Rattle.std.specs.Prelude.{◌≡◌, ◌+◌, ◌≤◌, ◌++◌, codes, decimal, OnOk, OnErr};
ghost use Rattle.arrayvec.specs.ArrayString.{array_string_len};
ghost use Rattle.file_devices.specs.Counts.{HasCause};
ghost use Rattle.file_devices.specs.Content.{Appends, AppendsPart};
ghost use Rattle.run_report.specs.Reports.{report_of, stage_line, stage_text, tally_text, wrote_text, outputs_in};

use crate::tally::TallyLine;
use crate::text::{Text, push_number};
use arrayvec::{ArrayString, ArrayVec};
use file_devices::{Failed, Sink};
use stage_names::KindName;

/// What a stage gave on. The counts stand at the greatest u64.
#[derive(Clone, Copy, Debug, PartialEq, Eq)]
pub struct StageCount {
    /// The number of the stage, from 0 on.
    pub stage: u32,

    /// Its type.
    pub kind: KindName,

    /// How many views it gave on.
    pub views: u64,

    /// How many points it gave on.
    pub points: u64,

    /// How many points it wrote, of a writer, or showed, of a tally.
    pub wrote: Option<u64>,

    /// How many files it wrote.
    pub files: u64,

    /// What its tally says, where it has one.
    pub tally: Option<TallyLine>,
}

impl Default for StageCount {
    /// A reader that gave on nothing.
    fn default() -> Self {
        StageCount {
            stage: 0,
            kind: KindName::ReadersLas,
            views: 0,
            points: 0,
            wrote: None,
            files: 0,
            tally: None,
        }
    }
}

/// What each stage of a run gave on, in the order of the stages, which are at most 64.
pub type Report = ArrayVec<StageCount, 64>;

/// What is said of a stage: at most 192 bytes for its line, and 328 for that of its tally.
type StageText = ArrayString<520>;

/// How many points a writer wrote, or a tally's stage showed.
fn push_wrote(wrote: Option<u64>, text: &mut Text)
    requires { array_string_len text.old ≤ 120 }
    ensures bytes { text.new.bytes ≡ text.old.bytes ++ wrote_text wrote }
    ensures len { array_string_len text.new ≤ array_string_len text.old + 27 }
{
    if let Some(points) = wrote {
        text.push_str(" wrote ");
        push_number(points, text);
    }
}

/// The line of a stage.
fn stage_line(count: &StageCount) -> Text
    ensures { result.bytes ≡ stage_line count.now }
{
    let mut text = Text::new();
    text.push_str("stage ");
    push_number(count.stage as u64, &mut text);
    text.push_str(" ");
    text.push_str(count.kind.name());
    text.push_str(" views ");
    push_number(count.views, &mut text);
    text.push_str(" points ");
    push_number(count.points, &mut text);
    push_wrote(count.wrote, &mut text);
    text.push_str("\n");
    text
}

/// Puts the line of a tally behind the text, where a stage has one.
fn push_tally(tally: &Option<TallyLine>, text: &mut StageText)
    requires { array_string_len text.old ≤ 192 }
    ensures { text.new.bytes ≡ text.old.bytes ++ tally_text tally.now }
{
    if let Some(line) = tally {
        text.push_str("tally ");
        text.push_str(line.name.as_str());
        text.push_str(" ");
        text.push_str(line.text.as_str());
        text.push_str("\n");
    }
}

/// The line of a stage, and behind it that of its tally, where it has one.
fn stage_text(count: &StageCount) -> StageText
    ensures { result.bytes ≡ stage_text count.now }
{
    let mut text = StageText::new();
    text.push_str(stage_line(count).as_str());
    push_tally(&count.tally, &mut text);
    text
}

/// How many files the stages wrote; the number stands at the greatest u64.
fn outputs_in(counts: &[StageCount]) -> u64
    ensures { result ≡ outputs_in counts.now }
{
    let mut files: u64 = 0;
    for count in counts {
        files = files.saturating_add(count.files);
    }
    files
}

/// The line that says how many files were written.
fn outputs_line(outputs: u64) -> Text
    ensures { result.bytes ≡ codes "outputs " ++ decimal outputs ++ codes "\n" }
{
    let mut text = Text::new();
    text.push_str("outputs ");
    push_number(outputs, &mut text);
    text.push_str("\n");
    text
}

/// Appends the report of a run, by what each of its stages gave on: a line for each stage, behind it the line of its tally
/// where it has one, and the number of files that were written.
pub fn report_text<K: Sink>(report: &[StageCount], out: &mut K) -> Result<(), Failed>
    ensures ok { OnOk result (Appends (K.bytes out.old) (report_of report.now) (K.bytes out.new)) }
    ensures part { OnErr result (AppendsPart (K.bytes out.old) (report_of report.now) (K.bytes out.new)) }
    ensures cause { HasCause (K.faults out.old) (K.faults out.new) result }
{
    for count in report {
        let text = stage_text(count);
        out.append(text.as_bytes())?;
    }
    let text = outputs_line(outputs_in(report));
    out.append(text.as_bytes())
}
