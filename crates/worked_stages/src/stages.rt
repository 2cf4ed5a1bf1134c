//! Stages that run by themselves.

ghost use Rattle.std.specs.Prelude.{◌≡◌, true, false, IfOk, IfSome};
ghost use Rattle.text_writer.specs.TextOutput.{IsTextForm};
ghost use Rattle.stage_kinds.specs.Stages.{is_leaf};

use cloud_points::{Dim, Make, Point, PointFault, Spread, StageFault, Work, put_points};
use file_devices::{MemIn, MemOut, Name, Op};
use las_reader::LasReader;
use plug_stages::{Bounds, Spike};
use recorded_files::two_points;
use stage_kinds::{FileForm, Held, StageWork, Writing, begin_file};
use std::alloc::{AllocError, Global};
use stream_filters::Filter;
use text_writer::{Column, ColumnList, Separator, TextForm};

/// A stage over devices in memory.
pub(crate) type Stage = StageWork<MemIn, MemOut, Spike, Bounds>;

/// What a leaf makes, and how many points it puts into the spread.
pub(crate) type Made = (Make, usize);

/// How many first bytes of a file of two points there are, and what its reader makes of them: points, the end of the view
/// where it comes, and the end.
const MADE: [(usize, Made, Option<Made>, Made); 2] = [
    (
        415,
        (Make::Points, 2),
        Some((Make::EndView, 0)),
        (Make::End(false, None), 0),
    ),
    (400, (Make::Points, 1), None, (CUT, 0)),
];

/// The end of a file whose second point is cut.
const CUT: Make = Make::End(true, Some(StageFault::Point(PointFault::Cut(1))));

/// What a leaf makes next, and how many points it puts into the spread.
pub(crate) fn make<W: Work>(leaf: &mut W, into: &mut Spread) -> Made
    requires { W.leaf leaf.old ≡ true }
    ensures { W.leaf leaf.new ≡ true }
{
    let made = leaf.make(64, into);
    (made, into.len())
}

/// The stage's fault at so many points that are zero, and how many go on.
fn hand<W: Work>(stage: &mut W, count: usize) -> (Option<StageFault>, usize)
    requires { W.leaf stage.old ≡ false }
    ensures { W.leaf stage.new ≡ false }
{
    let mut spread = Spread::new();
    let zeros = [Point::zero(); 64];
    put_points(&mut spread, &zeros[..count.min(64)]);
    if spread.is_empty() {
        return (None, 0);
    }
    let fault = stage.on_chunk(&mut spread);
    (fault, spread.len())
}

pub(crate) fn drop_stage(stage: Stage) {
    match stage.release() {
        Held::Source(source) => drop(source),
        Held::Sink(sink) => drop(sink),
        Held::Filter(_, _) | Held::Tally(_, _) | Held::Nothing => {}
    }
}

/// Lets a filter go, as the stage that has it does.
pub(crate) fn drop_filter(filter: Filter) {
    let stage: Stage = StageWork::Filter(filter);
    drop_stage(stage);
}

/// Whether the reader of so many first bytes of a file of two points is a leaf, and what it makes up to its end.
fn made(alloc: Global, size: usize, has_view: bool) -> Option<(bool, Made, Option<Made>, Made)> {
    let file = two_points();
    let content = Vec::from_slice(alloc, file.get(..size)?).ok()?;
    let Ok(reader) = LasReader::begin(alloc, MemIn::new(content, 7, Vec::new(alloc))) else {
        return None;
    };
    let mut stage: Stage = StageWork::Reader(reader);
    let leaf = stage.is_leaf();
    let mut spread = Spread::new();
    let points = make(&mut stage, &mut spread);
    let view = if has_view {
        Some(make(&mut stage, &mut spread))
    } else {
        None
    };
    let end = make(&mut stage, &mut spread);
    drop_stage(stage);
    Some((leaf, points, view, end))
}

pub(crate) fn a_reader_gives_its_points_and_its_end(alloc: Global) -> bool {
    let mut right = true;
    for &(size, points, view, end) in &MADE {
        right &= made(alloc, size, view.is_some()) == Some((true, points, view, end));
    }
    right
}

fn column(alloc: Global, dim: Dim) -> Result<Column, AllocError>
    ensures { IfOk result (λ c. c.places ≡ 3) }
{
    let name = Name::new(String::from_str(alloc, dim.name())?);
    Ok(Column {
        dim,
        name,
        places: 3,
    })
}

/// Text of X, Y and Z.
pub(crate) fn text_form(alloc: Global) -> Result<TextForm, AllocError>
    ensures { IfOk result (λ f. IsTextForm f) }
{
    let x = column(alloc, Dim::X)?;
    let y = column(alloc, Dim::Y)?;
    let z = column(alloc, Dim::Z)?;
    Ok(TextForm {
        columns: ColumnList::new(vec![in alloc; x, y, z]?),
        delimiter: Separator::new(Name::new(String::from_str(alloc, ",")?)),
        quote_header: true,
        write_header: true,
    })
}

/// A work that is no reader.
fn writer(alloc: Global, sink: MemOut) -> Option<Stage>
    ensures { IfSome result (λ w. is_leaf w ≡ false) }
{
    let form = FileForm::Text(text_form(alloc).ok()?);
    match begin_file(alloc, sink, Writing { form, only: None }) {
        Ok(stage) => Some(stage),
        Err(_) => None,
    }
}

/// What becomes of two points and then of one where the second of these appends fails.
fn written(alloc: Global) -> Option<[(Option<StageFault>, usize); 2]> {
    let fails = vec![in alloc; 3u64].ok()?;
    let mut stage = writer(alloc, MemOut::new(alloc, 200, fails).ok()?)?;
    let first = hand(&mut stage, 2);
    let second = hand(&mut stage, 1);
    drop_stage(stage);
    Some([first, second])
}

pub(crate) fn a_writer_lets_its_points_pass_until_its_sink_fails(alloc: Global) -> bool {
    written(alloc) == Some([(None, 2), (Some(StageFault::Device(Op::Write)), 0)])
}
