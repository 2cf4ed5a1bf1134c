//! Files of views.

ghost use Rattle.std.specs.Prelude.{IfSome};
ghost use Rattle.las_writer.specs.LasOutput.{IsForm};
ghost use Rattle.stage_kinds.specs.Files.{IsFileForm};

use crate::stages::{Made, Stage, drop_stage, make, text_form};
use cloud_points::{Dim, FieldList, Layout, Make, Point, PointFault, Spread};
use decimal_coords::Scale;
use file_devices::SureOut;
use forward_rules::LasForm;
use las_header::Format;
use las_vlr::VlrList;
use stage_kinds::{FileForm, StageWork, ViewFiles, Writing, write_view};
use std::alloc::{AllocError, Global};
use whole_filters::{Rows, Views};

const UNIT: i64 = 1_000_000_000;

/// The X of two points, of a view each, and the text of each view.
const PAIR: [(i64, &[u8]); 2] = [
    (7 * UNIT, b"\"X\",\"Y\",\"Z\"\n7.000,0.000,0.000\n"),
    (-UNIT, b"\"X\",\"Y\",\"Z\"\n-1.000,0.000,0.000\n"),
];

/// An X that leaves 32 bits where a step is a unit.
const FAR: i64 = 3_000_000_000 * UNIT;

/// What comes of two views of one point.
const GIVEN: [Made; 5] = [
    (Make::Points, 1),
    (Make::EndView, 0),
    (Make::Points, 1),
    (Make::EndView, 0),
    (Make::End(false, None), 0),
];

/// The fault of views, how many points and files are written of them, and whether they are cut.
type Judged = (Option<PointFault>, u64, usize, bool);

/// Views of one point each, with these X.
fn views_of(alloc: Global, each: &[i64]) -> Result<Views, AllocError> {
    let mut views = Views::none(alloc, &Layout::none());
    for x in each {
        let mut point = Point::zero();
        point.x = *x;
        views.push(&point)?;
        views.end_view()?;
    }
    Ok(views)
}

fn as_text(alloc: Global) -> Option<FileForm>
    ensures { IfSome result IsFileForm }
{
    Some(FileForm::Text(text_form(alloc).ok()?))
}

/// LAS 1.4 of format 0, whose steps are units.
fn las_form(alloc: Global) -> Option<LasForm>
    ensures { IfSome result IsForm }
{
    Some(LasForm {
        format: Format::F0,
        minor: 4,
        scale: [Scale::new(UNIT)?; 3],
        offset: [0; 3],
        source_id: 0,
        encoding: 0,
        guid: [0; 16],
        system: [0; 32],
        software: [0; 32],
        day: 0,
        year: 0,
        vlrs: VlrList::new(Vec::new(alloc)),
        evlrs: VlrList::new(Vec::new(alloc)),
        extra: FieldList::none(alloc),
    })
}

fn view_files(alloc: Global, form: FileForm, each: &[i64]) -> Option<ViewFiles>
    requires { IsFileForm form }
{
    let views = views_of(alloc, each).ok()?;
    Some(ViewFiles::new(views, Writing { form, only: None }))
}

fn judged(files: &ViewFiles) -> Judged {
    let cut = files.views().is_cut();
    (files.fault(), files.count(), files.files(), cut)
}

/// What is found of the two views as text, and what a stage gives of them.
fn given(alloc: Global) -> Option<(Judged, [Made; 5])> {
    let files = view_files(alloc, as_text(alloc)?, &PAIR.map(|row| row.0))?;
    let judged = judged(&files);
    let mut stage: Stage = StageWork::ViewFiles(files);
    let mut spread = Spread::new();
    let first = make(&mut stage, &mut spread);
    let first_end = make(&mut stage, &mut spread);
    let second = make(&mut stage, &mut spread);
    let second_end = make(&mut stage, &mut spread);
    let end = make(&mut stage, &mut spread);
    drop_stage(stage);
    Some((judged, [first, first_end, second, second_end, end]))
}

pub(crate) fn views_are_given_on_and_counted(alloc: Global) -> bool {
    given(alloc) == Some(((None, 2, 2, false), GIVEN))
}

/// The file of a view as text.
fn written(alloc: Global, view: &Rows) -> Option<SureOut> {
    let sink = SureOut::new(alloc, 200).ok()?;
    let form = FileForm::Text(text_form(alloc).ok()?);
    match write_view(alloc, sink, Writing { form, only: None }, view) {
        Ok((sink, _writing)) => Some(sink),
        Err(_) => None,
    }
}

/// Whether this is the text of a view of one point with this X.
fn is_text(alloc: Global, x: i64, text: &[u8]) -> Option<bool> {
    let views = views_of(alloc, &[x]).ok()?;
    let sink = written(alloc, views.view(0))?;
    Some(sink.bytes() == Some(text))
}

pub(crate) fn each_view_has_its_own_text(alloc: Global) -> bool {
    let mut right = true;
    for &(x, text) in &PAIR {
        right &= is_text(alloc, x, text) == Some(true);
    }
    right
}

/// What is found of views of one point with these X as LAS.
fn judged_as_las(alloc: Global, each: &[i64]) -> Option<Judged> {
    let files = view_files(alloc, FileForm::Las(las_form(alloc)?), each)?;
    let judged = judged(&files);
    drop_stage(StageWork::ViewFiles(files));
    Some(judged)
}

pub(crate) fn a_point_without_a_place_has_its_number_over_all_views(alloc: Global) -> bool {
    let far = Some((Some(PointFault::NotHeld(1, Dim::X)), 0, 0, true));
    judged_as_las(alloc, &[UNIT, FAR]) == far
        && judged_as_las(alloc, &[UNIT, UNIT]) == Some((None, 2, 2, false))
}
