//! What the works of stages are made of, by the options of the stage.

ghost use Rattle.std.specs.Prelude.{◌≡◌, ◌<◌, ◌≤◌, ℕ, Bool, List, [], All, Some, true, length, IfOk};
ghost use Rattle.stage_forms.specs.Below.{reads_in};
ghost use Rattle.stage_kinds.specs.Files.{IsFileForm};
ghost use Rattle.stage_names.specs.Kinds.{is_writer};
ghost use Rattle.stage_options.specs.Kinds.{kind_of};
ghost use Rattle.stage_options.specs.Seen.{role_view};
ghost use Rattle.stage_forms.specs.Starts.{IsBoundBehind, IsGood, fields_for, file_for, form_for, started, writes_as};
ghost use Rattle.cloud_points.specs.declared.dims.Dim.{Dim};
ghost use Rattle.extra_bytes.specs.Fields.{AreLaid};
ghost use Rattle.name_binding.specs.Binding.{IsLaidStage};
ghost use Rattle.plug_stages.specs.Handed.{Handed};

use crate::{las_form, text_form};
use cloud_points::{ExtraNames, FieldList};
use expr_eval::Bound;
use file_devices::Source;
use las_reader::LasReader;
use name_binding::{BoundFilter, BoundStage};
use stage_kinds::{FileForm, Making, StageForm, Writing};
use stage_options::{Options, Role};
use std::alloc::{AllocError, Global};
use stream_filters::{Condition, Crop, Decimation, Filter, Head, PointFilter};

/// A filter that does this with the points for which a condition holds, before all points.
fn filter_of(bound: BoundFilter, only: Option<Bound>) -> Filter
    ensures { result ≡ started bound only }
{
    match bound {
        BoundFilter::Range(limits) => Filter::Range(PointFilter::new(limits, only)),
        BoundFilter::Crop(shape, outside) => {
            Filter::Crop(PointFilter::new(Crop { shape, outside }, only))
        }
        BoundFilter::Assign(assignments) => { Filter::Assign(PointFilter::new(assignments, only)) }
        BoundFilter::Expression(condition) => {
            Filter::Expression(PointFilter::new(Condition(condition), only))
        }
        BoundFilter::Decimation(step, offset, limit) => {
            Filter::Decimation(PointFilter::new(
                Decimation {
                    step,
                    offset,
                    limit,
                },
                only,
            ))
        }
        BoundFilter::Returns(groups) => Filter::Returns(PointFilter::new(groups, only)),
        BoundFilter::Head(count) => Filter::Head(PointFilter::new(Head { count }, only)),
        BoundFilter::Merge => Filter::Merge,
    }
}

/// The form of the file that a writer with these options writes, with these extra dimensions, beside these extra names and behind the
/// readers of these numbers.
/// Refused only where memory is wanting.
fn file_form<S: Source>(
    alloc: Global,
    options: &Options,
    extra: FieldList,
    names: &ExtraNames,
    readers: &[Option<LasReader<S>>],
    below: &[u32],
) -> Result<FileForm, AllocError>
    requires writes { is_writer (kind_of options.now) ≡ true }
    requires inside { All (λ j. j < length readers.now) below.now }
    requires laid { AreLaid 0 extra }
    requires few { length extra ≤ 8 }
    ensures form { (has : Dim → Bool) (handed : Handed) → extra ≡ fields_for has names.now options.now
        → IfOk result (λ form. file_for options.now
        (record { names = names.now; reads = reads_in readers.now below.now; dims = has; fields = []; handed = handed })
        ≡ Some form) }
    ensures good { IfOk result IsFileForm }
{
    match options {
        Options::WritersLas(las) => Ok(FileForm::Las(las_form(
            alloc,
            &las.fields,
            extra,
            readers,
            below,
        )?)),
        Options::WritersText(text) => Ok(FileForm::Text(text_form(alloc, names, text)?)),
        _ => unreachable!(),
    }
}

/// What the work of a writer that does this is made of: it writes one file, or one of each view.
fn writes_as(role: Role<'_>, writing: Writing) -> StageForm
    requires { IsFileForm writing.form }
    ensures form { result ≡ writes_as (role_view role.entry) writing }
    ensures good { IsGood result }
{
    match role {
        Role::WritesEach(_) => StageForm::Gathers(Making::WritesEach(writing)),
        _ => StageForm::Writes(writing),
    }
}

/// What the work of a stage is made of, by its options and by these with dimensions in place of names, beside the extra names behind
/// it and behind the readers of these numbers, without extra dimensions of a file of its own. Refused only where memory is wanting.
pub fn stage_form<S: Source>(
    alloc: Global,
    options: &Options,
    bound: BoundStage,
    names: &ExtraNames,
    readers: &[Option<LasReader<S>>],
    below: &[u32],
) -> Result<StageForm, AllocError>
    requires bound { (has : Dim → Bool) × (before : List (List ℕ))
        × IsBoundBehind options.now bound has before names.now }
    requires laid { IsLaidStage bound }
    requires inside { All (λ j. j < length readers.now) below.now }
    ensures form { (has : Dim → Bool) (before : List (List ℕ)) (handed : Handed)
        → IsBoundBehind options.now bound has before names.now
        → IfOk result (λ form. form ≡ form_for options.now
        (record { names = before; reads = reads_in readers.now below.now; dims = has; fields = []; handed = handed })) }
    ensures good { IfOk result IsGood }
{
    match bound {
        BoundStage::Reads => Ok(StageForm::Reads(FieldList::none(alloc))),
        BoundStage::Filters(filter, only) => Ok(StageForm::Filters(filter_of(filter, only))),
        BoundStage::Plugs(only) => Ok(StageForm::Plugs(only)),
        BoundStage::Tallies(only) => Ok(StageForm::Tallies(only)),
        BoundStage::Gathers(gathering) => Ok(StageForm::Gathers(Making::Gathers(gathering))),
        BoundStage::Writes(only, extra) => {
            let form = file_form(alloc, options, extra, names, readers, below)?;
            Ok(writes_as(options.role(), Writing { form, only }))
        }
    }
}
