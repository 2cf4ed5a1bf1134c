//! The typed options of a stage, or their first fault.

ghost use Rattle.std.specs.Prelude.{◌≡◌, [], option_map, None, IfOk, IfErr, OnOk, IsTrue};
ghost use Rattle.std.specs.Option.{unwrap_or};
ghost use Rattle.serde_json.specs.View.{members_view};
ghost use Rattle.stage_typing.specs.Typed.{typed_of, is_named, range_options, crop_options, assign_options, ferry_options, expression_options, decimation_options, head_options, returns_options, plug_options, sort_options, tail_options, groupby_options, splitter_options, voxeldownsize_options, las_reader_options, las_writer_options, text_options_in, tally_options};
ghost use Rattle.stage_typing.specs.OptionFaults.{first_fault};
ghost use Rattle.stage_names.specs.Faults.{IsFaultOf};
ghost use Rattle.stage_options.specs.Values.{is_source, is_target};
ghost use Rattle.stage_options.specs.declared.options.Options.TheVariants as typed_as;

use crate::members::shapes::shape_in;
use crate::members::{
    assignments_in, decimal_or, expression_in, extra_dims_in, ferries_in, groups_in, is_down,
    las_fields, name_in, number_in, ranges_in, truth_or, where_in, whole_or,
};
use crate::text_files::text_options;
use crate::walks::refuse;
use serde_json::{Map, Value};
use stage_names::{KindName, PipeErr};
use stage_options::{
    AssignOptions, CropOptions, DecimationOptions, ExpressionOptions, FerryOptions, GroupbyOptions,
    HeadOptions, LasReaderOptions, LasWriterOptions, MergeOptions, Options, PlugOptions,
    RangeOptions, ReturnsOptions, SortOptions, SourceName, SplitterOptions, TailOptions,
    TallyOptions, TargetName, VoxeldownsizeOptions, name_from, rules_of,
};
use std::alloc::{AllocError, Global};

/// The name of a reader's file.
fn source_name(alloc: Global, filename: Option<&str>) -> Result<SourceName, AllocError>
    requires { IsTrue (is_source (unwrap_or (option_map (λ s. s.now) filename) [])) }
    ensures { IfOk result (λ name. name ≡ unwrap_or (option_map (λ s. s.now) filename.entry) []) }
{
    let name = name_from(alloc, filename.unwrap_or(""))?;
    Ok(SourceName::new(name))
}

/// The name of a writer's file.
fn target_name(alloc: Global, filename: Option<&str>) -> Result<TargetName, AllocError>
    requires { IsTrue (is_target (unwrap_or (option_map (λ s. s.now) filename) [])) }
    ensures { IfOk result (λ name. name ≡ unwrap_or (option_map (λ s. s.now) filename.entry) []) }
{
    let name = name_from(alloc, filename.unwrap_or(""))?;
    Ok(TargetName::new(name))
}

fn filters_range(alloc: Global, options: &Map<String, Value>) -> Result<Options, AllocError>
    ensures { IfOk result (λ o. o ≡ typed_as.FiltersRange (range_options (members_view options.now.entries))) }
{
    let limits = ranges_in(alloc, options)?;
    let only = where_in(alloc, options)?;
    Ok(Options::FiltersRange(RangeOptions { limits, only }))
}

fn filters_crop(alloc: Global, options: &Map<String, Value>) -> Result<Options, AllocError>
    ensures { IfOk result (λ o. o ≡ typed_as.FiltersCrop (crop_options (members_view options.now.entries))) }
{
    let shape = shape_in(alloc, options)?;
    let outside = truth_or(options, "outside", false);
    let only = where_in(alloc, options)?;
    Ok(Options::FiltersCrop(CropOptions {
        shape,
        outside,
        only,
    }))
}

fn filters_assign(alloc: Global, options: &Map<String, Value>) -> Result<Options, AllocError>
    ensures { IfOk result (λ o. o ≡ typed_as.FiltersAssign
        (assign_options (members_view options.now.entries))) }
{
    let assignments = assignments_in(alloc, options)?;
    let only = where_in(alloc, options)?;
    Ok(Options::FiltersAssign(AssignOptions { assignments, only }))
}

fn filters_ferry(alloc: Global, options: &Map<String, Value>) -> Result<Options, AllocError>
    ensures { IfOk result (λ o. o ≡ typed_as.FiltersFerry (ferry_options (members_view options.now.entries))) }
{
    let ferries = ferries_in(alloc, options)?;
    let only = where_in(alloc, options)?;
    Ok(Options::FiltersFerry(FerryOptions { ferries, only }))
}

fn filters_expression(alloc: Global, options: &Map<String, Value>) -> Result<Options, AllocError>
    ensures { IfOk result (λ o. o ≡ typed_as.FiltersExpression
        (expression_options (members_view options.now.entries))) }
{
    let expression = expression_in(alloc, options)?;
    let only = where_in(alloc, options)?;
    Ok(Options::FiltersExpression(ExpressionOptions { expression, only }))
}

fn filters_decimation(alloc: Global, options: &Map<String, Value>) -> Result<Options, AllocError>
    ensures { IfOk result (λ o. o ≡ typed_as.FiltersDecimation
        (decimation_options (members_view options.now.entries))) }
{
    let only = where_in(alloc, options)?;
    Ok(Options::FiltersDecimation(DecimationOptions {
        step: whole_or(options, "step", 1),
        offset: whole_or(options, "offset", 0),
        limit: number_in(options, "limit"),
        only,
    }))
}

fn filters_head(alloc: Global, options: &Map<String, Value>) -> Result<Options, AllocError>
    ensures { IfOk result (λ o. o ≡ typed_as.FiltersHead (head_options (members_view options.now.entries))) }
{
    let count = whole_or(options, "count", 10);
    let only = where_in(alloc, options)?;
    Ok(Options::FiltersHead(HeadOptions { count, only }))
}

fn filters_returns(alloc: Global, options: &Map<String, Value>) -> Result<Options, AllocError>
    ensures { IfOk result (λ o. o ≡ typed_as.FiltersReturns
        (returns_options (members_view options.now.entries))) }
{
    let groups = groups_in(options);
    let only = where_in(alloc, options)?;
    Ok(Options::FiltersReturns(ReturnsOptions { groups, only }))
}

fn filters_plug(alloc: Global, options: &Map<String, Value>) -> Result<Options, AllocError>
    ensures { IfOk result (λ o. o ≡ typed_as.FiltersPlug (plug_options (members_view options.now.entries))) }
{
    let plug = name_in(alloc, options, "plug")?;
    let only = where_in(alloc, options)?;
    Ok(Options::FiltersPlug(PlugOptions { plug, only }))
}

fn filters_sort(alloc: Global, options: &Map<String, Value>) -> Result<Options, AllocError>
    ensures { IfOk result (λ o. o ≡ typed_as.FiltersSort (sort_options (members_view options.now.entries))) }
{
    let dimension = name_in(alloc, options, "dimension")?;
    let down = is_down(options);
    Ok(Options::FiltersSort(SortOptions { dimension, down }))
}

fn filters_tail(options: &Map<String, Value>) -> Options
    ensures { result ≡ typed_as.FiltersTail (tail_options (members_view options.now.entries)) }
{
    let count = whole_or(options, "count", 10);
    Options::FiltersTail(TailOptions { count })
}

fn filters_groupby(alloc: Global, options: &Map<String, Value>) -> Result<Options, AllocError>
    ensures { IfOk result (λ o. o ≡ typed_as.FiltersGroupby
        (groupby_options (members_view options.now.entries))) }
{
    let dimension = name_in(alloc, options, "dimension")?;
    Ok(Options::FiltersGroupby(GroupbyOptions { dimension }))
}

fn filters_splitter(options: &Map<String, Value>) -> Options
    ensures { result ≡ typed_as.FiltersSplitter (splitter_options (members_view options.now.entries)) }
{
    Options::FiltersSplitter(SplitterOptions {
        length: decimal_or(options, "length", 1),
        origin_x: decimal_or(options, "origin_x", 0),
        origin_y: decimal_or(options, "origin_y", 0),
    })
}

fn filters_voxeldownsize(options: &Map<String, Value>) -> Options
    ensures { result ≡ typed_as.FiltersVoxeldownsize
        (voxeldownsize_options (members_view options.now.entries)) }
{
    let cell = decimal_or(options, "cell", 1);
    Options::FiltersVoxeldownsize(VoxeldownsizeOptions { cell })
}

fn readers_las(
    alloc: Global,
    filename: Option<&str>,
    options: &Map<String, Value>,
) -> Result<Options, AllocError>
    requires { IsTrue (is_source (unwrap_or (option_map (λ s. s.now) filename) [])) }
    ensures { IfOk result (λ o. o ≡ typed_as.ReadersLas
        (las_reader_options (unwrap_or (option_map (λ s. s.now) filename.entry) [])
        (members_view options.now.entries))) }
{
    let filename = source_name(alloc, filename)?;
    let extra = truth_or(options, "use_eb_vlr", false);
    Ok(Options::ReadersLas(LasReaderOptions { filename, extra }))
}

fn writers_las(
    alloc: Global,
    filename: Option<&str>,
    options: &Map<String, Value>,
) -> Result<Options, AllocError>
    requires { IsTrue (is_target (unwrap_or (option_map (λ s. s.now) filename) [])) }
    ensures { IfOk result (λ o. o ≡ typed_as.WritersLas
        (las_writer_options (unwrap_or (option_map (λ s. s.now) filename.entry) []) (members_view options.now.entries))) }
{
    let filename = target_name(alloc, filename)?;
    let fields = las_fields(alloc, options)?;
    let extra = extra_dims_in(alloc, options)?;
    let only = where_in(alloc, options)?;
    Ok(Options::WritersLas(LasWriterOptions {
        filename,
        fields,
        extra,
        only,
    }))
}

fn writers_text(
    alloc: Global,
    filename: Option<&str>,
    options: &Map<String, Value>,
) -> Result<Options, AllocError>
    requires { IsTrue (is_target (unwrap_or (option_map (λ s. s.now) filename) [])) }
    ensures { IfOk result (λ o. o ≡ typed_as.WritersText
        (text_options_in (unwrap_or (option_map (λ s. s.now) filename.entry) []) (members_view options.now.entries))) }
{
    let filename = target_name(alloc, filename)?;
    Ok(Options::WritersText(text_options(alloc, filename, options)?))
}

fn writers_tally(alloc: Global, options: &Map<String, Value>) -> Result<Options, AllocError>
    ensures { IfOk result (λ o. o ≡ typed_as.WritersTally (tally_options (members_view options.now.entries))) }
{
    let tally = name_in(alloc, options, "tally")?;
    let only = where_in(alloc, options)?;
    Ok(Options::WritersTally(TallyOptions { tally, only }))
}

/// The options of a stage of this type, with this file name and these other members.
fn typed(
    alloc: Global,
    kind: KindName,
    filename: Option<&str>,
    options: &Map<String, Value>,
) -> Result<Options, AllocError>
    requires { IsTrue (is_named kind (option_map (λ s. s.now) filename)) }
    ensures { IfOk result (λ o. o ≡ typed_of kind (option_map (λ s. s.now) filename.entry)
        (members_view options.now.entries)) }
{
    match kind {
        KindName::ReadersLas => readers_las(alloc, filename, options),
        KindName::FiltersRange => filters_range(alloc, options),
        KindName::FiltersCrop => filters_crop(alloc, options),
        KindName::FiltersAssign => filters_assign(alloc, options),
        KindName::FiltersFerry => filters_ferry(alloc, options),
        KindName::FiltersExpression => filters_expression(alloc, options),
        KindName::FiltersDecimation => filters_decimation(alloc, options),
        KindName::FiltersHead => filters_head(alloc, options),
        KindName::FiltersReturns => filters_returns(alloc, options),
        KindName::FiltersPlug => filters_plug(alloc, options),
        KindName::FiltersMerge => Ok(Options::FiltersMerge(MergeOptions {})),
        KindName::FiltersSort => filters_sort(alloc, options),
        KindName::FiltersTail => Ok(filters_tail(options)),
        KindName::FiltersGroupby => filters_groupby(alloc, options),
        KindName::FiltersSplitter => Ok(filters_splitter(options)),
        KindName::FiltersVoxeldownsize => Ok(filters_voxeldownsize(options)),
        KindName::WritersLas => writers_las(alloc, filename, options),
        KindName::WritersText => writers_text(alloc, filename, options),
        KindName::WritersTally => writers_tally(alloc, options),
    }
}

/// The options of stage i, of this type, with this file name and these other members, or their first fault. The other
/// members hold neither the file name nor the type, the tag and the inputs.
pub(crate) fn type_options(
    alloc: Global,
    kind: KindName,
    filename: Option<&str>,
    options: &Map<String, Value>,
    i: u32,
) -> Result<Options, PipeErr>
    ensures no_fault { OnOk result (first_fault i kind (option_map (λ s. s.now) filename.entry)
        (members_view options.now.entries) ≡ None) }
    ensures ok { IfOk result (λ o. o ≡ typed_of kind (option_map (λ s. s.now) filename.entry)
        (members_view options.now.entries)) }
    ensures fault { IfErr result (IsFaultOf
        (first_fault i kind (option_map (λ s. s.now) filename.entry) (members_view options.now.entries))) }
{
    refuse(alloc, rules_of(kind), filename, options, i)?;
    Ok(typed(alloc, kind, filename, options)?)
}
