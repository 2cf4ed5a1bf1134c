//! The names of dimensions in options.

ghost use Rattle.std.specs.Prelude.{◌≡◌, ◌≤◌, ◌||◌, length, map, option_map, None, IfErr, IfOk, OnErr, OnOk};
ghost use Rattle.cloud_points.specs.Layouts.{holds};
ghost use Rattle.expr_eval.specs.Bindings.{bound_dim, bound_in, bound_assign, assign_of, dim_of as dim_named};
ghost use Rattle.cloud_points.specs.declared.dims.Dim.{Dim as Dimension};
ghost use Rattle.extra_bytes.specs.Asked.{AreOwn, asked_fault, asked_fields};
ghost use Rattle.extra_bytes.specs.Fields.{AreLaid};
ghost use Rattle.name_binding.specs.Binding.{IsLaidStage, asked_in, is_bound, first_unbound, assigns_refused, ranges_refused, dim_refused, filter_refused, limit_of, where_refused, own_refused, binding_fault, bound, bound_where, bound_filter, bound_with, bound_stage};
ghost use Rattle.name_binding.specs.Ferries.{names_behind, adds, AreBehindSome};
ghost use Rattle.stage_options.specs.Ferries.{ferries_in};
ghost use Rattle.name_binding.specs.Refusals.{refused};
ghost use Rattle.stage_options.specs.Where.{only_of};
ghost use Rattle.stage_names.specs.declared.faults.PipeFault.TheVariants.{DimUnknown};
ghost use Rattle.stage_names.specs.Faults.{IsFaultOf};

use crate::ferries::{bind_dim, bind_ferries, refusal, with_targets};
use crate::tiles::{edge_of, squares_of};
use cloud_points::{Dim, ExtraNames, FieldList, Layout, dim_of};
use expr_eval::{Assignment, Assignments, Bound, bind_assign, bind_expr};
use expr_lang::{Assign, Expr};
use extra_bytes::ask_fields;
use file_devices::Name;
use geo_tests::{Limit, Limits, Shape};
use limits_text::NamedRange;
use option_texts::{ExtraDims, Groups, NamedColumn};
use stage_names::{PipeErr, PipeFault};
use stage_options::{Options, name_from};
use std::alloc::Global;
use whole_filters::Gathering;

/// A stage's options with dimensions in place of names, by what the stage does.
#[derive(Drop)]
pub enum BoundStage {
    /// It reads a file.
    Reads,

    /// It is a filter of the points for which this condition holds; None is all.
    Filters(BoundFilter, Option<Bound>),

    /// It shows its points to a filter that the caller handed in: those for which this condition holds; None is all.
    Plugs(Option<Bound>),

    /// It needs whole views.
    Gathers(Gathering),

    /// It writes a file of the points for which this condition holds; None is all. The records of a LAS file hold these extra
    /// dimensions, the first of which begins behind the fields of the format.
    Writes(Option<Bound>, FieldList),

    /// It shows its points to a tally that the caller handed in: those for which this condition holds; None is all.
    Tallies(Option<Bound>),
}

/// A filter's options with dimensions in place of names, beside its `where`.
#[derive(Drop)]
pub enum BoundFilter {
    /// The points within these limits go on.
    Range(Limits),

    /// The points of this shape go on, or where it is said so, those outside.
    Crop(Shape, bool),

    /// Dimensions get values, in this order.
    Assign(Assignments),

    /// The points for which this condition holds go on.
    Expression(Bound),

    /// From one position that goes on to the next, the first one, and a position from which on none does; None is no limit.
    Decimation(u32, u32, Option<u32>),

    /// The first points of each view go on, so many.
    Head(u32),

    /// The returns of these groups go on.
    Returns(Groups),

    /// All points go on, in one view.
    Merge,
}

/// Whether a name is that of a dimension in the set.
fn is_bound(layout: &Layout, names: &ExtraNames, name: &str) -> bool
    ensures { result ≡ is_bound names.now (holds layout.now) name.now }
{
    match dim_of(name, names) {
        Some(dim) => layout.has(dim),
        None => false,
    }
}

/// The name of the first column that is no dimension in the set.
fn unbound_column<'a>(
    layout: &Layout,
    names: &ExtraNames,
    columns: &'a [NamedColumn],
) -> Option<&'a str>
    ensures { option_map (λ s. s.now) result ≡ first_unbound names.now (holds layout.now) columns.now }
{
    for column in columns {
        let name = column.name.as_str();
        if !is_bound(layout, names, name) {
            return Some(name);
        }
    }
    None
}

/// What a stage's names are bound to: the dimensions of this set, beside these extra names.
#[derive(Clone, Copy)]
struct Binder<'a> {
    alloc: Global,
    stage: u32,
    layout: &'a Layout,
    names: &'a ExtraNames,
}

impl<'a> Binder<'a> {
    fn expression(&self, expression: &Expr) -> Result<Bound, PipeErr>
        ensures ok { IfOk result (λ b. b ≡ bound self.now.names.now expression.now) }
        ensures none { OnOk result (refused self.now.stage
            (bound_in (holds self.now.layout.now) self.now.names.now expression.now) ≡ None) }
        ensures fault { IfErr result (IsFaultOf
            (refused self.now.stage (bound_in (holds self.now.layout.now) self.now.names.now
            expression.now))) }
    {
        match bind_expr(self.alloc, expression, self.layout, self.names) {
            Ok(bound) => Ok(bound),
            Err(err) => Err(refusal(self.stage, err)),
        }
    }

    /// The condition of the points that a stage with these options judges, writes or shows.
    fn only(&self, options: &Options) -> Result<Option<Bound>, PipeErr>
        ensures ok { IfOk result (λ b. b ≡ bound_where self.now.names.now (only_of options.now)) }
        ensures none { OnOk result (where_refused self.now.stage self.now.names.now
            (holds self.now.layout.now) (only_of options.now) ≡ None) }
        ensures fault { IfErr result (IsFaultOf
            (where_refused self.now.stage self.now.names.now (holds self.now.layout.now)
            (only_of options.now))) }
    {
        match options.only() {
            Some(condition) => Ok(Some(self.expression(condition)?)),
            None => Ok(None),
        }
    }

    fn assignment(&self, assignment: &Assign) -> Result<Assignment, PipeErr>
        ensures ok { IfOk result (λ a. a ≡ assign_of self.now.names.now assignment.now) }
        ensures none { OnOk result (refused self.now.stage
            (bound_assign (holds self.now.layout.now) self.now.names.now assignment.now) ≡ None) }
        ensures fault { IfErr result (IsFaultOf
            (refused self.now.stage (bound_assign (holds self.now.layout.now) self.now.names.now
            assignment.now))) }
    {
        match bind_assign(self.alloc, assignment, self.layout, self.names) {
            Ok(bound) => Ok(bound),
            Err(err) => Err(refusal(self.stage, err)),
        }
    }

    fn assignments(&self, list: &[Assign]) -> Result<Assignments, PipeErr>
        ensures ok { IfOk result (λ b. b ≡ map (assign_of self.now.names.now) list.now) }
        ensures none { OnOk result (assigns_refused self.now.stage self.now.names.now
            (holds self.now.layout.now) list.now ≡ None) }
        ensures fault { IfErr result (IsFaultOf
            (assigns_refused self.now.stage self.now.names.now (holds self.now.layout.now) list.now)) }
    {
        let mut bound = Vec::with_capacity(self.alloc, list.len())?;
        for assignment in list {
            bound.push_reserved(self.assignment(assignment)?);
        }
        Ok(Assignments::new(bound))
    }

    fn limit(&self, range: &NamedRange) -> Result<Limit, PipeErr>
        ensures ok { IfOk result (λ limit. limit ≡ limit_of self.now.names.now range.now) }
        ensures none { OnOk result (refused self.now.stage
            (bound_dim (holds self.now.layout.now) self.now.names.now range.now.name) ≡ None) }
        ensures fault { IfErr result (IsFaultOf
            (refused self.now.stage (bound_dim (holds self.now.layout.now) self.now.names.now
            range.now.name))) }
    {
        let dim = bind_dim(self.alloc, self.stage, &range.name, self.layout, self.names)?;
        Ok(Limit {
            dim,
            interval: range.interval,
        })
    }

    fn limits(&self, list: &[NamedRange]) -> Result<Limits, PipeErr>
        ensures ok { IfOk result (λ b. b ≡ map (limit_of self.now.names.now) list.now) }
        ensures none { OnOk result (ranges_refused self.now.stage self.now.names.now
            (holds self.now.layout.now) list.now ≡ None) }
        ensures fault { IfErr result (IsFaultOf
            (ranges_refused self.now.stage self.now.names.now (holds self.now.layout.now) list.now)) }
    {
        let mut bound = Vec::with_capacity(self.alloc, list.len())?;
        for range in list {
            bound.push_reserved(self.limit(range)?);
        }
        Ok(Limits::new(bound))
    }

    /// The dimension of a name, be it one of numbers or of words.
    fn dim(&self, name: &Name) -> Result<Dim, PipeErr>
        ensures ok { IfOk result (λ dim. dim ≡ dim_named self.now.names.now name.now) }
        ensures none { OnOk result (dim_refused self.now.stage self.now.names.now (holds self.now.layout.now)
            name.now ≡ None) }
        ensures fault { IfErr result (IsFaultOf
            (dim_refused self.now.stage self.now.names.now (holds self.now.layout.now) name.now)) }
    {
        if let Some(dim) = dim_of(name.as_str(), self.names) {
            if self.layout.has(dim) {
                return Ok(dim);
            }
        }
        let name = name_from(self.alloc, name.as_str())?;
        Err(PipeErr::Fault(PipeFault::DimUnknown(self.stage, name)))
    }

    /// The fields of the extra dimensions that a writer is asked for. They begin behind those of its format.
    fn extra(&self, dims: &Option<ExtraDims>) -> Result<FieldList, PipeErr>
        ensures ok { IfOk result (λ fields. fields ≡ asked_fields self.now.names.now 0
            (asked_in (holds self.now.layout.now) self.now.names.now dims.now)) }
        ensures none { OnOk result (asked_fault self.now.stage (holds self.now.layout.now) self.now.names.now
            (asked_in (holds self.now.layout.now) self.now.names.now dims.now) ≡ None) }
        ensures fault { IfErr result (IsFaultOf
            (asked_fault self.now.stage (holds self.now.layout.now) self.now.names.now
            (asked_in (holds self.now.layout.now) self.now.names.now dims.now))) }
        ensures laid { AreOwn self.now.names.now → IfOk result (AreLaid 0) }
        ensures few { IfOk result (λ fields. length fields ≤ 8) }
    {
        match dims {
            Some(dims) => ask_fields(self.alloc, dims, self.names, self.layout, self.stage, 0),
            None => Ok(FieldList::none(self.alloc)),
        }
    }

    /// Looks whether each column is a dimension.
    fn columns(&self, columns: &[NamedColumn]) -> Result<(), PipeErr>
        ensures none { OnOk result (first_unbound self.now.names.now (holds self.now.layout.now) columns.now
            ≡ None) }
        ensures fault { IfErr result (IsFaultOf
            (option_map (DimUnknown self.now.stage)
            (first_unbound self.now.names.now (holds self.now.layout.now) columns.now))) }
    {
        match unbound_column(self.layout, self.names, columns) {
            Some(name) => {
                let name = name_from(self.alloc, name)?;
                Err(PipeErr::Fault(PipeFault::DimUnknown(self.stage, name)))
            }
            None => Ok(()),
        }
    }
}

impl<'a> Binder<'a> {
    /// What a filter with these options does, where these are its ferries. Stages of other kinds give on what they take, as `merge`.
    fn filter(&self, options: &Options, ferries: Assignments) -> Result<BoundFilter, PipeErr>
        ensures bound { IfOk result (λ b. b ≡ bound_filter self.now.names.now ferries options.now) }
        ensures ok { OnOk result (filter_refused self.now.stage self.now.names.now (holds self.now.layout.now)
            options.now ≡ None) }
        ensures fault { IfErr result (IsFaultOf
            (filter_refused self.now.stage self.now.names.now (holds self.now.layout.now) options.now)) }
    {
        Ok(match options {
            Options::FiltersRange(o) => BoundFilter::Range(self.limits(o.limits.as_slice())?),
            Options::FiltersCrop(o) => {
                BoundFilter::Crop(o.shape.try_copy(self.alloc)?, o.outside)
            }
            Options::FiltersAssign(o) => {
                BoundFilter::Assign(self.assignments(o.assignments.as_slice())?)
            }
            Options::FiltersFerry(_) => BoundFilter::Assign(ferries),
            Options::FiltersExpression(o) => {
                BoundFilter::Expression(self.expression(&o.expression)?)
            }
            Options::FiltersDecimation(o) => { BoundFilter::Decimation(o.step, o.offset, o.limit) }
            Options::FiltersHead(o) => BoundFilter::Head(o.count),
            Options::FiltersReturns(o) => BoundFilter::Returns(o.groups),
            Options::FiltersMerge(_)
            | Options::ReadersLas(_)
            | Options::FiltersPlug(_)
            | Options::FiltersSort(_)
            | Options::FiltersTail(_)
            | Options::FiltersGroupby(_)
            | Options::FiltersSplitter(_)
            | Options::FiltersVoxeldownsize(_)
            | Options::WritersLas(_)
            | Options::WritersText(_)
            | Options::WritersTally(_) => BoundFilter::Merge,
        })
    }

    /// What a stage with these options does, where these are its ferries.
    fn stage(&self, options: &Options, ferries: Assignments) -> Result<BoundStage, PipeErr>
        ensures bound { IfOk result (λ b. b ≡ bound_with (holds self.now.layout.now) self.now.names.now ferries
            options.now) }
        ensures ok { OnOk result (own_refused self.now.stage self.now.names.now (holds self.now.layout.now)
            options.now ≡ None) }
        ensures fault { IfErr result (IsFaultOf
            (own_refused self.now.stage self.now.names.now (holds self.now.layout.now) options.now)) }
        ensures laid { AreOwn self.now.names.now → IfOk result IsLaidStage }
    {
        match options {
            Options::ReadersLas(_) => Ok(BoundStage::Reads),
            Options::FiltersPlug(_) => Ok(BoundStage::Plugs(self.only(options)?)),
            Options::FiltersSort(o) => {
                let dim = self.dim(&o.dimension)?;
                Ok(BoundStage::Gathers(Gathering::Sort(dim, o.down)))
            }
            Options::FiltersTail(o) => Ok(BoundStage::Gathers(Gathering::Tail(o.count))),
            Options::FiltersGroupby(o) => {
                let dim = self.dim(&o.dimension)?;
                Ok(BoundStage::Gathers(Gathering::GroupBy(dim)))
            }
            Options::FiltersSplitter(o) => {
                Ok(BoundStage::Gathers(Gathering::Squares(squares_of(o))))
            }
            Options::FiltersVoxeldownsize(o) => {
                Ok(BoundStage::Gathers(Gathering::Voxels(edge_of(o.cell))))
            }
            Options::WritersLas(o) => {
                let extra = self.extra(&o.extra)?;
                Ok(BoundStage::Writes(self.only(options)?, extra))
            }
            Options::WritersText(o) => {
                self.columns(o.columns.as_slice())?;
                Ok(BoundStage::Writes(self.only(options)?, FieldList::none(self.alloc)))
            }
            Options::WritersTally(_) => Ok(BoundStage::Tallies(self.only(options)?)),
            _ => {
                let filter = self.filter(options, ferries)?;
                Ok(BoundStage::Filters(filter, self.only(options)?))
            }
        }
    }
}

/// Binds the names of dimensions in the options of stage i, where the points that it takes have the dimensions of this set, and
/// the stages before it have added these extra names. The set becomes that of the points that it gives on, and the names those
/// behind the stage.
///
/// It is refused exactly where a name that isn't a ferry's target is none of them, or a ferry's new target has more than 32 bytes,
/// which is `DimUnknown`, or where GPS time stands in an expression or a ferry, which is `DimNotNumeric`, each with the first such
/// name, in the order of the options and of their texts, as it is spelled there; and where a ferry's new target would be the ninth
/// extra name, which is `TooManyDims`. `Memory` comes only where there was none. After a refusal the set is as before, and the
/// names are those behind the ferries that were bound.
pub fn bind(
    alloc: Global,
    options: &Options,
    i: u32,
    layout: &mut Layout,
    names: &mut ExtraNames,
) -> Result<BoundStage, PipeErr>
    ensures bound { IfOk result (λ b. b ≡ bound_stage (holds layout.old) names.old options.now) }
    ensures names { OnOk result (names.new ≡ names_behind names.old options.now) }
    ensures own { OnOk result (AreOwn names.old → AreOwn names.new) }
    ensures laid { AreOwn names.old → IfOk result IsLaidStage }
    ensures layout { OnOk result ((dim : Dimension)
        → holds layout.new dim ≡ (holds layout.old dim || adds names.old options.now dim)) }
    ensures ok { OnOk result (binding_fault i names.old (holds layout.old) options.now ≡ None) }
    ensures fault { IfErr result (IsFaultOf (binding_fault i names.old (holds layout.old) options.now)) }
    ensures same { OnErr result (layout.new ≡ layout.old) }
    ensures some { OnErr result (AreBehindSome names.old (ferries_in options.now) names.new) }
{
    let ferries = match bind_ferries(alloc, i, options.ferries(), layout, names) {
        Ok(ferries) => ferries,
        Err(err) => return Err(err),
    };
    let given = with_targets(layout, ferries.as_slice());
    let binder = Binder {
        alloc,
        stage: i,
        layout,
        names,
    };
    match binder.stage(options, ferries) {
        Ok(stage) => {
            *layout = given;
            Ok(stage)
        }
        Err(err) => Err(err),
    }
}
