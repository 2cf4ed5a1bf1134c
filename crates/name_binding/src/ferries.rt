//! Ferries with dimensions in place of names.

ghost use Rattle.std.specs.Prelude.{◌≡◌, ◌||◌, None, IfErr, IfOk, OnErr, OnOk};
ghost use Rattle.cloud_points.specs.ExtraNames.{dim_in};
ghost use Rattle.cloud_points.specs.Layouts.{holds};
ghost use Rattle.cloud_points.specs.declared.dims.Dim.{Dim as Dimension};
ghost use Rattle.expr_eval.specs.Bindings.{bound_dim, dim_of as dim_named};
ghost use Rattle.stage_names.specs.Faults.{IsFaultOf};
ghost use Rattle.name_binding.specs.Ferries.{with_target, with_targets, AreBehindSome, target_refused, ferry_refused, ferries_refused, ferry_bound, ferries_bound, ferried, is_target_of};
ghost use Rattle.name_binding.specs.Refusals.{refusal_of, refused};

use cloud_points::{AddFault, Dim, ExtraNames, Kind, Layout, dim_of};
use expr_eval::{Assignment, Assignments, BindErr, Bound, BoundTree, bind_name};
use file_devices::Name;
use option_texts::NamedFerry;
use stage_names::{PipeErr, PipeFault};
use stage_options::name_from;
use std::alloc::Global;

/// The most bytes of a new name.
const MOST_BYTES: usize = 32;

/// Why a name of stage i isn't bound.
pub(crate) fn refusal(i: u32, err: BindErr) -> PipeErr
    ensures { result ≡ refusal_of i err }
{
    match err {
        BindErr::Unknown(name) => PipeErr::Fault(PipeFault::DimUnknown(i, name)),
        BindErr::NotNumeric(name) => PipeErr::Fault(PipeFault::DimNotNumeric(i, name)),
        BindErr::Memory => PipeErr::Memory,
    }
}

/// The dimension of a name in the options of stage i.
pub(crate) fn bind_dim(
    alloc: Global,
    i: u32,
    name: &Name,
    layout: &Layout,
    names: &ExtraNames,
) -> Result<Dim, PipeErr>
    ensures ok { IfOk result (λ dim. dim ≡ dim_named names.now name.now) }
    ensures none { OnOk result (refused i (bound_dim (holds layout.now) names.now name.now) ≡ None) }
    ensures fault { IfErr result (IsFaultOf (refused i (bound_dim (holds layout.now) names.now name.now))) }
{
    match bind_name(alloc, name, layout, names) {
        Ok(dim) => Ok(dim),
        Err(err) => Err(refusal(i, err)),
    }
}

/// The dimension of a new name, which is added to the extra names.
fn add_name(alloc: Global, i: u32, name: &str, names: &mut ExtraNames) -> Result<Dim, PipeErr>
    requires new { dim_in name.now names.old ≡ None }
    ensures ok { IfOk result (λ dim. dim ≡ dim_named names.new name.now) }
    ensures names { OnOk result (names.new ≡ with_target names.old name.now) }
    ensures none { OnOk result (target_refused i names.old name.now None ≡ None) }
    ensures fault { IfErr result (IsFaultOf (target_refused i names.old name.now None)) }
    ensures same { OnErr result (names.new ≡ names.old) }
{
    if name.len() > MOST_BYTES {
        return Err(PipeErr::Fault(PipeFault::DimUnknown(i, name_from(alloc, name)?)));
    }
    match names.add(name) {
        Ok(place) => Ok(Dim::Extra(place)),
        Err(AddFault::Full) => Err(PipeErr::Fault(PipeFault::TooManyDims(i))),
        Err(AddFault::Memory) => Err(PipeErr::Memory),
    }
}

/// The dimension that takes a value; a new name is added to the extra names.
fn bind_target(alloc: Global, i: u32, name: &str, names: &mut ExtraNames) -> Result<Dim, PipeErr>
    ensures ok { IfOk result (λ dim. dim ≡ dim_named names.new name.now) }
    ensures names { OnOk result (names.new ≡ with_target names.old name.now) }
    ensures none { OnOk result (target_refused i names.old name.now (dim_in name.now names.old) ≡ None) }
    ensures fault { IfErr result (IsFaultOf (target_refused i names.old name.now (dim_in name.now names.old))) }
    ensures same { OnErr result (names.new ≡ names.old) }
{
    let Some(dim) = dim_of(name, names) else {
        return add_name(alloc, i, name, names);
    };
    match dim.kind() {
        Kind::Word => Err(PipeErr::Fault(PipeFault::DimNotNumeric(i, name_from(alloc, name)?))),
        _ => Ok(dim),
    }
}

/// A ferry from one dimension to another.
fn ferried(from: Dim, to: Dim) -> Assignment
    ensures { result ≡ ferried from to }
{
    Assignment {
        target: to,
        value: Bound::new(BoundTree::Dim(from)),
        only: None,
    }
}

/// A ferry of stage i with dimensions in place of names. A new target is added to the extra names.
fn bind_ferry(
    alloc: Global,
    i: u32,
    ferry: &NamedFerry,
    layout: &Layout,
    names: &mut ExtraNames,
) -> Result<Assignment, PipeErr>
    ensures ok { IfOk result (λ a. a ≡ ferry_bound names.old ferry.now) }
    ensures names { OnOk result (names.new ≡ with_target names.old ferry.now.to) }
    ensures none { OnOk result (ferry_refused i names.old (holds layout.now) ferry.now ≡ None) }
    ensures fault { IfErr result (IsFaultOf (ferry_refused i names.old (holds layout.now) ferry.now)) }
    ensures same { OnErr result (names.new ≡ names.old) }
{
    let from = match bind_dim(alloc, i, &ferry.from, layout, names) {
        Ok(from) => from,
        Err(err) => return Err(err),
    };
    match bind_target(alloc, i, ferry.to.as_str(), names) {
        Ok(to) => Ok(ferried(from, to)),
        Err(err) => Err(err),
    }
}

/// The ferries of stage i with dimensions in place of names, one after the other, where the points that it takes have the
/// dimensions of this set. New targets are added to the extra names, also those of the ferries before one that is refused.
pub(crate) fn bind_ferries(
    alloc: Global,
    i: u32,
    ferries: &[NamedFerry],
    layout: &Layout,
    names: &mut ExtraNames,
) -> Result<Assignments, PipeErr>
    ensures ok { IfOk result (λ b. b ≡ ferries_bound names.old ferries.now) }
    ensures names { OnOk result (names.new ≡ with_targets names.old ferries.now) }
    ensures none { OnOk result (ferries_refused i names.old (holds layout.now) ferries.now ≡ None) }
    ensures fault { IfErr result (IsFaultOf (ferries_refused i names.old (holds layout.now) ferries.now)) }
    ensures some { OnErr result (AreBehindSome names.old ferries.now names.new) }
{
    let Ok(mut bound) = Vec::with_capacity(alloc, ferries.len()) else {
        return Err(PipeErr::Memory);
    };
    for ferry in ferries {
        match bind_ferry(alloc, i, ferry, layout, names) {
            Ok(assignment) => bound.push_reserved(assignment),
            Err(err) => return Err(err),
        }
    }
    Ok(Assignments::new(bound))
}

/// The set with the targets of these put into it.
pub(crate) fn with_targets(layout: &Layout, list: &[Assignment]) -> Layout
    ensures { (dim : Dimension) → holds result dim ≡ (holds layout.now dim || is_target_of list.now dim) }
{
    let mut more = *layout;
    for assignment in list {
        more.add(assignment.target);
    }
    more
}
