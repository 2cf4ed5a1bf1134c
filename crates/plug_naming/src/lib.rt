//! Whether the filters and tallies that stages name are there.
#![tactic(auto)]

ghost use Rattle.std.specs.Prelude.{◌≡◌, ◌<◌, ◌≤◌, None, IfErr, OnOk, is_some, length, option_map};
ghost use Rattle.answer_model.specs.Naming.{AreNamed, first_naming_fault, is_name, is_taken, naming_fault, unnamed};
ghost use Rattle.plug_naming.specs.First.{IsFirstFault};
ghost use Rattle.plug_naming.specs.Kinds.{kind_fault, names_of, natures_of};
ghost use Rattle.plug_stages.specs.Handed.{handed_by, named_in};
ghost use Rattle.stage_names.specs.Faults.{IsFaultOf};

use plug_stages::{Places, PlugFilter, PlugTally, has_filter, has_tally};
use stage_names::{PipeErr, PipeFault};
use stage_options::{StageSpec, name_from};
use std::alloc::Global;

/// Whether a stage names this one.
fn is_name(given: Option<&str>, name: &str) -> bool
    ensures { result ≡ is_name name.now (option_map (λ s. s.now) given.entry) }
{
    match given {
        Some(other) => other == name,
        None => false,
    }
}

/// What a stage may name of a caller's.
#[derive(Clone, Copy)]
enum Named {
    Filter,
    Tally,
}

/// The name of the one that a stage names, if it names one.
fn name_in(kind: Named, stage: &StageSpec) -> Option<&str>
    ensures { option_map (λ s. s.now) result ≡ names_of kind stage.now.options }
{
    match kind {
        Named::Filter => stage.options.plug(),
        Named::Tally => stage.options.tally(),
    }
}

/// Whether one of the first so many stages names this one.
fn is_taken(kind: Named, stages: &[StageSpec], count: usize, name: &str) -> bool
    requires { count ≤ length stages.now }
    ensures { result ≡ is_taken (names_of kind) stages.now name.now count }
{
    let mut taken = false;
    for at in 0..count {
        taken = is_name(name_in(kind, &stages[at]), name) || taken;
    }
    taken
}

/// Whether there is one of this name.
fn is_there<P: PlugFilter, Q: PlugTally>(kind: Named, places: &Places<P, Q>, name: &str) -> bool
    ensures { result ≡ is_some
        (named_in (natures_of kind (handed_by P.PlugFilter Q.PlugTally places.now)) name.now) }
{
    match kind {
        Named::Filter => has_filter(&places.filters, name),
        Named::Tally => has_tally(&places.tallies, name),
    }
}

/// Why a stage can't have what it names, by whether that is there, and whether an earlier stage names it.
fn check_name(
    alloc: Global,
    number: usize,
    there: bool,
    taken: bool,
    name: &str,
) -> Result<(), PipeErr>
    requires { number < 64 }
    ensures none { OnOk result (unnamed number there taken name.now ≡ None) }
    ensures fault { IfErr result (IsFaultOf (unnamed number there taken name.now)) }
{
    if !there {
        let name = name_from(alloc, name)?;
        return Err(PipeErr::Fault(PipeFault::PlugUnknown(number as u32, name)));
    }
    if taken {
        let name = name_from(alloc, name)?;
        return Err(PipeErr::Fault(PipeFault::PlugTaken(number as u32, name)));
    }
    Ok(())
}

/// Refuses exactly where a stage names one of this kind that isn't there, or that an earlier stage names, and for want of memory.
fn check_kind<P: PlugFilter, Q: PlugTally>(
    alloc: Global,
    kind: Named,
    stages: &[StageSpec],
    number: usize,
    places: &Places<P, Q>,
) -> Result<(), PipeErr>
    requires inside { number < length stages.now }
    requires few { length stages.now ≤ 64 }
    ensures none { OnOk result
        (kind_fault kind (handed_by P.PlugFilter Q.PlugTally places.now) stages.now number ≡ None) }
    ensures fault { IfErr result
        (IsFaultOf (kind_fault kind (handed_by P.PlugFilter Q.PlugTally places.now) stages.now number)) }
{
    match name_in(kind, &stages[number]) {
        Some(name) => {
            let there = is_there(kind, places, name);
            let taken = is_taken(kind, stages, number, name);
            check_name(alloc, number, there, taken, name)
        }
        None => Ok(()),
    }
}

/// Refuses exactly where a stage names a filter or a tally that isn't there, or one that an earlier stage names, and for want of
/// memory.
fn check_stage<P: PlugFilter, Q: PlugTally>(
    alloc: Global,
    stages: &[StageSpec],
    number: usize,
    places: &Places<P, Q>,
) -> Result<(), PipeErr>
    requires inside { number < length stages.now }
    requires few { length stages.now ≤ 64 }
    ensures none { OnOk result
        (naming_fault (handed_by P.PlugFilter Q.PlugTally places.now) stages.now number ≡ None) }
    ensures fault { IfErr result
        (IsFaultOf (naming_fault (handed_by P.PlugFilter Q.PlugTally places.now) stages.now number)) }
{
    match check_kind(alloc, Named::Filter, stages, number, places) {
        Ok(()) => check_kind(alloc, Named::Tally, stages, number, places),
        Err(error) => Err(error),
    }
}

/// Whether each filter and each tally that stages name is there, and no two stages name one. Refuses for the first stage of which that
/// isn't so, with `PlugUnknown` where what it names isn't there, and else with `PlugTaken`; and for want of memory.
pub fn check_names<P: PlugFilter, Q: PlugTally>(
    alloc: Global,
    stages: &[StageSpec],
    places: &Places<P, Q>,
) -> Result<(), PipeErr>
    requires few { length stages.now ≤ 64 }
    ensures named { OnOk result (AreNamed (handed_by P.PlugFilter Q.PlugTally places.now) stages.now) }
    ensures fault { IfErr result (IsFirstFault
        (first_naming_fault (handed_by P.PlugFilter Q.PlugTally places.now) stages.now)) }
{
    for number in 0..stages.len() {
        match check_stage(alloc, stages, number, places) {
            Ok(()) => {}
            Err(error) => return Err(error),
        }
    }
    Ok(())
}
