//! The files of a run are kept.

ghost use Rattle.std.specs.Prelude.{◌≡◌, ◌≤◌, ◌+◌, ℕ, Bool, List, [], Option, length, OnOk, IfErr};
ghost use Rattle.file_devices.specs.Counts.{Rose};
ghost use Rattle.plug_stages.specs.Handed.{filter_nature, tally_nature_at};
ghost use Rattle.plug_stages.specs.Out.{AreOut};
ghost use Rattle.stage_kinds.specs.Held.{held_by, op_of};
ghost use Rattle.stage_options.specs.Roles.{role_of};
ghost use Rattle.answer_model.specs.Values.{op_for};
ghost use Rattle.stage_forms.specs.Starts.{HaveDevices};
ghost use Rattle.held_devices.specs.Handing.{FiltersOut, TalliesOut, with_filter, with_tally};
ghost use Rattle.held_devices.specs.Holding.{there, all_held};
ghost use Rattle.run_ending.specs.Keeping.{kept_one, kept_first, NotKept, BrokeOff};
ghost use Rattle.run_ending.specs.Putting.{ArePut};

use file_devices::{DeviceErr, Files, Op};
use held_devices::release_works;
use plug_stages::{Places, PlugFilter, PlugTally, put_back};
use run_report::{Place, Refusal};
use stage_kinds::{Held, StageWork};
use stage_options::{Role, StageSpec};

/// Keeps the file of a stage under its name, if it writes one; any other is given back, and a filter or a tally is put back into its
/// place.
fn keep_work<F: Files, P: PlugFilter, Q: PlugTally>(
    files: &mut F,
    places: &mut Places<P, Q>,
    work: StageWork<F::In, F::Out, P, Q>,
    stage: &StageSpec,
    number: u32,
) -> Result<(), Refusal>
    requires { op_of work ≡ op_for (role_of stage.now.options) }
    ensures ok { OnOk result (F.map files.new
        ≡ kept_one F.Out.bytes (F.map files.old) (role_of stage.now.options) work) }
    ensures err { IfErr result (NotKept (Rose (F.faults files.old) (F.faults files.new)) number
        (role_of stage.now.options) (F.map files.old) (F.map files.new)
        (kept_one F.Out.bytes (F.map files.old) (role_of stage.now.options) work)) }
    ensures lent { (others : ℕ) → F.lent files.old ≡ others + there (op_of work) → F.lent files.new ≡ others }
    ensures later { F.faults files.old ≤ F.faults files.new }
    ensures filters { places.new.filters.items ≡ with_filter (held_by work) places.old.filters.items }
    ensures tallies { places.new.tallies.items ≡ with_tally (held_by work) places.old.tallies.items }
{
    match (stage.options.role(), work.release()) {
        (Role::Writes(name), Held::Sink(sink)) => match files.keep(name, sink) {
            Ok(()) => Ok(()),
            Err(DeviceErr::Memory) => Err(Refusal::Memory),
            Err(_) => Err(Refusal::Device(Place::Stage(number), Op::Keep)),
        },
        (_, Held::Sink(sink)) => {
            files.done_out(sink);
            Ok(())
        }
        (_, Held::Source(source)) => {
            files.done_in(source);
            Ok(())
        }
        (_, Held::Filter(plug, at)) => {
            put_back(&mut places.filters, at, plug);
            Ok(())
        }
        (_, Held::Tally(tally, at)) => {
            put_back(&mut places.tallies, at, tally);
            Ok(())
        }
        (_, Held::Nothing) => Ok(()),
    }
}

/// Keeps the files of a run's writers under their names, in the order of the stages; the first one that can't be kept is the
/// last one that is tried. All that the works hold is given back, and put back where it is the caller's.
pub(crate) fn keep_works<F: Files, P: PlugFilter, Q: PlugTally>(
    files: &mut F,
    places: &mut Places<P, Q>,
    works: Vec<StageWork<F::In, F::Out, P, Q>>,
    stages: &[StageSpec],
) -> Result<(), Refusal>
    requires fit { HaveDevices stages.now works.items }
    requires count { length works.items ≡ length stages.now }
    requires few { length stages.now ≤ 64 }
    ensures ok { OnOk result (F.map files.new
        ≡ kept_first F.Out.bytes (length works.items) (F.map files.old) stages.now works.items) }
    ensures err { IfErr result (BrokeOff F.Out.bytes (Rose (F.faults files.old) (F.faults files.new))
        (F.map files.old) (F.map files.new) stages.now works.items) }
    ensures put { OnOk result (ArePut works.items places.old places.new) }
    ensures lent { (others : ℕ) → F.lent files.old ≡ others + all_held works.items
        → F.lent files.new ≡ others }
    ensures later { F.faults files.old ≤ F.faults files.new }
    ensures filters { (used : ℕ → Bool) (before : List (Option P))
        → FiltersOut P.PlugFilter used works.items before places.old.filters.items
        → AreOut (filter_nature P.PlugFilter) used [] before places.new.filters.items }
    ensures tallies { (used : ℕ → Bool) (before : List (Option Q))
        → TalliesOut Q.PlugTally used works.items before places.old.tallies.items
        → AreOut (tally_nature_at Q.PlugTally) used [] before places.new.tallies.items }
{
    let mut works = works;
    works.reverse();
    let mut at = 0;
    while let Some(work) = works.pop() {
        match keep_work(files, places, work, &stages[at], at as u32) {
            Ok(()) => {}
            Err(refusal) => {
                release_works(files, places, works);
                return Err(refusal);
            }
        }
        at += 1;
    }
    works.destroy_empty();
    Ok(())
}
