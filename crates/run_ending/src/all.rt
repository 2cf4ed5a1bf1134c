//! All files of a run are kept.

ghost use Rattle.std.specs.Prelude.{◌≡◌, ◌≤◌, ◌+◌, ℕ, Bool, List, [], Option, None, length, OnOk, IfErr};
ghost use Rattle.file_devices.specs.Counts.{Rose};
ghost use Rattle.plug_stages.specs.Handed.{filter_nature, tally_nature_at};
ghost use Rattle.plug_stages.specs.Out.{AreOut};
ghost use Rattle.stage_forms.specs.Starts.{HaveDevices};
ghost use Rattle.held_devices.specs.Handing.{FiltersOut, TalliesOut};
ghost use Rattle.held_devices.specs.Holding.{all_held};
ghost use Rattle.run_ending.specs.All.{AreAllKept, IsUnkept};
ghost use Rattle.run_ending.specs.Putting.{ArePut};

use crate::keep::keep_works;
use crate::views::{take_each, write_each};
use file_devices::Files;
use held_devices::release_works;
use plug_stages::{Places, PlugFilter, PlugTally};
use run_report::Refusal;
use stage_kinds::StageWork;
use stage_options::StageSpec;
use std::alloc::Global;

/// Keeps the files of a run: those of the writers of one file, in the order of the stages, and then, for each writer of a file for each
/// view in that order and for each view in order, its file is created, written, finished and kept. The first one that can't be is the last
/// one that is tried. All that the works hold is given back, and put back where it is the caller's.
///
/// It is refused with `Memory` only where there is none, and with the `Device` of a stage only where the count of the files' faults rose.
pub fn keep_all<F: Files, P: PlugFilter, Q: PlugTally>(
    alloc: Global,
    files: &mut F,
    places: &mut Places<P, Q>,
    works: Vec<StageWork<F::In, F::Out, P, Q>>,
    stages: &[StageSpec],
) -> Result<(), Refusal>
    requires fit { HaveDevices stages.now works.items }
    requires count { length works.items ≡ length stages.now }
    requires few { length stages.now ≤ 64 }
    ensures ok { OnOk result
        (AreAllKept F.Out.bytes (F.map files.old) (F.map files.new) stages.now works.items) }
    ensures err { IfErr result (IsUnkept F.Out.bytes (Rose (F.faults files.old) (F.faults files.new))
        (F.map files.old) (F.map files.new) stages.now works.items) }
    ensures put { OnOk result (ArePut works.items places.old places.new) }
    ensures untold { F.map files.old ≡ None → F.map files.new ≡ None }
    ensures lent { (others : ℕ) → F.lent files.old ≡ others + all_held works.items
        → F.lent files.new ≡ others }
    ensures later { F.faults files.old ≤ F.faults files.new }
    ensures filters { (used : ℕ → Bool) (before : List (Option P))
        → FiltersOut P.PlugFilter used works.items before places.old.filters.items
        → AreOut (filter_nature P.PlugFilter) used [] before places.new.filters.items }
    ensures tallies { (used : ℕ → Bool) (before : List (Option Q))
        → TalliesOut Q.PlugTally used works.items before places.old.tallies.items
        → AreOut (tally_nature_at Q.PlugTally) used [] before places.new.tallies.items }
{
    let mut works = works;
    let Ok(each) = take_each(alloc, &mut works) else {
        release_works(files, places, works);
        return Err(Refusal::Memory);
    };
    keep_works(files, places, works, stages)?;
    write_each(alloc, files, each, stages)
}
