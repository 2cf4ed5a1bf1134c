//! What a run holds is given back.

ghost use Rattle.std.specs.Prelude.{◌≡◌, ◌≤◌, ◌+◌, ◌++◌, ℕ, Bool, List, [], Option, slice_get, sum_by, option_map, Some};
ghost use Rattle.file_devices.specs.Counts.{all_listed, listed, saturating};
ghost use Rattle.file_devices.specs.Told.{IsAsTold};
ghost use Rattle.plug_stages.specs.Handed.{filter_nature, tally_nature_at};
ghost use Rattle.plug_stages.specs.Out.{AreOut};
ghost use Rattle.stage_kinds.specs.declared.stage_work.StageWork as work_type;
ghost use Rattle.stage_kinds.specs.Held.{faults_of, held_by, op_of};
ghost use Rattle.stage_kinds.specs.Leads.{reached_of};
ghost use Rattle.held_devices.specs.Handing.{FiltersOut, TalliesOut, with_filter, with_tally};
ghost use Rattle.held_devices.specs.Holding.{there, all_there, all_held, count_on, counts_on, source_counts};
ghost use Rattle.held_devices.specs.Lending.{Settles};

use file_devices::Files;
use las_reader::LasReader;
use plug_stages::{Places, PlugFilter, PlugTally, put_back};
use stage_kinds::{Held, StageWork};

/// Gives back the sources of readers, from the last one on.
pub fn give_back<F: Files>(files: &mut F, readers: Vec<Option<LasReader<F::In>>>)
    ensures settles { Settles F.Files (all_there readers.items) files.old files.new }
    ensures told { IsAsTold (F.counts files.new)
        (option_map (λ cs. all_listed (source_counts F.In.faults readers.items) ++ cs) (F.counts files.old)) }
{
    let mut readers = readers;
    while let Some(reader) = readers.pop() {
        match reader {
            Some(reader) => files.done_in(reader.release()),
            None => {}
        }
    }
    readers.destroy_empty();
}

/// Gives back the device of a work, and puts back what it holds of the caller's; a writer's file isn't kept.
fn release_work<F: Files, P: PlugFilter, Q: PlugTally>(
    files: &mut F,
    places: &mut Places<P, Q>,
    work: StageWork<F::In, F::Out, P, Q>,
)
    ensures settles { Settles F.Files (there (op_of work)) files.old files.new }
    ensures counted { saturating (F.faults files.old) (faults_of F.In.faults F.Out.faults work)
        ≤ F.faults files.new }
    ensures read { IsAsTold (F.read_to files.new)
        (option_map (λ n. n + reached_of F.In.reached work) (F.read_to files.old)) }
    ensures told { IsAsTold (F.counts files.new)
        (option_map (λ cs. listed (count_on F.In.faults F.Out.faults (held_by work)) ++ cs) (F.counts files.old)) }
    ensures filters { places.new.filters.items ≡ with_filter (held_by work) places.old.filters.items }
    ensures tallies { places.new.tallies.items ≡ with_tally (held_by work) places.old.tallies.items }
{
    match work.release() {
        Held::Nothing => {}
        Held::Source(source) => files.done_in(source),
        Held::Sink(sink) => files.done_out(sink),
        Held::Filter(plug, at) => put_back(&mut places.filters, at, plug),
        Held::Tally(tally, at) => put_back(&mut places.tallies, at, tally),
    }
}

/// Gives back the devices of works, from the last one on, and puts back what they hold of the caller's; no writer's file is kept.
pub fn release_works<F: Files, P: PlugFilter, Q: PlugTally>(
    files: &mut F,
    places: &mut Places<P, Q>,
    works: Vec<StageWork<F::In, F::Out, P, Q>>,
)
    ensures settles { Settles F.Files (all_held works.items) files.old files.new }
    ensures counted { (i : ℕ) (w : work_type.StageWork F.In F.Out P Q) → slice_get works.items i ≡ Some w
        → saturating (F.faults files.old) (faults_of F.In.faults F.Out.faults w) ≤ F.faults files.new }
    ensures read { IsAsTold (F.read_to files.new)
        (option_map (λ n. n + sum_by (reached_of F.In.reached) works.items) (F.read_to files.old)) }
    ensures told { IsAsTold (F.counts files.new)
        (option_map (λ cs. all_listed (counts_on F.In.faults F.Out.faults works.items) ++ cs) (F.counts files.old)) }
    ensures filters { (used : ℕ → Bool) (before : List (Option P))
        → FiltersOut P.PlugFilter used works.items before places.old.filters.items
        → AreOut (filter_nature P.PlugFilter) used [] before places.new.filters.items }
    ensures tallies { (used : ℕ → Bool) (before : List (Option Q))
        → TalliesOut Q.PlugTally used works.items before places.old.tallies.items
        → AreOut (tally_nature_at Q.PlugTally) used [] before places.new.tallies.items }
{
    let mut works = works;
    while let Some(work) = works.pop() {
        release_work(files, places, work);
    }
    works.destroy_empty();
}
