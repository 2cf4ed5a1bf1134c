//! The files of a run are opened and created.

ghost use Rattle.std.specs.Prelude.{IfOk, IfErr, OnErr};
ghost use Rattle.answer_model.specs.Naming.{AreBack, AreNamed};
ghost use Rattle.file_devices.specs.Counts.{Rose};
ghost use Rattle.pipeline_json.specs.Trees.{IsTree};
ghost use Rattle.plug_stages.specs.Handed.{handed_by};
ghost use Rattle.stage_forms.specs.Out.{AreTakenOut};
ghost use Rattle.stage_forms.specs.Starts.{AreHandedIn};
ghost use Rattle.stage_options.specs.Shapes.{shapes};
ghost use Rattle.held_devices.specs.Holding.{all_held};
ghost use Rattle.held_devices.specs.Lending.{Lends, Settles};
ghost use Rattle.run_outcome.specs.Cause.{IsCause, IsEarly};
ghost use Rattle.run_outcome.specs.Least.{IsNamedBy};
ghost use Rattle.run_opening.specs.Opening.{IsBeforePoints};
ghost use Rattle.run_opening.specs.Ready.{AreReady};

use crate::begin::begin_works;
use crate::bind::bind_stages;
use crate::open::open_readers;
use file_devices::Files;
use held_devices::give_back;
use plug_stages::{Places, PlugFilter, PlugTally};
use run_report::Refusal;
use stage_kinds::StageWork;
use stage_options::StageSpec;
use std::alloc::Global;

/// The works of a tree's stages, each at its start: opens the readers' files, binds the names of dimensions, and takes the filters and
/// tallies that stages name out of their places and creates the files of the writers, each in the order of the stages.
///
/// `Pipeline` comes only where a name in the options of a stage isn't bound, `Data` only where the files have that fault, `Device`
/// only where the device failed or the file to read isn't there, `Memory` where there was none. Then every object that was handed
/// out is given back, and what the caller handed in is back in its places. The files are as before.
pub fn ready_works<F: Files, P: PlugFilter, Q: PlugTally>(
    alloc: Global,
    files: &mut F,
    places: &mut Places<P, Q>,
    stages: &[StageSpec],
) -> Result<Vec<StageWork<F::In, F::Out, P, Q>>, Refusal>
    requires tree { IsTree (shapes stages.now) }
    requires named { AreNamed (handed_by P.PlugFilter Q.PlugTally places.old) stages.now }
    ensures ready { IfOk result (λ works. AreReady F.In.Source F.Out.Sink P.PlugFilter Q.PlugTally
        (handed_by P.PlugFilter Q.PlugTally places.old) (F.map files.old) stages.now works.items) }
    ensures handed { IfOk result (λ works. AreHandedIn P.PlugFilter Q.PlugTally stages.now works.items
        (handed_by P.PlugFilter Q.PlugTally places.old)) }
    ensures out { IfOk result (λ works. AreTakenOut P.PlugFilter Q.PlugTally stages.now places.old
        works.items places.new) }
    ensures back { OnErr result (AreBack P.PlugFilter Q.PlugTally stages.now places.old places.new) }
    ensures err { IfErr result (IsCause (Rose (F.faults files.old) (F.faults files.new))
        (handed_by P.PlugFilter Q.PlugTally places.old) (F.map files.old) stages.now) }
    ensures early { IfErr result IsEarly }
    ensures before { IfErr result IsBeforePoints }
    ensures lends { IfOk result (λ works. Lends F.Files 0 (all_held works.items) files.old files.new) }
    ensures settles { OnErr result (Settles F.Files 0 files.old files.new) }
    ensures least { IfErr result (IsNamedBy stages.now (F.counts files.old) (F.counts files.new)) }
{
    let readers = open_readers(alloc, files, stages)?;
    let bound = match bind_stages(alloc, stages, readers.as_slice()) {
        Ok(bound) => bound,
        Err(refusal) => {
            give_back(files, readers);
            return Err(refusal);
        }
    };
    begin_works(alloc, files, places, readers, bound, stages)
}
