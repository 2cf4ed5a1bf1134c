//! The works of a tree's stages at their start.

ghost use Rattle.std.specs.Prelude.{◌≡◌, ◌≤◌, ◌++◌, length, set, None, Some, is_some, option_map, true, IfOk, IfErr, IfSome, OnErr};
ghost use Rattle.answer_model.specs.Naming.{AreBack, AreNamed};
ghost use Rattle.cloud_points.specs.Layouts.{holds};
ghost use Rattle.file_devices.specs.Counts.{Rose, listed, saturating};
ghost use Rattle.file_devices.specs.Named.{Names};
ghost use Rattle.plug_stages.specs.Handed.{filter_nature, handed_by, named_in, natures_from, tally_nature_at};
ghost use Rattle.plug_stages.specs.Works.{plug_nature, tally_nature};
ghost use Rattle.stage_kinds.specs.Files.{IsFileForm};
ghost use Rattle.stage_kinds.specs.Held.{faults_of, filter_in, op_of, tally_in};
ghost use Rattle.stage_options.specs.Roles.{role_of, is_writing};
ghost use Rattle.stage_forms.specs.Out.{AreTakenOut};
ghost use Rattle.stage_forms.specs.Starts.{AreHandedIn, IsBegun, IsHandedIn, ShowsNone, TellsNone};
ghost use Rattle.las_reader.specs.Lists.{AreFields};
ghost use Rattle.run_opening.specs.Begun.{AreBegun, AreMade, IsFine, IsForm, IsOpened, IsReaderOf, IsWork};
ghost use Rattle.run_opening.specs.Taken.{AreFound, without};
ghost use Rattle.held_devices.specs.Holding.{there, all_there, all_held};
ghost use Rattle.held_devices.specs.Lending.{Lends, Settles};
ghost use Rattle.file_devices.specs.Told.{IsAsTold};
ghost use Rattle.run_outcome.specs.Cause.{CanBegin, IsCause, IsEarly};
ghost use Rattle.run_outcome.specs.Least.{IsNamedBy};
ghost use Rattle.run_opening.specs.Opening.{IsBeforePoints, IsUncreated};

use crate::bind::BoundStages;
use cloud_points::{FieldList, Layout};
use expr_eval::Bound;
use file_devices::{DeviceErr, FileSink, Files, Op, Source};
use held_devices::{give_back, release_works};
use las_reader::{LasReader, Progress};
use plug_stages::{Places, PlugFilter, PlugTally, PlugWork, TallyWork, take_filter, take_tally};
use run_report::{Place, Refusal};
use stage_kinds::{FileBeginErr, Gatherer, StageForm, StageWork, Writing, begin_file};
use stage_options::{Role, StageSpec};
use std::alloc::Global;
use std::mem::replace;

/// The work of a writer, the stage with this number, on a new file. Where that can't be begun, its sink comes back.
fn open_writer<F: Files, P: PlugFilter, Q: PlugTally>(
    alloc: Global,
    files: &mut F,
    writing: Writing,
    name: &str,
    number: u32,
) -> Result<StageWork<F::In, F::Out, P, Q>, (Option<F::Out>, Refusal)>
    requires { IsFileForm writing.form }
    ensures ok { IfOk result (IsBegun F.Out.bytes writing) }
    ensures writes { IfOk result (λ work. op_of work ≡ Some Op.Write) }
    ensures calm { IfOk result (λ work. faults_of F.In.faults F.Out.faults work ≡ 0) }
    ensures err { IfErr result (λ e. IsUncreated F.Out.faults (Rose (F.faults files.old) (F.faults files.new))
        number e.0 e.1) }
    ensures early { IfErr result (λ e. IsEarly e.1) }
    ensures before { IfErr result (λ e. IsBeforePoints e.1) }
    ensures lends { IfOk result (λ work. Lends F.Files 0 (there (op_of work)) files.old files.new) }
    ensures left { IfErr result (λ e. Lends F.Files 0 (there e.0) files.old files.new) }
{
    let sink = match files.create(name) {
        Ok(sink) => sink,
        Err(DeviceErr::Memory) => return Err((None, Refusal::Memory)),
        Err(_) => return Err((None, Refusal::Device(Place::Stage(number), Op::Create))),
    };
    match begin_file(alloc, sink, writing) {
        Ok(work) => Ok(work),
        Err((sink, FileBeginErr::Failed)) => {
            let refusal = Refusal::Device(Place::Stage(number), Op::Write);
            Err((Some(sink), refusal))
        }
        Err((sink, FileBeginErr::Memory)) => Err((Some(sink), Refusal::Memory)),
    }
}

/// Gives back the sink of a file that couldn't be begun.
fn drop_sink<F: Files>(files: &mut F, sink: Option<F::Out>)
    ensures settles { Settles F.Files (there sink) files.old files.new }
    ensures told { IsAsTold (F.counts files.new)
        (option_map (λ cs. listed (option_map F.Out.faults sink) ++ cs) (F.counts files.old)) }
    ensures counted { IfSome sink (λ k. saturating (F.faults files.old) (F.Out.faults k) ≤ F.faults files.new) }
{
    if let Some(sink) = sink {
        files.done_out(sink);
    }
}

/// The work of a reader that takes these fields.
fn read_with<S: Source, K: FileSink, P: PlugFilter, Q: PlugTally>(
    reader: LasReader<S>,
    fields: FieldList,
) -> StageWork<S, K, P, Q>
    requires start { reader.progress ≡ Progress.Records 0 }
    requires fine { AreFields reader.header.record_length fields }
    ensures { IsReaderOf reader fields result }
{
    let mut reader = reader;
    reader.set_fields(fields);
    StageWork::Reader(reader)
}

/// The work of a stage that shows points to the filter of this name, which is taken out of its place.
fn show_filter<P: PlugFilter>(
    filters: &mut Vec<Option<P>>,
    name: &str,
    only: Option<Bound>,
    layout: Layout,
) -> PlugWork<P>
    requires { is_some (named_in (natures_from (filter_nature P.PlugFilter) 0 filters.old.items) name.now)
        ≡ true }
    ensures named { named_in (natures_from (filter_nature P.PlugFilter) 0 filters.old.items) name.now
        ≡ Some (plug_nature P.PlugFilter result) }
    ensures start { ShowsNone only (holds layout) result }
    ensures left { filters.new.items ≡ set filters.old.items result.place None }
{
    match take_filter(filters, name) {
        Some((plug, place)) => PlugWork::new(plug, place, only, layout),
        None => unreachable!(),
    }
}

/// The work of a stage that shows points to the tally of this name, which is taken out of its place.
fn show_tally<Q: PlugTally>(
    tallies: &mut Vec<Option<Q>>,
    name: &str,
    only: Option<Bound>,
) -> TallyWork<Q>
    requires { is_some (named_in (natures_from (tally_nature_at Q.PlugTally) 0 tallies.old.items) name.now)
        ≡ true }
    ensures named { named_in (natures_from (tally_nature_at Q.PlugTally) 0 tallies.old.items) name.now
        ≡ Some (tally_nature Q.PlugTally result) }
    ensures begins { Q.state result.tally ≡ Q.opening result.tally }
    ensures start { TellsNone only result }
    ensures left { tallies.new.items ≡ set tallies.old.items result.place None }
{
    match take_tally(tallies, name) {
        Some((tally, place)) => TallyWork::new(tally, place, only),
        None => unreachable!(),
    }
}

/// The work of a stage: its opened reader, or that of a writer on a new file, or one on the caller's filter or tally that it names, or
/// else that of a stage without either.
fn begin_work<F: Files, P: PlugFilter, Q: PlugTally>(
    alloc: Global,
    files: &mut F,
    places: &mut Places<P, Q>,
    reader: Option<LasReader<F::In>>,
    form: StageForm,
    layout: &Layout,
    stage: &StageSpec,
    number: u32,
) -> Result<StageWork<F::In, F::Out, P, Q>, (Option<F::Out>, Refusal)>
    requires opened { IsOpened F.In.Source (F.map files.old) number (role_of stage.now.options) reader }
    requires form { IsForm stage.now.options form }
    requires fine { IsFine reader form }
    requires found { AreFound stage.now.options (handed_by P.PlugFilter Q.PlugTally places.old) }
    ensures ok { IfOk result (IsWork F.In.Source F.Out.Sink (F.map files.old) number stage.now.options reader form
        layout.now) }
    ensures handed { IfOk result (IsHandedIn P.PlugFilter Q.PlugTally stage.now.options
        (handed_by P.PlugFilter Q.PlugTally places.old)) }
    ensures filters { IfOk result (λ work. places.new.filters.items
        ≡ without (filter_in P.PlugFilter work) places.old.filters.items) }
    ensures tallies { IfOk result (λ work. places.new.tallies.items
        ≡ without (tally_in Q.PlugTally work) places.old.tallies.items) }
    ensures stay { OnErr result (places.new ≡ places.old) }
    ensures writes { OnErr result (is_writing (role_of stage.now.options) ≡ true) }
    ensures err { IfErr result (λ e. IsUncreated F.Out.faults (Rose (F.faults files.old) (F.faults files.new))
        number e.0 e.1) }
    ensures none { OnErr result (there reader ≡ 0) }
    ensures early { IfErr result (λ e. IsEarly e.1) }
    ensures before { IfErr result (λ e. IsBeforePoints e.1) }
    ensures lends { IfOk result (λ work. Lends F.Files (there reader) (there (op_of work)) files.old files.new) }
    ensures left { IfErr result (λ e. Lends F.Files 0 (there e.0) files.old files.new) }
{
    let Some(reader) = reader else {
        return match form {
            StageForm::Reads(_) => unreachable!(),
            StageForm::Filters(filter) => Ok(StageWork::Filter(filter)),
            StageForm::Plugs(only) => match stage.options.plug() {
                Some(name) => {
                    Ok(StageWork::Plug(show_filter(&mut places.filters, name, only, *layout)))
                }
                None => unreachable!(),
            },
            StageForm::Tallies(only) => match stage.options.tally() {
                Some(name) => Ok(StageWork::Tally(show_tally(&mut places.tallies, name, only))),
                None => unreachable!(),
            },
            StageForm::Gathers(making) => {
                let seed = files.hash_seed();
                Ok(StageWork::Collector(Gatherer::new(alloc, layout, seed, making)))
            }
            StageForm::Writes(writing) => match stage.options.role() {
                Role::Writes(name) => open_writer(alloc, files, writing, name, number),
                _ => unreachable!(),
            },
        };
    };
    match form {
        StageForm::Reads(fields) => Ok(read_with(reader, fields)),
        _ => unreachable!(),
    }
}

/// The works of a tree's stages at their start, made of this, over their opened readers: the filters and tallies that stages name are taken
/// out of their places and the files of the writers are created in the order of the stages; the first file that can't be created or begun is
/// the last one that is tried. Then all is given back, and put back into its place.
pub(crate) fn begin_works<F: Files, P: PlugFilter, Q: PlugTally>(
    alloc: Global,
    files: &mut F,
    places: &mut Places<P, Q>,
    readers: Vec<Option<LasReader<F::In>>>,
    bound: BoundStages,
    stages: &[StageSpec],
) -> Result<Vec<StageWork<F::In, F::Out, P, Q>>, Refusal>
    requires made { AreMade F.In.Source (F.map files.old) stages.now readers.items bound.forms.items
        bound.layouts.items }
    requires few { length stages.now ≤ 64 }
    requires named { AreNamed (handed_by P.PlugFilter Q.PlugTally places.old) stages.now }
    requires come { (m : Names) → F.map files.old ≡ Some m
        → CanBegin (handed_by P.PlugFilter Q.PlugTally places.old) m stages.now }
    ensures ok { IfOk result (λ works. AreBegun F.In.Source F.Out.Sink (F.map files.old)
        stages.now readers.items bound.forms.items bound.layouts.items works.items) }
    ensures handed { IfOk result (λ works. AreHandedIn P.PlugFilter Q.PlugTally stages.now works.items
        (handed_by P.PlugFilter Q.PlugTally places.old)) }
    ensures out { IfOk result (λ works. AreTakenOut P.PlugFilter Q.PlugTally stages.now places.old
        works.items places.new) }
    ensures back { OnErr result (AreBack P.PlugFilter Q.PlugTally stages.now places.old places.new) }
    ensures count { IfOk result (λ works. length works.items ≡ length stages.now) }
    ensures err { IfErr result (IsCause (Rose (F.faults files.old) (F.faults files.new))
        (handed_by P.PlugFilter Q.PlugTally places.old) (F.map files.old) stages.now) }
    ensures early { IfErr result IsEarly }
    ensures before { IfErr result IsBeforePoints }
    ensures lends { IfOk result (λ works. Lends F.Files (all_there readers.items) (all_held works.items)
        files.old files.new) }
    ensures settles { OnErr result (Settles F.Files (all_there readers.items) files.old files.new) }
    ensures least { IfErr result (IsNamedBy stages.now (F.counts files.old) (F.counts files.new)) }
{
    let Ok(mut works) = Vec::with_capacity(alloc, stages.len()) else {
        give_back(files, readers);
        return Err(Refusal::Memory);
    };
    let mut readers = readers;
    let BoundStages { forms, layouts } = bound;
    let mut forms = forms;
    readers.reverse();
    let mut at = 0;
    while let Some(reader) = readers.pop() {
        let form = replace(&mut forms[at], StageForm::Reads(FieldList::none(alloc)));
        match begin_work(
            alloc,
            files,
            places,
            reader,
            form,
            &layouts[at],
            &stages[at],
            at as u32,
        ) {
            Ok(work) => works.push_reserved(work),
            Err((sink, refusal)) => {
                readers.reverse();
                give_back(files, readers);
                drop_sink(files, sink);
                release_works(files, places, works);
                return Err(refusal);
            }
        }
        at += 1;
    }
    readers.destroy_empty();
    Ok(works)
}
