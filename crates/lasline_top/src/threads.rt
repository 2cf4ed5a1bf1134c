//! The top call on several threads.

ghost use Rattle.std.specs.Prelude.{◌≡◌, ◌<◌, ◌≤◌, false, map, string_bytes};
ghost use Rattle.network_workers.specs.Crews.{HasRun, MayRun};
ghost use Rattle.stage_runs.specs.Works.{as_works};
ghost use Rattle.plug_stages.specs.Handed.{handed_by, none_handed};
ghost use Rattle.lasline_top.specs.declared.status.Status.{Status};
ghost use Rattle.lasline_top.specs.Back.{IsHandedBack, IsRemembered};
ghost use Rattle.lasline_top.specs.Calls.{HasAnswered, seen};
ghost use Rattle.lasline_top.specs.Threads.{are_several, goes_alone};
ghost use Rattle.lasline_top.specs.Words.{task_of};

use crate::solo::do_command;
use crate::status::Status;
use crate::words::{options_of, stop_for};
use command_words::RunOptions;
use file_devices::{FileSink, Files, Gate, Sink, Source};
use network_core::{InsList, NodeList, Stop};
use network_solo::OneThread;
use network_workers::{Crew, WorkerRoom, run_tree_by};
use plug_stages::{BoxedFilter, BoxedTally, Places, PlugFilter, PlugTally, Plugs};
use stage_kinds::StageWork;
use std::alloc::Global;
use std::sync::Wait;
use std::thread::Threads;

/// Whether the stages of a run with these options go on at once: with more than one worker, unless they are evaluated whole.
fn are_several(options: RunOptions) -> bool
    ensures { result ≡ are_several options }
{
    !options.whole && options.workers != 1
}

/// Lets the nodes of a run take turns on several threads.
fn run_nodes<
    S: Source + Send,
    O: FileSink + Send,
    P: PlugFilter + Send,
    Q: PlugTally + Send,
    R: Threads + Wait + Sync,
    G: Gate,
>(
    rt: &R,
    nodes: NodeList<StageWork<S, O, P, Q>>,
    ins: InsList,
    room: WorkerRoom<StageWork<S, O, P, Q>>,
    patience: u64,
    gate: &G,
    stop: Stop,
) -> NodeList<StageWork<S, O, P, Q>>
    requires { MayRun (as_works S.Source O.Sink P.PlugFilter Q.PlugTally) nodes ins room }
    ensures { HasRun (as_works S.Source O.Sink P.PlugFilter Q.PlugTally) stop nodes ins result }
{
    run_tree_by(rt, nodes, ins, room, patience, gate, stop)
}

/// Does a command whose stages are turned by so many workers.
fn do_by_crew<
    S: Source + Send,
    O: FileSink + Send,
    P: PlugFilter + Send,
    Q: PlugTally + Send,
    F: Files<In = S, Out = O>,
    K: Sink,
    E: Sink,
    R: Threads + Wait + Sync,
    G: Gate,
>(
    rt: &R,
    alloc: Global,
    options: RunOptions,
    words: &[String],
    files: &mut F,
    places: &mut Places<P, Q>,
    out: &mut K,
    err: &mut E,
    gate: &G,
) -> Status
    requires some { 0 < options.workers }
    requires most { options.workers ≤ 32 }
    requires several { goes_alone (map string_bytes words.now) ≡ false }
    ensures answered { HasAnswered (handed_by P.PlugFilter Q.PlugTally places.old)
        (map string_bytes words.now)
        (seen F.Files K.Sink E.Sink files.old out.old err.old)
        (seen F.Files K.Sink E.Sink files.new out.new err.new)
        result }
    ensures back { IsHandedBack P.PlugFilter Q.PlugTally (task_of (map string_bytes words.now))
        (F.map files.old) (F.map files.new) places.old places.new }
    ensures remembered { result ≡ Status.Ok → IsRemembered P.PlugFilter Q.PlugTally
        (task_of (map string_bytes words.now)) (F.map files.old) (F.map files.new) places.old places.new }
{
    let patience = options.patience as u64;
    let stop = stop_for(words);
    let crew = Crew {
        workers: options.workers,
        stop,
        run: |nodes: NodeList<StageWork<S, O, P, Q>>, ins: InsList, room: WorkerRoom<
            StageWork<S, O, P, Q>,
        >| -> NodeList<StageWork<S, O, P, Q>>
            requires { MayRun (as_works S.Source O.Sink P.PlugFilter Q.PlugTally) nodes ins room }
            ensures { HasRun (as_works S.Source O.Sink P.PlugFilter Q.PlugTally) stop nodes ins result }
        { run_nodes(rt, nodes, ins, room, patience, gate, stop) },
    };
    do_command(alloc, &crew, words, files, places, out, err)
}

/// Does a command with filters and tallies of a caller, by as many workers as its words ask for.
fn do_with<
    F: Files,
    K: Sink,
    E: Sink,
    P: PlugFilter + Send,
    Q: PlugTally + Send,
    R: Threads + Wait + Sync,
    G: Gate,
>(
    rt: &R,
    alloc: Global,
    words: &[String],
    files: &mut F,
    places: &mut Places<P, Q>,
    out: &mut K,
    err: &mut E,
    gate: &G,
) -> Status
where
    F::In: Send,
    F::Out: Send,
    ensures answered { HasAnswered (handed_by P.PlugFilter Q.PlugTally places.old)
        (map string_bytes words.now)
        (seen F.Files K.Sink E.Sink files.old out.old err.old)
        (seen F.Files K.Sink E.Sink files.new out.new err.new)
        result }
    ensures back { IsHandedBack P.PlugFilter Q.PlugTally (task_of (map string_bytes words.now))
        (F.map files.old) (F.map files.new) places.old places.new }
    ensures remembered { result ≡ Status.Ok → IsRemembered P.PlugFilter Q.PlugTally
        (task_of (map string_bytes words.now)) (F.map files.old) (F.map files.new) places.old places.new }
{
    match options_of(words) {
        Some(options) if are_several(options) => {
            do_by_crew(rt, alloc, options, words, files, places, out, err, gate)
        }
        _ => {
            let stop = stop_for(words);
            do_command(alloc, &OneThread { stop }, words, files, places, out, err)
        }
    }
}

/// Does a command as `lasline_solo` does. Only where `--workers` of a run or a trial asks for more than one, and `--whole` doesn't stand
/// with it, its stages go on at once on so many threads, or as many as there are stages: the stages that run together are dealt to the
/// workers in turn. Before each turn the worker asks the gate with its own number and that of the stage. After `--patience` rounds in
/// a row without work it stops, and what is left to do then is done on the thread of the caller. With `--stop first` a worker also
/// stops once one of its own stages has a fault or another worker has told of one, and the thread of the caller does no more then.
///
/// What is said of `lasline_solo` is said of it, whatever the number of workers, the patience and the gate, and in
/// whichever order the threads come to their turns; only how far a run with `--stop first` reads isn't bounded by several workers. But
/// it may wait for them, so that it returns isn't promised. Where a thread can't be started, another one does its turns.
pub fn lasline<F: Files, K: Sink, E: Sink, R: Threads + Wait + Sync, G: Gate>(
    rt: &R,
    alloc: Global,
    words: &[String],
    files: &mut F,
    out: &mut K,
    err: &mut E,
    gate: &G,
) -> Status
where
    F::In: Send,
    F::Out: Send,
    ensures answered { HasAnswered none_handed (map string_bytes words.now)
        (seen F.Files K.Sink E.Sink files.old out.old err.old)
        (seen F.Files K.Sink E.Sink files.new out.new err.new)
        result }
{
    let mut plugs = Plugs {
        filters: Vec::new(alloc),
        tallies: Vec::new(alloc),
    };
    do_with(rt, alloc, words, files, &mut plugs, out, err, gate)
}

/// Does a command as `lasline` does, with filters and tallies of the caller: a stage `filters.plug` shows its points to the filter that it
/// names, and a stage `writers.tally` to the tally. Of two with one name the first is meant.
///
/// A run or a trial is refused with `PlugUnknown` for the first stage that names one which isn't there, and with `PlugTaken` for the first
/// that names one which an earlier stage names, behind all other faults of the pipeline's text. At the return each place holds what has
/// the name and the nature of what stood there. Where the files tell what they hold, it is exactly what stood there where no stage names
/// it; and on `Ok` a filter that a stage names remembers what it came to over the points of the stage's last view that pass its `where`,
/// from its opening on, if there was a view, and a tally that over all of the stage's points that pass.
pub fn lasline_plugged<F: Files, K: Sink, E: Sink, R: Threads + Wait + Sync, G: Gate>(
    rt: &R,
    alloc: Global,
    words: &[String],
    files: &mut F,
    out: &mut K,
    err: &mut E,
    gate: &G,
    plugs: &mut Plugs,
) -> Status
where
    F::In: Send,
    F::Out: Send,
    ensures answered { HasAnswered
        (handed_by ⟦<BoxedFilter as PlugFilter>⟧ ⟦<BoxedTally as PlugTally>⟧ plugs.old)
        (map string_bytes words.now)
        (seen F.Files K.Sink E.Sink files.old out.old err.old)
        (seen F.Files K.Sink E.Sink files.new out.new err.new)
        result }
    ensures back { IsHandedBack ⟦<BoxedFilter as PlugFilter>⟧ ⟦<BoxedTally as PlugTally>⟧
        (task_of (map string_bytes words.now)) (F.map files.old) (F.map files.new) plugs.old plugs.new }
    ensures remembered { result ≡ Status.Ok
        → IsRemembered ⟦<BoxedFilter as PlugFilter>⟧ ⟦<BoxedTally as PlugTally>⟧
        (task_of (map string_bytes words.now)) (F.map files.old) (F.map files.new) plugs.old plugs.new }
{
    do_with(rt, alloc, words, files, plugs, out, err, gate)
}
