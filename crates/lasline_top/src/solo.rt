//! The top call on one thread.

ghost use Rattle.std.specs.Prelude.{◌≡◌, ◌≤◌, ℕ, List, map, true, Ok, Err, IfErr, OnOk, OnErr, string_bytes};
ghost use Rattle.file_devices.specs.Counts.{Rose};
ghost use Rattle.file_devices.specs.Content.{Appends, AppendsPart};
ghost use Rattle.file_devices.specs.Named.{Names};
ghost use Rattle.file_devices.specs.declared.devices.Op.{Op};
ghost use Rattle.run_report.specs.declared.refusal.Place.{Place};
ghost use Rattle.run_report.specs.declared.refusal.Refusal.{Refusal};
ghost use Rattle.run_report.specs.Faults.{fault_line};
ghost use Rattle.lasline_top.specs.Words.{Print, stop_for, task_of};
ghost use Rattle.lasline_top.specs.Refusals.{status_for};
ghost use Rattle.lasline_top.specs.Cause.{ToldWhy};
ghost use Rattle.lasline_top.specs.Ends.{WasDone, WasRefused};
ghost use Rattle.lasline_top.specs.Least.{IsLeastNamed};
ghost use Rattle.lasline_top.specs.Left.{AreTold};
ghost use Rattle.lasline_top.specs.Reading.{IsReadAhead, IsReadBy};
ghost use Rattle.lasline_top.specs.Back.{IsHandedBack, IsRemembered};
ghost use Rattle.lasline_top.specs.declared.status.Status.{Status};
ghost use Rattle.plug_stages.specs.Handed.{handed_by, none_handed};
ghost use Rattle.lasline_top.specs.Calls.{HasAnswered, HasReadAhead, seen};
ghost use Rattle.lasline_top.specs.Threads.{goes_alone};

use crate::generating::make_file;
use crate::planning::plan_file;
use crate::printing::print_text;
use crate::running::{run_file, run_trial};
use crate::status::Status;
use crate::words::{Task, stop_for, task_of};
use file_devices::{Files, Sink};
use network_solo::{OneThread, Scheduler};
use plug_stages::{Places, PlugFilter, PlugTally, Plugs};
use run_report::{Refusal, fault_text};
use stage_kinds::StageWork;
use std::alloc::Global;

/// Does a command and prints its report, or its page.
fn run_command<
    F: Files,
    K: Sink,
    P: PlugFilter,
    Q: PlugTally,
    T: Scheduler<StageWork<F::In, F::Out, P, Q>>,
>(
    alloc: Global,
    scheduler: &T,
    words: &[String],
    files: &mut F,
    places: &mut Places<P, Q>,
    out: &mut K,
) -> Result<(), Refusal>
    requires sound { T.sound scheduler.now }
    requires stop { T.stop scheduler.now ≡ stop_for (task_of (map string_bytes words.now)) }
    ensures ok { OnOk result (WasDone (handed_by P.PlugFilter Q.PlugTally places.old)
        (task_of (map string_bytes words.now)) (F.map files.old) (F.map files.new)
        (K.bytes out.old) (K.bytes out.new)) }
    ensures err { IfErr result (WasRefused (handed_by P.PlugFilter Q.PlugTally places.old)
        (task_of (map string_bytes words.now))
        (Rose (F.faults files.old) (F.faults files.new)) (Rose (K.faults out.old) (K.faults out.new))
        (F.map files.old) (F.map files.new) (K.bytes out.old) (K.bytes out.new)) }
    ensures words_first { (refusal : Refusal) → task_of (map string_bytes words.now) ≡ Err refusal
        → result ≡ Err refusal }
    ensures of_words { (k : ℕ) → result ≡ Err (Refusal.Usage k)
        → task_of (map string_bytes words.now) ≡ Err (Refusal.Usage k) }
    ensures page { (text : List ℕ) → task_of (map string_bytes words.now) ≡ Ok (Print text)
        → OnOk result (Appends (K.bytes out.old) text (K.bytes out.new)) }
    ensures page_part { (text : List ℕ) → task_of (map string_bytes words.now) ≡ Ok (Print text)
        → IfErr result (λ refusal. (refusal ≡ Refusal.Device Place.Out Op.Write)
        × AppendsPart (K.bytes out.old) text (K.bytes out.new)) }
    ensures back { IsHandedBack P.PlugFilter Q.PlugTally (task_of (map string_bytes words.now))
        (F.map files.old) (F.map files.new) places.old places.new }
    ensures remembered { OnOk result (IsRemembered P.PlugFilter Q.PlugTally
        (task_of (map string_bytes words.now)) (F.map files.old) (F.map files.new) places.old places.new) }
    ensures lent { F.lent files.new ≡ F.lent files.old }
    ensures later { F.faults files.old ≤ F.faults files.new }
    ensures opened { IsReadBy (task_of (map string_bytes words.now)) (F.read_to files.old)
        (F.read_to files.new) }
    ensures least { IfErr result (λ refusal. (m : Names)
        → AreTold (task_of (map string_bytes words.now)) (F.map files.old) (F.map files.new) m
        → IsLeastNamed (handed_by P.PlugFilter Q.PlugTally places.old) (task_of (map string_bytes words.now)) m
        (F.counts files.old) (F.counts files.new) refusal) }
    ensures ahead { IfErr result (λ refusal. T.bounded scheduler.now → (m : Names)
        → AreTold (task_of (map string_bytes words.now)) (F.map files.old) (F.map files.new) m
        → IsReadAhead (task_of (map string_bytes words.now)) m (F.read_to files.old)
        (F.read_to files.new) refusal) }
{
    match task_of(words)? {
        Task::Run { file, engine } => {
            run_file(alloc, file, engine, scheduler, files, places, out)
        }
        Task::Plan { file } => plan_file(alloc, file, files, out),
        Task::Generate { count, name } => make_file(alloc, count, name, files, out),
        Task::Trial { count, engine } => {
            run_trial(alloc, count, engine, scheduler, files, places, out)
        }
        Task::Print(page) => print_text(page, out),
    }
}

/// Appends the line that says why a command was refused, and answers its status.
pub fn refused<E: Sink>(refusal: Refusal, err: &mut E) -> Status
    ensures status { result ≡ status_for refusal }
    ensures line { ToldWhy (E.bytes err.old) (E.bytes err.new) (E.faults err.old) (E.faults err.new)
        (fault_line refusal) }
{
    match fault_text(&refusal, err) {
        Ok(()) => Status::of(refusal),
        Err(_) => Status::of(refusal),
    }
}

/// Does a command, whose stages take turns as the scheduler has it, and says why where it was refused.
pub(crate) fn do_command<
    F: Files,
    K: Sink,
    E: Sink,
    P: PlugFilter,
    Q: PlugTally,
    T: Scheduler<StageWork<F::In, F::Out, P, Q>>,
>(
    alloc: Global,
    scheduler: &T,
    words: &[String],
    files: &mut F,
    places: &mut Places<P, Q>,
    out: &mut K,
    err: &mut E,
) -> Status
    requires sound { T.sound scheduler.now }
    requires stop { T.stop scheduler.now ≡ stop_for (task_of (map string_bytes words.now)) }
    requires alone { goes_alone (map string_bytes words.now) ≡ true → T.bounded scheduler.now }
    ensures answered { HasAnswered (handed_by P.PlugFilter Q.PlugTally places.old)
        (map string_bytes words.now)
        (seen F.Files K.Sink E.Sink files.old out.old err.old)
        (seen F.Files K.Sink E.Sink files.new out.new err.new)
        result }
    ensures back { IsHandedBack P.PlugFilter Q.PlugTally (task_of (map string_bytes words.now))
        (F.map files.old) (F.map files.new) places.old places.new }
    ensures remembered { result ≡ Status.Ok → IsRemembered P.PlugFilter Q.PlugTally
        (task_of (map string_bytes words.now)) (F.map files.old) (F.map files.new) places.old places.new }
    ensures ahead { T.bounded scheduler.now → HasReadAhead (map string_bytes words.now)
        (seen F.Files K.Sink E.Sink files.old out.old err.old)
        (seen F.Files K.Sink E.Sink files.new out.new err.new)
        result }
{
    match run_command(alloc, scheduler, words, files, places, out) {
        Ok(()) => Status::Ok,
        Err(refusal) => refused(refusal, err),
    }
}

/// Does a command on one thread, whatever `--workers` says, with no filter and no tally of a caller. It always returns, and waits for
/// nobody.
///
/// `words` are the command line without the program's name:
///
/// - `run FILE` runs the pipeline in FILE, keeps its outputs, and prints what each stage gave on;
/// - `plan FILE` prints the steps of the pipeline in FILE, and opens no other file;
/// - `gen N NAME` keeps a LAS file of N generated points, 0 to 10,000,000, under NAME, and prints how many there are;
/// - `trial N` does that with the name `trial.las`, and runs a fixed pipeline on it;
/// - `--help` and `--version` print a page.
///
/// Behind `run FILE` and `trial N` may stand `--chunk N`, the points that a stage passes on at once, and `--queue N`, the items that a
/// queue between two stages holds: each at most once, in any order, with N from 1 to 64. Without them N is 64 and 8. With `--whole`
/// the stages are evaluated one after the other, each on all its points. `--workers N`, 1 to 32, and `--patience N`, 0 to 1,000,000, are
/// for `lasline`. With `--stop first`, and without `--whole`, the run ends at the first fault of a stage that is seen, and that is
/// answered. None of these changes what is kept or reported, and but for `--stop first` none changes which fault is answered.
///
/// On `Ok` the outputs are kept in `files` and the report is appended to `out`; on any other status a line that says why is appended to
/// `err`. Every object that `files` handed out is given back.
///
/// `Pipeline` comes only where the pipeline has that fault and no earlier one, `Data` only where the files hold that fault (of
/// several stages the first one's, but with `--stop first` any), `Device` only where the named device failed or a file to read isn't
/// there, and `Memory` where there was none. After a refusal the files are as before. Only where the keeping of an output failed or
/// found no memory are those of the stages before it kept, and that one may be; where the report couldn't be printed all are. What
/// `trial` generated stays.
pub fn lasline_solo<F: Files, K: Sink, E: Sink>(
    alloc: Global,
    words: &[String],
    files: &mut F,
    out: &mut K,
    err: &mut E,
) -> Status
    ensures answered { HasAnswered none_handed (map string_bytes words.now)
        (seen F.Files K.Sink E.Sink files.old out.old err.old)
        (seen F.Files K.Sink E.Sink files.new out.new err.new)
        result }
    ensures ahead { HasReadAhead (map string_bytes words.now)
        (seen F.Files K.Sink E.Sink files.old out.old err.old)
        (seen F.Files K.Sink E.Sink files.new out.new err.new)
        result }
{
    let stop = stop_for(words);
    let mut plugs = Plugs {
        filters: Vec::new(alloc),
        tallies: Vec::new(alloc),
    };
    do_command(
        alloc,
        &OneThread { stop },
        words,
        files,
        &mut plugs,
        out,
        err,
    )
}
