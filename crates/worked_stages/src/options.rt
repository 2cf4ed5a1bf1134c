//! The options of trees of stages, and their first faults.

mod stages;
mod written;

use self::stages::{COUNTS, NAMES, READERS, STAGES};
use self::written::{LAS_VALUES, TEXT_VALUES};
use pipeline_json::read_pipeline;
use stage_names::{PipeErr, PipeFault};
use stage_options::{Options, Role, Tree};
use stage_typing::type_tree;
use std::alloc::{AllocError, Global};

/// A head behind a reader, up to its count.
const HEAD: &str = r#"["a.las",{"type":"filters.head","count":"#;

/// A writer to `o` behind a reader, up to a further option.
const TEXT: &str = r#"["a.las",{"type":"writers.text","filename":"o","#;

const LAS: &str = r#"["a.las",{"type":"writers.las","filename":"o","#;

/// The options of a writer as words.
fn shown_writer(alloc: Global, options: &Options) -> Result<String, AllocError> {
    match options {
        Options::WritersLas(options) => { format!(in alloc; "write {}", options.filename.as_str()) }
        Options::WritersText(options) => {
            format!(in alloc; "write {}", options.filename.as_str())
        }
        Options::WritersTally(options) => {
            format!(in alloc;
                "tally {} {}",
                options.tally.as_str(),
                options.only.is_some()
            )
        }
        _ => String::from_str(alloc, "no writer"),
    }
}

/// Options as words.
fn shown_options(alloc: Global, options: &Options) -> Result<String, AllocError> {
    match options {
        Options::ReadersLas(options) => { format!(in alloc; "read {}", options.filename.as_str()) }
        Options::FiltersRange(options) => {
            format!(in alloc; "range {}", options.limits.as_slice().len())
        }
        Options::FiltersCrop(_) => String::from_str(alloc, "crop"),
        Options::FiltersAssign(options) => {
            format!(in alloc; "assign {}", options.assignments.as_slice().len())
        }
        Options::FiltersFerry(options) => {
            format!(in alloc; "ferry {}", options.ferries.as_slice().len())
        }
        Options::FiltersExpression(_) => String::from_str(alloc, "keep"),
        Options::FiltersDecimation(options) => {
            format!(in alloc; "every {} from {}", options.step, options.offset)
        }
        Options::FiltersHead(options) => format!(in alloc; "head {}", options.count),
        Options::FiltersReturns(_) => String::from_str(alloc, "returns"),
        Options::FiltersPlug(options) => {
            format!(in alloc; "plug {} {}", options.plug.as_str(), options.only.is_some())
        }
        Options::FiltersMerge(_) => String::from_str(alloc, "merge"),
        Options::FiltersSort(options) => {
            format!(in alloc; "sort {} {}", options.dimension.as_str(), options.down)
        }
        Options::FiltersTail(options) => format!(in alloc; "tail {}", options.count),
        Options::FiltersGroupby(options) => {
            format!(in alloc; "group {}", options.dimension.as_str())
        }
        Options::FiltersSplitter(options) => {
            format!(in alloc;
                "split {} {} {}",
                options.length, options.origin_x, options.origin_y
            )
        }
        Options::FiltersVoxeldownsize(options) => { format!(in alloc; "voxels {}", options.cell) }
        _ => shown_writer(alloc, options),
    }
}

/// A fault as words.
fn shown_fault(alloc: Global, error: &PipeErr) -> Result<String, AllocError> {
    match error {
        PipeErr::Fault(PipeFault::OptionUnknown(i, name)) => {
            format!(in alloc; "unknown {} {}", *i, name.as_str())
        }
        PipeErr::Fault(PipeFault::OptionMissing(i, name)) => {
            format!(in alloc; "missing {} {}", *i, name.as_str())
        }
        PipeErr::Fault(PipeFault::OptionValue(i, name)) => {
            format!(in alloc; "wrong {} {}", *i, name.as_str())
        }
        PipeErr::Fault(PipeFault::SameOutput(i)) => format!(in alloc; "same {}", *i),
        PipeErr::Fault(_) => String::from_str(alloc, "another fault"),
        PipeErr::Memory => String::from_str(alloc, "no memory"),
    }
}

/// The options of the last stage of a tree, as words.
fn shown_last(alloc: Global, tree: &Tree) -> Result<String, AllocError> {
    match tree.as_slice().last() {
        Some(stage) => shown_options(alloc, &stage.options),
        None => String::from_str(alloc, "no stage"),
    }
}

/// The tree of a pipeline's text or the first fault of its options, where the text is one of stages.
fn typed(alloc: Global, text: &str) -> Option<Result<Tree, PipeErr>> {
    match read_pipeline(alloc, text.as_bytes()) {
        Ok(raw) => Some(type_tree(alloc, &raw)),
        Err(_) => None,
    }
}

/// The tree of a pipeline's text.
pub(crate) fn tree_of(alloc: Global, text: &str) -> Option<Tree> {
    match typed(alloc, text) {
        Some(typed) => typed.ok(),
        None => None,
    }
}

/// The options of the last stage of a pipeline's text, or the first fault, as words.
fn answer(alloc: Global, text: &str) -> Result<String, AllocError> {
    match typed(alloc, text) {
        Some(Ok(tree)) => shown_last(alloc, &tree),
        Some(Err(error)) => shown_fault(alloc, &error),
        None => String::from_str(alloc, "no tree"),
    }
}

/// Whether the pipeline that these texts are together is answered so.
fn is_answered(alloc: Global, pieces: &[&str], words: &str) -> Result<bool, AllocError> {
    let text = pieces.concat(alloc)?;
    let answer = answer(alloc, text.as_str())?;
    Ok(answer.as_str() == words)
}

/// Whether each row's text, with these before and behind it, is answered so.
fn are_answered(alloc: Global, front: &str, rows: &[(&str, &str)], end: &str) -> bool {
    let mut right = true;
    for (text, words) in rows {
        right &= is_answered(alloc, &[front, *text, end], words) == Ok(true);
    }
    right
}

/// Whether two text writers to files of these names behind a reader are answered so.
fn write_both(alloc: Global, first: &str, second: &str, words: &str) -> bool {
    const FRONT: &str = r#"["a.las",{"type":"writers.text","filename":""#;
    const BETWEEN: &str = r#""},{"type":"writers.text","filename":""#;
    let pieces = [FRONT, first, BETWEEN, second, "\"}]"];
    is_answered(alloc, &pieces, words) == Ok(true)
}

pub(crate) fn options_are_typed(alloc: Global) -> bool {
    let mut right = are_answered(alloc, "[\"a.las\"", STAGES, "]");
    for (first, second, words) in NAMES {
        right &= write_both(alloc, first, second, words);
    }
    right &= are_answered(alloc, HEAD, COUNTS, "}]");
    right &= are_answered(alloc, TEXT, TEXT_VALUES, "}]");
    right &= are_answered(alloc, LAS, LAS_VALUES, "}]");
    right & are_answered(alloc, "", READERS, "")
}

/// What a stage does, and the file that it reads or writes.
fn shown_role<'a>(role: &Role<'a>) -> (&'static str, &'a str) {
    match *role {
        Role::Reads(name) => ("reads", name),
        Role::Filters => ("filters", ""),
        Role::Gathers => ("gathers", ""),
        Role::Writes(name) => ("writes", name),
        Role::WritesEach(name) => ("writes each", name),
    }
}

/// A stage's type, the stages that it takes and the file that it reads or writes, as words.
fn shown_stage(alloc: Global, tree: &Tree, i: usize) -> Result<String, AllocError> {
    let Some(stage) = tree.as_slice().get(i) else {
        return String::from_str(alloc, "no stage");
    };
    let (does, name) = shown_role(&stage.options.role());
    let takes = stage.ins.as_slice().len();
    let first = match stage.ins.as_slice().first() {
        Some(first) => *first,
        None => 0,
    };
    format!(in alloc;
        "{} takes {takes} from {first} {does} {name}",
        stage.options.kind().name()
    )
}

/// The stages of a pipeline, as words.
const SHOWN: [&str; 7] = [
    "readers.las takes 0 from 0 reads a.las",
    "filters.head takes 1 from 0 filters ",
    "filters.merge takes 1 from 1 filters ",
    "filters.plug takes 1 from 2 filters ",
    "writers.tally takes 1 from 3 filters ",
    "writers.text takes 1 from 4 writes o.txt",
    "no stage",
];

fn are_shown(alloc: Global, tree: &Tree) -> Result<bool, AllocError> {
    let mut right = true;
    for (i, words) in SHOWN.iter().enumerate() {
        right &= shown_stage(alloc, tree, i)?.as_str() == *words;
    }
    Ok(right)
}

pub(crate) fn stages_keep_their_types_and_inputs(alloc: Global) -> bool {
    let text =
        r#"["a.las",{"type":"filters.head","count":3},{"type":"filters.merge"},{"type":"filters.plug","plug":"p"},{"type":"writers.tally","tally":"t"},"o.txt"]"#;
    match tree_of(alloc, text) {
        Some(tree) => are_shown(alloc, &tree) == Ok(true),
        None => false,
    }
}
