//! The trees of texts, and the first faults of those that are none.

use pipeline_json::{RawStage, RawTree, read_pipeline};
use stage_names::{PipeErr, PipeFault};
use std::alloc::{AllocError, Global};

/// Puts numbers behind a text.
pub(crate) fn push_numbers(
    alloc: Global,
    text: &mut String,
    numbers: &[u32],
) -> Result<(), AllocError> {
    for number in numbers {
        let shown = format!(in alloc; " {number}")?;
        text.push_str(shown.as_str())?;
    }
    Ok(())
}

/// Puts a stage behind a text, as its type and the stages that it takes.
fn push_stage(alloc: Global, text: &mut String, stage: &RawStage) -> Result<(), AllocError> {
    text.push_str(stage.kind.name())?;
    text.push_str("(")?;
    push_numbers(alloc, text, stage.ins.as_slice())?;
    text.push_str(" )")
}

fn shown_tree(alloc: Global, tree: &RawTree) -> Result<String, AllocError> {
    let mut text = String::new(alloc);
    for stage in tree.as_slice() {
        push_stage(alloc, &mut text, stage)?;
    }
    Ok(text)
}

/// The name of a fault, and the number of its stage.
fn fault_parts(fault: &PipeFault) -> (&'static str, u32) {
    match fault {
        PipeFault::TextTooLong => ("TextTooLong", 0),
        PipeFault::NotJson => ("NotJson", 0),
        PipeFault::NotAPipeline => ("NotAPipeline", 0),
        PipeFault::Empty => ("Empty", 0),
        PipeFault::TooManyStages => ("TooManyStages", 0),
        PipeFault::BadStage(i) => ("BadStage", *i),
        PipeFault::TypeUnknown(i) => ("TypeUnknown", *i),
        PipeFault::CannotInfer(i) => ("CannotInfer", *i),
        PipeFault::TagTwice(i) => ("TagTwice", *i),
        PipeFault::TagUnknown(i) => ("TagUnknown", *i),
        PipeFault::InputOfReader(i) => ("InputOfReader", *i),
        PipeFault::NoInput(i) => ("NoInput", *i),
        PipeFault::UsedTwice(i) => ("UsedTwice", *i),
        PipeFault::Loose(i) => ("Loose", *i),
        _ => ("other", 0),
    }
}

/// What a text is read as.
fn shown(alloc: Global, text: &[u8]) -> Result<String, AllocError> {
    match read_pipeline(alloc, text) {
        Ok(tree) => shown_tree(alloc, &tree),
        Err(PipeErr::Fault(fault)) => {
            let (name, number) = fault_parts(&fault);
            format!(in alloc; "{name} {number}")
        }
        Err(PipeErr::Memory) => String::from_str(alloc, "Memory"),
    }
}

/// Texts, and the types and inputs of their stages.
const TREES: &[(&str, &str)] = &[
    (r#"["a.las"]"#, "readers.las( )"),
    (r#"{"pipeline":["a.las"]}"#, "readers.las( )"),
    (r#"["a.las","b.txt"]"#, "readers.las( )writers.text( 0 )"),
    (
        r#"["a.las","b.LAS","c.Csv"]"#,
        "readers.las( )readers.las( )writers.text( 0 1 )",
    ),
    (
        r#"["a.las",{"filename":"b.xyz"}]"#,
        "readers.las( )writers.text( 0 )",
    ),
    (r#"["a.las","b.las"]"#, "readers.las( )writers.las( 0 )"),
    (
        r#"[{"type":"readers.las","filename":"x","inputs":[]},{"type":"filters.tail"}]"#,
        "readers.las( )filters.tail( 0 )",
    ),
    (
        r#"["a.las",{"type":"filters.sort","tag":"s"},"b.las",{"type":"filters.merge","inputs":"s"},"o.las"]"#,
        "readers.las( )filters.sort( 0 )readers.las( )filters.merge( 1 )writers.las( 2 3 )",
    ),
    (
        r#"[{"filename":"a.las","tag":"a"},{"filename":"b.las","tag":"b"},{"type":"filters.merge","inputs":["b","a"]},"o.las"]"#,
        "readers.las( )readers.las( )filters.merge( 1 0 )writers.las( 2 )",
    ),
    (
        r#"[{"filename":"a.las","tag":"a","tag":"b"},{"type":"filters.head","inputs":"b"}]"#,
        "readers.las( )filters.head( 0 )",
    ),
];

/// Texts with a fault of the whole.
const WHOLES: &[(&str, &str)] = &[
    ("", "NotJson 0"),
    ("[", "NotJson 0"),
    (r#"["\ud800"]"#, "NotJson 0"),
    ("null", "NotAPipeline 0"),
    (r#""a.las""#, "NotAPipeline 0"),
    ("{}", "NotAPipeline 0"),
    (r#"{"pipeline":"a.las"}"#, "NotAPipeline 0"),
    (r#"{"pipeline":{"pipeline":[]}}"#, "NotAPipeline 0"),
    ("[]", "Empty 0"),
    (r#"{"pipeline":[]}"#, "Empty 0"),
];

/// Texts with one fault of a stage.
const STAGES: &[(&str, &str)] = &[
    (r#"[""]"#, "BadStage 0"),
    (r#"["a.las",1]"#, "BadStage 1"),
    (r#"["a.las",null]"#, "BadStage 1"),
    (r#"["a.las",[]]"#, "BadStage 1"),
    (r#"["a.las",{}]"#, "BadStage 1"),
    (r#"[{"type":1,"filename":"a.las"}]"#, "BadStage 0"),
    (r#"[{"filename":1,"type":"readers.las"}]"#, "BadStage 0"),
    (r#"[{"filename":""}]"#, "BadStage 0"),
    (r#"[{"filename":"a.las","tag":null}]"#, "BadStage 0"),
    (r#"[{"filename":"a.las","tag":""}]"#, "BadStage 0"),
    (r#"[{"filename":"a.las","tag":"1a"}]"#, "BadStage 0"),
    (r#"[{"filename":"a.las","tag":"_a"}]"#, "BadStage 0"),
    (r#"[{"filename":"a.las","tag":"a-b"}]"#, "BadStage 0"),
    (r#"[{"filename":"a.las","tag":"é"}]"#, "BadStage 0"),
    (r#"[{"filename":"a.las","inputs":{}}]"#, "BadStage 0"),
    (r#"[{"filename":"a.las","inputs":[1]}]"#, "BadStage 0"),
    (r#"[{"type":"readers.laz"}]"#, "TypeUnknown 0"),
    (r#"["a.txt"]"#, "CannotInfer 0"),
    (r#"["las"]"#, "CannotInfer 0"),
    (r#"["a.las","b.txt","c.las"]"#, "CannotInfer 1"),
    (r#"["a.las","b.laz"]"#, "CannotInfer 1"),
    (
        r#"[{"filename":"a.las","tag":"a"},{"filename":"b.las","tag":"a"}]"#,
        "TagTwice 1",
    ),
    (
        r#"["a.las",{"type":"filters.head","inputs":"a"}]"#,
        "TagUnknown 1",
    ),
    (
        r#"["a.las",{"type":"filters.head","tag":"h","inputs":["h"]}]"#,
        "TagUnknown 1",
    ),
    (
        r#"[{"filename":"a.las","tag":"a"},{"type":"readers.las","inputs":"a"}]"#,
        "InputOfReader 1",
    ),
    (r#"[{"type":"filters.head"}]"#, "NoInput 0"),
    (
        r#"["a.las",{"type":"filters.head","inputs":[]}]"#,
        "NoInput 1",
    ),
    (
        r#"[{"filename":"a.las","tag":"a"},{"type":"filters.head","inputs":["a","a"]}]"#,
        "UsedTwice 1",
    ),
    (
        r#"[{"filename":"a.las","tag":"a"},{"type":"filters.head"},{"type":"filters.tail","inputs":"a"}]"#,
        "UsedTwice 2",
    ),
    (
        r#"["a.las",{"type":"readers.las","filename":"b"}]"#,
        "Loose 0",
    ),
    (
        r#"["z.las",{"filename":"a.las","tag":"a"},{"type":"filters.head","inputs":"a"}]"#,
        "Loose 0",
    ),
];

/// A reader with the tag `a`, where a pipeline begins.
const READER: &str = r#"[{"filename":"a.las","tag":"a"},"#;

/// Second stages with two faults, behind a reader with the tag `a`.
const FIRST: &[(&str, &str)] = &[
    (r#"{"type":"x","tag":"1"}"#, "BadStage 1"),
    (r#"{"filename":"x","tag":"1"}"#, "BadStage 1"),
    (
        r#"{"type":"filters.head","filename":"","tag":"a"}"#,
        "BadStage 1",
    ),
    (
        r#"{"type":"filters.head","filename":"","inputs":"z"}"#,
        "BadStage 1",
    ),
    (
        r#"{"type":"readers.las","filename":"","inputs":"a"}"#,
        "BadStage 1",
    ),
    (
        r#"{"type":"filters.head","filename":"","inputs":[]}"#,
        "BadStage 1",
    ),
    (
        r#"{"type":"filters.head","filename":"","inputs":["a","a"]}"#,
        "BadStage 1",
    ),
    (r#"{"type":"x","tag":"a"}"#, "TypeUnknown 1"),
    (r#"{"type":"x","inputs":"z"}"#, "TypeUnknown 1"),
    (r#"{"type":"x","inputs":[]}"#, "TypeUnknown 1"),
    (r#"{"type":"x","inputs":["a","a"]}"#, "TypeUnknown 1"),
    (r#"{"filename":"x","tag":"a"}"#, "CannotInfer 1"),
    (r#"{"filename":"x","inputs":"z"}"#, "CannotInfer 1"),
    (r#"{"filename":"x","inputs":[]}"#, "CannotInfer 1"),
    (r#"{"filename":"x","inputs":["a","a"]}"#, "CannotInfer 1"),
    (
        r#"{"type":"filters.head","tag":"a","inputs":"z"}"#,
        "TagTwice 1",
    ),
    (
        r#"{"type":"readers.las","tag":"a","inputs":"a"}"#,
        "TagTwice 1",
    ),
    (
        r#"{"type":"filters.head","tag":"a","inputs":[]}"#,
        "TagTwice 1",
    ),
    (
        r#"{"type":"filters.head","tag":"a","inputs":["a","a"]}"#,
        "TagTwice 1",
    ),
    (
        r#"{"type":"readers.las","inputs":["a","z"]}"#,
        "TagUnknown 1",
    ),
    (
        r#"{"type":"filters.head","inputs":["a","a","z"]}"#,
        "TagUnknown 1",
    ),
    (
        r#"{"type":"readers.las","inputs":["a","a"]}"#,
        "InputOfReader 1",
    ),
    (r#"{"type":"filters.head","inputs":[]},1"#, "NoInput 1"),
    (
        r#""b.las",{"type":"filters.head","inputs":"z"}"#,
        "TagUnknown 2",
    ),
];

/// Whether a text is read as this.
fn reads(alloc: Global, text: &[u8], wanted: &str) -> bool {
    match shown(alloc, text) {
        Ok(shown) => shown.as_str() == wanted,
        Err(_) => false,
    }
}

/// Whether stages behind a reader with the tag `a` are read as this.
fn reads_behind(alloc: Global, stages: &str, wanted: &str) -> bool {
    match [READER, stages, "]"].concat(alloc) {
        Ok(text) => reads(alloc, text.as_bytes(), wanted),
        Err(_) => false,
    }
}

pub(crate) fn texts_are_read(alloc: Global) -> bool {
    let mut right = reads(alloc, b"[\"\xff.las\"]", "NotJson 0");
    for rows in &[TREES, WHOLES, STAGES] {
        for (text, wanted) in *rows {
            right &= reads(alloc, text.as_bytes(), wanted);
        }
    }
    for (stages, wanted) in FIRST {
        right &= reads_behind(alloc, stages, wanted);
    }
    right
}

/// A text, then so often a part, then an end.
fn repeated(
    alloc: Global,
    start: &str,
    part: &str,
    count: usize,
    end: &str,
) -> Result<String, AllocError> {
    let mut text = String::from_str(alloc, start)?;
    for _ in 0..count {
        text.push_str(part)?;
    }
    text.push_str(end)?;
    Ok(text)
}

/// A text by a start, a part that is repeated, how often, and an end; and how what it is read as ends.
type Limit = (
    &'static str,
    &'static str,
    usize,
    &'static str,
    &'static str,
);

/// Texts at the limits, and past them.
const LIMITS: &[Limit] = &[
    (r#"["a.las"]"#, " ", 1_048_567, "", "readers.las( )"),
    ("", "[", 1_048_577, "", "TextTooLong 0"),
    (
        r#"["a.las""#,
        r#",{"type":"filters.head"}"#,
        63,
        "]",
        "filters.head( 62 )",
    ),
    (
        r#"["""#,
        r#",{"type":"filters.head"}"#,
        64,
        "]",
        "TooManyStages 0",
    ),
    (
        r#"[{"filename":"a.las","tag":"a"#,
        "_",
        63,
        r#""}]"#,
        "readers.las( )",
    ),
    (
        r#"[{"filename":"a.las","tag":"a"#,
        "_",
        64,
        r#""}]"#,
        "BadStage 0",
    ),
];

/// Whether what a text of such parts is read as ends so.
fn ends(alloc: Global, limit: &Limit) -> Result<bool, AllocError> {
    let &(start, part, count, end, wanted) = limit;
    let text = repeated(alloc, start, part, count, end)?;
    let shown = shown(alloc, text.as_bytes())?;
    Ok(shown.as_str().ends_with(wanted))
}

/// Whether what so many nested lists are read as ends so.
fn nested_end(alloc: Global, depth: usize, wanted: &str) -> Result<bool, AllocError> {
    let opened = repeated(alloc, "", "[", depth, "")?;
    let text = repeated(alloc, opened.as_str(), "]", depth, "")?;
    let shown = shown(alloc, text.as_bytes())?;
    Ok(shown.as_str().ends_with(wanted))
}

pub(crate) fn limits_are_kept(alloc: Global) -> bool {
    let mut right = nested_end(alloc, 127, "BadStage 0") == Ok(true);
    right &= nested_end(alloc, 128, "NotJson 0") == Ok(true);
    for limit in LIMITS {
        right &= ends(alloc, limit) == Ok(true);
    }
    right
}

/// Whether these are a reader without a name and a head with both of its own.
fn are_named(stages: &[RawStage]) -> bool {
    let [reader, head] = stages else {
        return false;
    };
    let (Some(tag), Some(name)) = (&head.tag, &head.filename) else {
        return false;
    };
    let mut right = reader.tag.is_none() & reader.options.is_empty();
    right &= head.options.len() == 2;
    right &= head.options.contains_key("count") & head.options.contains_key("where");
    right & (tag.as_str() == "h") & (name.as_str() == "n")
}

pub(crate) fn names_and_options_are_kept(alloc: Global) -> bool {
    let text =
        r#"["a.las",{"type":"filters.head","tag":"h","count":3,"inputs":[],"inputs":"r"},{"type":"x"}]"#;
    let right = reads(alloc, text.as_bytes(), "TagUnknown 1");
    let text =
        r#"["a.las",{"type":"filters.head","tag":"h","count":3,"filename":"n","where":"Z > 1"}]"#;
    match read_pipeline(alloc, text.as_bytes()) {
        Ok(tree) => right & are_named(&tree.into_vec()),
        Err(_) => false,
    }
}
