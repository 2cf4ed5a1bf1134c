//! The plans of pipelines, and the names of the files of views.

use crate::options::tree_of;
use crate::trees::push_numbers;
use stage_options::{Tree, is_numbered, numbered};
use stage_planner::{PlanStep, plan};
use std::alloc::{AllocError, Global};
use std::test::Fail;

/// Puts a step as words behind a text.
fn push_step(alloc: Global, text: &mut String, step: &PlanStep) -> Result<(), AllocError> {
    match step {
        PlanStep::Run(numbers) => {
            text.push_str("run")?;
            push_numbers(alloc, text, numbers.as_slice())?;
        }
        PlanStep::Whole(number) => {
            text.push_str("whole")?;
            push_numbers(alloc, text, &[*number])?;
        }
    }
    text.push_str(";")
}

/// The plan of a tree, as words.
fn shown_plan(alloc: Global, tree: &Tree) -> Result<String, AllocError> {
    let steps = plan(alloc, tree)?;
    let mut shown = String::new(alloc);
    for step in steps.as_slice() {
        push_step(alloc, &mut shown, step)?;
    }
    Ok(shown)
}

/// Pipelines, and their steps.
const PLANS: &[(&str, &str)] = &[
    (r#"["a.las","o.las"]"#, "run 0 1;"),
    (r#"["a.las","o_#.las"]"#, "run 0;whole 1;"),
    (
        r#"["a.las",{"type":"filters.head"},{"type":"writers.text","filename":"o_#.txt"},{"type":"filters.head"},"p.las"]"#,
        "run 0 1;whole 2;run 3 4;",
    ),
    (
        r#"["a.las",{"type":"filters.groupby","dimension":"Z"},"o_#.las"]"#,
        "run 0;whole 1;whole 2;",
    ),
];

/// Names, the numbers of views, and the names of their files.
const FILES: &[(&str, u64, &str)] = &[
    ("o_#.las", 1, "o_1.las"),
    ("#", 10, "10"),
    ("é#", 4_294_967_296, "é4294967296"),
    ("o.las", 7, "o.las"),
    ("#/#", 12, "12/12"),
];

/// Whether a pipeline has these steps.
fn is_planned(alloc: Global, text: &str, steps: &str) -> Result<bool, AllocError> {
    match tree_of(alloc, text) {
        Some(tree) => Ok(shown_plan(alloc, &tree)?.as_str() == steps),
        None => Ok(false),
    }
}

/// Whether the file of a view has this name.
fn is_named(alloc: Global, name: &str, number: u64, file: &str) -> Result<bool, AllocError> {
    Ok(numbered(alloc, name, number)?.as_str() == file)
}

pub(crate) fn plans_and_names_are_made(alloc: Global) -> bool {
    let mut right = is_numbered("o_#.las") & !is_numbered("o.las");
    for (text, steps) in PLANS {
        right &= is_planned(alloc, text, steps) == Ok(true);
    }
    for &(name, number, file) in FILES {
        right &= is_named(alloc, name, number, file) == Ok(true);
    }
    right
}
