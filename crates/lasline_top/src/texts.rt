//! What is printed of a plan, and of a file of generated points.

ghost use Rattle.std.specs.Prelude.{◌≡◌, ◌++◌, decimal, string_bytes, IfOk, OnOk};
ghost use Rattle.lasline_top.specs.Texts.{numbers_text, step_line, plan_text, generated_line};

use crate::count::PointCount;
use itoa::Buffer;
use stage_planner::PlanStep;
use std::alloc::{AllocError, Global};

/// Puts a number behind a text.
fn push_number(number: u64, text: &mut String) -> Result<(), AllocError>
    ensures { OnOk result (string_bytes text.new ≡ string_bytes text.old ++ decimal number) }
{
    let mut buffer = Buffer::new();
    text.push_str(buffer.format(number))
}

/// Puts numbers behind a text, each behind a space.
fn push_numbers(numbers: &[u32], text: &mut String) -> Result<(), AllocError>
    ensures { OnOk result (string_bytes text.new ≡ string_bytes text.old ++ numbers_text numbers.now) }
{
    for number in numbers {
        text.push_str(" ")?;
        push_number(*number as u64, text)?;
    }
    Ok(())
}

/// Puts the line of a step behind a text.
fn push_step(step: &PlanStep, text: &mut String) -> Result<(), AllocError>
    ensures { OnOk result (string_bytes text.new ≡ string_bytes text.old ++ step_line step.now) }
{
    match step {
        PlanStep::Run(stages) => {
            text.push_str("run")?;
            push_numbers(stages.as_slice(), text)?;
        }
        PlanStep::Whole(stage) => {
            text.push_str("whole")?;
            push_numbers(&[*stage], text)?;
        }
    }
    text.push_str("\n")
}

/// A line for each step of a plan, and then how many there are.
pub(crate) fn plan_text(alloc: Global, steps: &[PlanStep]) -> Result<String, AllocError>
    ensures { IfOk result (λ text. string_bytes text ≡ plan_text steps.now) }
{
    let mut text = String::new(alloc);
    for step in steps {
        push_step(step, &mut text)?;
    }
    text.push_str("steps ")?;
    push_number(steps.len() as u64, &mut text)?;
    text.push_str("\n")?;
    Ok(text)
}

/// The line that says how many points were generated.
pub(crate) fn generated_line(alloc: Global, count: PointCount) -> Result<String, AllocError>
    ensures { IfOk result (λ text. string_bytes text ≡ generated_line count.points) }
{
    let mut text = String::new(alloc);
    text.push_str("generated ")?;
    push_number(count.points as u64, &mut text)?;
    text.push_str(" points\n")?;
    Ok(text)
}
