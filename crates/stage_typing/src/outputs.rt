//! Writers that may come to write one file.

ghost use Rattle.std.specs.Prelude.{◌≡◌, ◌<◌, ◌≤◌, ℕ, length, option_map, Some, IfSome, IsTrue, ◌↔◌};
ghost use Rattle.stage_typing.specs.Outputs.{output_of, NamesAgain, meets, is_among, names_again, same_output};

use crate::meeting::may_meet;
use stage_options::{Options, StageSpec};

/// The name that a writer is given, with a `#` or without.
fn output_of(options: &Options) -> Option<&str>
    ensures { option_map (λ s. s.now) result ≡ output_of options.now }
{
    options.role().written()
}

/// Whether a stage may come to write a file of this name.
fn meets(stage: &StageSpec, name: &str) -> bool
    ensures { result ≡ meets name.now (output_of stage.now.options) }
{
    match output_of(&stage.options) {
        Some(output) => may_meet(output, name),
        None => false,
    }
}

/// Whether one of the stages may come to write a file of this name.
fn is_among(stages: &[StageSpec], name: &str) -> bool
    ensures { result ≡ is_among stages.now (Some name.now) }
{
    stages.iter().any(|stage| meets(stage, name))
}

/// Whether stage i and an earlier one may come to write one file.
fn names_again(stages: &[StageSpec], i: usize) -> bool
    requires { i < length stages.now }
    ensures again { IsTrue result ↔ NamesAgain stages.now i }
    ensures value { result ≡ names_again stages.now i }
{
    match output_of(&stages[i].options) {
        Some(name) => is_among(&stages[..i], name),
        None => false,
    }
}

/// The number of the first stage that may come to write a file which an earlier stage writes: their names are equal, or a
/// `#` of one or both stands for digits. None where there is no such stage.
pub fn first_same_output(stages: &[StageSpec]) -> Option<usize>
    ensures value { result ≡ same_output stages.now }
    ensures found { IfSome result (NamesAgain stages.now) }
    ensures first { (k : ℕ) → NamesAgain stages.now k → (i : ℕ) × (result ≡ Some i) × (i ≤ k) }
{
    for i in 0..stages.len() {
        if names_again(stages, i) {
            return Some(i);
        }
    }
    None
}
