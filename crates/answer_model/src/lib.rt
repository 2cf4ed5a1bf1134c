//! What a pipeline comes to, by evaluating its stages on whole flows of points. These are definitions and their laws: the
//! functions have no code.
#![tactic(auto)]

mod examples;

ghost use Rattle.std.specs.Prelude.{◌≡◌, ◌<◌, ℕ, List, None, Some, length, map};
ghost use Rattle.cloud_points.specs.declared.faults.PointFault.{PointFault};
ghost use Rattle.pipeline_json.specs.Trees.{IsTree};
ghost use Rattle.stage_options.specs.Shapes.{shapes};
ghost use Rattle.stage_options.specs.declared.stage.StageSpec.{StageSpec};
ghost use Rattle.answer_model.specs.Laws.{IsLeastFault};
ghost use Rattle.answer_model.specs.Values.{Opened, IsDown, las_at, role_at, row_at, reads_at, reads_with, dims_at, dims_with, stage_at, value_of, stage_value, stage_input, stage_fault, least_fault};

pub use examples::{cut_inputs_run_on, inputs_are_joined, inputs_are_merged};

/// Where each stage takes earlier ones, as in every tree, the value of a stage is the one that it has on the flow that it
/// takes; and so the files that are read below a stage, and the dimensions of its points, are those of its inputs.
pub fn values_follow_inputs()
    ensures trees { (stages : List StageSpec) → IsTree (shapes stages) → IsDown stages }
    ensures values { (stages : List StageSpec) (opened : Opened) → IsDown stages → (k : ℕ)
        → stage_value stages opened k ≡ value_of (role_at stages k) (row_at stages opened k) (las_at stages opened k) (stage_input stages opened k) }
    ensures reads { (stages : List StageSpec) (opened : Opened) → IsDown stages → (k : ℕ)
        → reads_at stages opened k ≡ reads_with stages opened k (map (reads_at stages opened) ((stage_at stages k).ins)) }
    ensures dims { (stages : List StageSpec) (opened : Opened) → IsDown stages → (k : ℕ)
        → dims_at stages opened k ≡ dims_with stages opened k (map (dims_at stages opened) ((stage_at stages k).ins)) }
{}

/// The fault of a run is that of the least stage that has one, and there is none exactly where no stage has one.
pub fn least_fault_is_least()
    ensures some { (stages : List StageSpec) (opened : Opened) (i : ℕ) (f : PointFault)
        → least_fault stages opened ≡ Some (i, f) → IsLeastFault stages opened i f }
    ensures none { (stages : List StageSpec) (opened : Opened) → least_fault stages opened ≡ None
        → (j : ℕ) → j < length stages → stage_fault stages opened j ≡ None }
{}
