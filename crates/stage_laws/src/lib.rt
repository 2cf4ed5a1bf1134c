//! Laws of plans and of filters that need more than one crate. The functions have no code.
#![tactic(auto)]

ghost use Rattle.std.specs.Prelude.{◌≡◌, ℕ, ◌+◌, ◌*◌, ◌^◌, ◌<◌, ◌≤◌, true, List, length, slice_get, take, None, Some, Result, Ok, Bool, unwrap_or};
ghost use Rattle.cloud_points.specs.declared.point.Point.{Point};
ghost use Rattle.pipeline_json.specs.Trees.{IsTree};
ghost use Rattle.stage_meanings.specs.Filters.{on_view};
ghost use Rattle.stage_meanings.specs.Rules.{decimation};
ghost use Rattle.stage_meanings.specs.declared.reason.Reason.{Reason};
ghost use Rattle.stage_options.specs.Shapes.{shapes};
ghost use Rattle.stage_options.specs.declared.stage.StageSpec.{StageSpec};
ghost use Rattle.stage_parts.specs.Parts.{home_at};
ghost use Rattle.stage_planner.specs.Covering.{StandsIn};
ghost use Rattle.stage_planner.specs.Plans.{is_whole, plan_of, taker};
ghost use Rattle.stage_laws.specs.Runs.{AreHomesOf, EndsRun};

/// Each run of a tree's plan lies in one part of the tree: in that of the stage that takes the run's end, which needs whole
/// views, or in the last one, where none takes it, since it is the last stage. So a part is a stage that needs whole views with
/// all runs that end in it, or the last run.
pub fn runs_lie_in_parts()
    ensures runs { (stages : List StageSpec) (homes : List ℕ) (e a i : ℕ)
        → IsTree (shapes stages) → AreHomesOf stages homes → EndsRun stages e a → StandsIn (plan_of stages) i a
        → home_at homes i ≡ unwrap_or (taker stages e) (length stages) }
    ensures whole { (stages : List StageSpec) (e a w : ℕ)
        → IsTree (shapes stages) → EndsRun stages e a → taker stages e ≡ Some w → is_whole stages w ≡ true }
    ensures last { (stages : List StageSpec) (e a : ℕ)
        → IsTree (shapes stages) → EndsRun stages e a → taker stages e ≡ None → e + 1 ≡ length stages }
{}

/// Where its `where` lets every point through, a decimation gives the points at its steps: those at offset, offset + step and
/// so on, of a view with at most 2^64 points, or of the first `limit` of any view.
pub fn decimation_steps()
    ensures steps { (step offset : ℕ) (only : Point → Result Bool Reason) (view : List Point)
        → 0 < step → ((p : Point) → only p ≡ Ok true) → length view ≤ 2 ^ 64 → (k : ℕ)
        → slice_get (on_view (decimation step offset None) only view) k ≡ slice_get view (offset + k * step) }
    ensures limited { (step offset limit : ℕ) (only : Point → Result Bool Reason) (view : List Point)
        → 0 < step → ((p : Point) → only p ≡ Ok true) → limit < 2 ^ 64 → (k : ℕ)
        → slice_get (on_view (decimation step offset (Some limit)) only view) k
        ≡ slice_get (take limit view) (offset + k * step) }
{}
