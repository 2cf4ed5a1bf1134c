//! What the stages of plugs and of tallies make of whole flows.

ghost use Rattle.std.specs.Prelude.{◌≡◌, ℕ, ℤ, Bool, List, [], length, map, filter, None, Some, Result};
ghost use Rattle.std.specs.Option.{option_map};
ghost use Rattle.cloud_points.specs.declared.point.Point.{Point};
ghost use Rattle.cloud_points.specs.Flows.{Flow, map_views, points};
ghost use Rattle.cloud_points.specs.Marks.{flow_marks};
ghost use Rattle.cloud_points.specs.Meaning.{KeepsCutting, Nature};
ghost use Rattle.network_theory.specs.Machine.{made_of, fault_on, state_after};
ghost use Rattle.stage_meanings.specs.Filters.{before_stop, first_unjudged, told_stop};
ghost use Rattle.stage_meanings.specs.declared.reason.Reason.{Reason};
ghost use Rattle.plug_stages.specs.Folds.{Step, plug_fold, state_behind, state_past, step_where};
ghost use Rattle.plug_stages.specs.PlugSteps.{all_pass, plug_spot_at, plug_stage};
ghost use Rattle.plug_stages.specs.Tallied.{tallied};
ghost use Rattle.plug_stages.specs.TallySteps.{passing, tally_spot_at, tally_stage};

/// The stage of a plug does the same however its points are cut into chunks. A node of it gives of each view the fold of the
/// plug's step from its opening, up to the first point, counted over all views, at which the `where` has no value; that is
/// its only fault. Where there is none, the plug remembers in the end what the fold over the last view came to. Without a
/// `where` the fold is that of the step, cleared.
pub fn plugs_fold()
    ensures cuts { (nature : Nature Point) (opening : List ℤ) (step : Step Point) (clear : Point → Point)
        (only : Point → Result Bool Reason) → KeepsCutting (plug_stage nature opening step clear only) }
    ensures gives { (nature : Nature Point) (opening : List ℤ) (step : Step Point) (clear : Point → Point)
        (only : Point → Result Bool Reason) (s : List ℤ) (f : Flow Point)
        → made_of (plug_stage nature opening step clear only) (plug_spot_at 0 s) f
        ≡ flow_marks (map_views (plug_fold (step_where only clear step) opening)
        (before_stop (first_unjudged only 0 (points f)) f)) }
    ensures faults { (nature : Nature Point) (opening : List ℤ) (step : Step Point) (clear : Point → Point)
        (only : Point → Result Bool Reason) (s : List ℤ) (f : Flow Point)
        → fault_on (plug_stage nature opening step clear only) (plug_spot_at 0 s) f
        ≡ option_map told_stop (first_unjudged only 0 (points f)) }
    ensures remembers { (nature : Nature Point) (opening : List ℤ) (step : Step Point) (clear : Point → Point)
        (only : Point → Result Bool Reason) (s : List ℤ) (f : Flow Point) → f.open_view ≡ [] → first_unjudged only 0 (points f) ≡ None
        → state_after (plug_stage nature opening step clear only) (plug_spot_at 0 s) f
        ≡ plug_spot_at (length (points f)) (state_past (step_where only clear step) opening s f.views) }
    ensures all { (step : Step Point) (clear : Point → Point) (opening : List ℤ) (view : List Point)
        → plug_fold (step_where all_pass clear step) opening view ≡ map clear (plug_fold step opening view) }
{}

/// The stage of a tally does the same however its points are cut into chunks. A node of it gives its flow as it is, up to the
/// first point, counted over all views, at which the `where` has no value; that is its only fault. Where there is none, the
/// tally was shown all points that pass, over all views in order, and remembers what they came to. That is what a step that
/// lets each point go on remembers behind them.
pub fn tallies_count()
    ensures cuts { (nature : Nature Point) (step : List ℤ → Point → List ℤ) (only : Point → Result Bool Reason)
        → KeepsCutting (tally_stage nature step only) }
    ensures gives { (nature : Nature Point) (step : List ℤ → Point → List ℤ) (only : Point → Result Bool Reason)
        (s : List ℤ) (f : Flow Point)
        → made_of (tally_stage nature step only) (tally_spot_at 0 0 s) f
        ≡ flow_marks (before_stop (first_unjudged only 0 (points f)) f) }
    ensures faults { (nature : Nature Point) (step : List ℤ → Point → List ℤ) (only : Point → Result Bool Reason)
        (s : List ℤ) (f : Flow Point)
        → fault_on (tally_stage nature step only) (tally_spot_at 0 0 s) f
        ≡ option_map told_stop (first_unjudged only 0 (points f)) }
    ensures remembers { (nature : Nature Point) (step : List ℤ → Point → List ℤ) (only : Point → Result Bool Reason)
        (s : List ℤ) (f : Flow Point)
        → first_unjudged only 0 (points f) ≡ None
        → state_after (tally_stage nature step only) (tally_spot_at 0 0 s) f
        ≡ tally_spot_at (length (points f)) (length (passing only (points f)))
        (tallied step s (passing only (points f))) }
    ensures same { (step : List ℤ → Point → List ℤ) (s : List ℤ) (points : List Point)
        → state_behind (λ t p. (step t p, Some p)) s points ≡ tallied step s points }
{}
