//! Laws of the stages.

ghost use Rattle.std.specs.Prelude.{◌≡◌, ℤ, Bool, List, Result, option_map};
ghost use Rattle.cloud_points.specs.declared.point.Point.{Point};
ghost use Rattle.cloud_points.specs.declared.faults.StageFault.TheVariants.{Point as OfPoint};
ghost use Rattle.cloud_points.specs.Flows.{Flow, map_views, points};
ghost use Rattle.cloud_points.specs.Marks.{flow_marks};
ghost use Rattle.cloud_points.specs.Meaning.{Nature};
ghost use Rattle.network_theory.specs.Machine.{output, after_all};
ghost use Rattle.stage_meanings.specs.ByRule.{spot_at};
ghost use Rattle.stage_meanings.specs.Filtering.{Filtering, filtered, filtered_stop};
ghost use Rattle.stage_meanings.specs.Filters.{before_stop, first_unjudged};
ghost use Rattle.stage_meanings.specs.declared.reason.Reason.{Reason};
ghost use Rattle.plug_stages.specs.Folds.{Step, plug_fold, step_where};
ghost use Rattle.plug_stages.specs.PlugSteps.{plug_spot_at, plug_stage};
ghost use Rattle.plug_stages.specs.TallySteps.{tally_spot_at, tally_stage};
ghost use Rattle.stage_kinds.specs.declared.file_form.Writing.{Writing as Writes};
ghost use Rattle.stage_kinds.specs.declared.stage_work.StageState.TheVariants.{Filtering as At, Plugging, Tallying};
ghost use Rattle.stage_kinds.specs.Stages.{begun, filter_work, fresh, plug_work, tally_work, writer_work, writing_filter};

/// A filter gives for a flow what it is defined to give, and has the defined fault. A writer gives its points on, up to the first at
/// which its `where` has no value or that has no place in its file, and has its fault there.
pub fn stages_stream()
    ensures filter_gives { (f : Filtering) (flow : Flow Point)
        → output (filter_work f) (fresh (At (spot_at 0))) (flow_marks flow) ≡ flow_marks (filtered f flow) }
    ensures filter_fault { (f : Filtering) (flow : Flow Point)
        → (after_all (filter_work f) (fresh (At (spot_at 0))) (flow_marks flow)).fault ≡ option_map OfPoint (filtered_stop f flow) }
    ensures writer_gives { (x : Writes) (flow : Flow Point)
        → output writer_work (fresh (begun x)) (flow_marks flow) ≡ flow_marks (filtered (writing_filter x) flow) }
    ensures writer_fault { (x : Writes) (flow : Flow Point)
        → (after_all writer_work (fresh (begun x)) (flow_marks flow)).fault ≡ option_map OfPoint (filtered_stop (writing_filter x) flow) }
    ensures plug_gives { (nature : Nature Point) (opening : List ℤ) (step : Step Point) (clear : Point → Point)
        (only : Point → Result Bool Reason) (s : List ℤ) (flow : Flow Point)
        → output (plug_work (plug_stage nature opening step clear only)) (fresh (Plugging (plug_spot_at 0 s))) (flow_marks flow)
        ≡ flow_marks (map_views (plug_fold (step_where only clear step) opening)
        (before_stop (first_unjudged only 0 (points flow)) flow)) }
    ensures tally_gives { (nature : Nature Point) (step : List ℤ → Point → List ℤ) (only : Point → Result Bool Reason)
        (s : List ℤ) (flow : Flow Point)
        → output (tally_work (tally_stage nature step only)) (fresh (Tallying (tally_spot_at 0 0 s))) (flow_marks flow)
        ≡ flow_marks (before_stop (first_unjudged only 0 (points flow)) flow) }
{}
