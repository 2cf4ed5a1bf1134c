//! Laws of filters.

ghost use Rattle.std.specs.Prelude.{◌≡◌, ℕ, ◌+◌, ◌^◌, ◌<◌, Bool, true, List, length, take, filter, None, Result, Ok};
ghost use Rattle.std.specs.Option.{option_map};
ghost use Rattle.cloud_points.specs.declared.point.Point.{Point};
ghost use Rattle.cloud_points.specs.Flows.{Flow};
ghost use Rattle.cloud_points.specs.Marks.{flow_marks};
ghost use Rattle.network_theory.specs.Machine.{made_of, fault_on};
ghost use Rattle.stage_meanings.specs.Filtering.{Filtering, filtered, filtered_fault, filter_meaning};
ghost use Rattle.stage_meanings.specs.declared.reason.Reason.{Reason};
ghost use Rattle.stage_meanings.specs.Filters.{Rule, first_from, why, on_view, told_stop, is_true};
ghost use Rattle.stage_meanings.specs.Rules.{head};
ghost use Rattle.stage_meanings.specs.ByRule.{rule_meaning, spot_at};

/// A node that filters gives for a flow just what the filter is defined to give, and has just the defined fault: that of the
/// least point, counted over all views, that can't be judged.
pub fn filters_stream()
    ensures gives { (filter : Filtering) (f : Flow Point)
        → made_of (filter_meaning filter) (spot_at 0) f ≡ flow_marks (filtered filter f) }
    ensures faults { (filter : Filtering) (f : Flow Point)
        → fault_on (filter_meaning filter) (spot_at 0) f ≡ filtered_fault filter f }
{}

/// From the beginning of a view, behind n points, a filter gives what its rule is defined to give of the view, if each of its
/// points can be judged, and then stands at the beginning of the next view; else it has the fault of the first that can't.
pub fn views_begin_anew()
    ensures fault { (rule : Rule Point Reason) (only : Point → Result Bool Reason) (n : ℕ) (view : List Point)
        → (rule_meaning rule only).fault (spot_at n) view
        ≡ option_map told_stop (first_from (why rule only) n view) }
    ensures gives { (rule : Rule Point Reason) (only : Point → Result Bool Reason) (n : ℕ) (view : List Point)
        → first_from (why rule only) n view ≡ None → (rule_meaning rule only).emit (spot_at n) view
        ≡ on_view rule only view }
    ensures anew { (rule : Rule Point Reason) (only : Point → Result Bool Reason) (n : ℕ) (view : List Point)
        → first_from (why rule only) n view ≡ None
        → (rule_meaning rule only).at_view ((rule_meaning rule only).after (spot_at n) view)
        ≡ (spot_at (n + length view), true) }
{}

/// Of the points that pass its `where`, a head keeps the first so many; without a `where` it gives the first so many of all.
pub fn heads_are_first()
    ensures passing { (only : Point → Result Bool Reason) (n : ℕ) → n < 2 ^ 64 → (view : List Point)
        → filter (λ p. is_true (only p)) (on_view (head n) only view)
        ≡ take n (filter (λ p. is_true (only p)) view) }
    ensures all { (n : ℕ) → n < 2 ^ 64 → (view : List Point)
        → on_view {R = Reason} (head n) (λ p. Ok true) view ≡ take n view }
{}
