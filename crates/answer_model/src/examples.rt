//! Worked examples of the values of stages, proved by computing them.

ghost use Rattle.std.specs.Prelude.{◌≡◌, [], ◌∷◌, true, false, codes, Ok, Err, Some};
ghost use Rattle.cloud_points.specs.declared.faults.PointFault.{PointFault};
ghost use Rattle.answer_model.specs.Values.{evaluated, stage_value, least_fault};
ghost use Rattle.answer_model.specs.Examples.{both_into, both_through, read, head, merge, write, at_x, whole, cut_short, first_and_second, joined, merged_first, over_files};

/// Two readers into one writer: their points stand in its file one behind the other, and their views stay apart, so that a
/// head in its place lets the first point of each file pass.
pub fn inputs_are_joined()
    ensures text { evaluated (both_into (write (codes "o.txt") (0 ∷ 1 ∷ []))) (first_and_second (whole (at_x 1 ∷ [])))
        ≡ Ok joined }
    ensures views { stage_value (both_into (head 1 (0 ∷ 1 ∷ []))) (first_and_second (whole (at_x 1 ∷ []))) 2
        ≡ record { views = (at_x 1 ∷ []) ∷ (at_x 2 ∷ []) ∷ []; open_view = []; cut = false } }
    ensures order { stage_value (both_into (head 1 (1 ∷ 0 ∷ []))) (first_and_second (whole (at_x 1 ∷ []))) 2
        ≡ record { views = (at_x 2 ∷ []) ∷ (at_x 1 ∷ []) ∷ []; open_view = []; cut = false } }
{}

/// A first input that is cut has no end of its view: its points stand in the view of the second, which a head takes for one.
/// The run's fault is that of the first file.
pub fn cut_inputs_run_on()
    ensures joined { stage_value (both_into (write (codes "o.txt") (0 ∷ 1 ∷ []))) (first_and_second (cut_short (at_x 1 ∷ []) 1)) 2
        ≡ record { views = (at_x 1 ∷ at_x 2 ∷ at_x 3 ∷ []) ∷ []; open_view = []; cut = true } }
    ensures first { stage_value (both_into (head 2 (0 ∷ 1 ∷ []))) (first_and_second (cut_short (at_x 1 ∷ []) 1)) 2
        ≡ record { views = (at_x 1 ∷ at_x 2 ∷ []) ∷ []; open_view = []; cut = true } }
    ensures fault { evaluated (both_into (write (codes "o.txt") (0 ∷ 1 ∷ []))) (first_and_second (cut_short (at_x 1 ∷ []) 1))
        ≡ Err (0, PointFault.Cut 1) }
    ensures second { least_fault (both_into (write (codes "o.txt") (1 ∷ 0 ∷ []))) (first_and_second (cut_short [] 0))
        ≡ Some (0, PointFault.Cut 0) }
{}

/// Two readers through a merge into a writer: what they give is one view, with the points of the input that it takes first in
/// front. Of an input that is cut it gives no view, and the points of both in the open one. Without points it gives one view.
pub fn inputs_are_merged()
    ensures text { evaluated (both_through (merge (0 ∷ 1 ∷ []))) (first_and_second (whole (at_x 1 ∷ [])))
        ≡ Ok merged_first }
    ensures order { stage_value (both_through (merge (1 ∷ 0 ∷ []))) (first_and_second (whole (at_x 1 ∷ []))) 2
        ≡ record { views = (at_x 2 ∷ at_x 3 ∷ at_x 1 ∷ []) ∷ []; open_view = []; cut = false } }
    ensures cut { stage_value (both_through (merge (0 ∷ 1 ∷ []))) (first_and_second (cut_short (at_x 1 ∷ []) 1)) 2
        ≡ record { views = []; open_view = at_x 1 ∷ at_x 2 ∷ at_x 3 ∷ []; cut = true } }
    ensures fault { evaluated (both_through (merge (0 ∷ 1 ∷ []))) (first_and_second (cut_short (at_x 1 ∷ []) 1))
        ≡ Err (0, PointFault.Cut 1) }
    ensures none { stage_value (read (codes "a.las") ∷ merge (0 ∷ []) ∷ []) (over_files (λ k. whole [])) 1
        ≡ record { views = [] ∷ []; open_view = []; cut = false } }
{}
