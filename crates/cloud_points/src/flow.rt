//! Laws of flows.

ghost use Rattle.std.specs.Prelude.{◌≡◌, ℕ, List, ◌++◌, take};
ghost use Rattle.cloud_points.specs.declared.point.Point.{Point};
ghost use Rattle.cloud_points.specs.Flows.{Flow, join, points, upto};
ghost use Rattle.cloud_points.specs.Marks.{Item, all_marks, flow_marks, flow_of, piece_marks};

/// A flow is read back from its marks; joined flows are their marks and their points one after the other,
/// however they are grouped; the points up to a place are the first so many; and a list of items stands for
/// its flow however it is cut.
pub fn flow_laws()
    ensures read_back { (f : Flow Point) → flow_of (flow_marks f) ≡ f }
    ensures joined_marks { (a b : Flow Point) → piece_marks (join a b) ≡ piece_marks a ++ piece_marks b }
    ensures joined_points { (a b : Flow Point) → points (join a b) ≡ points a ++ points b }
    ensures joined_groups { (a b c : Flow Point) → join (join a b) c ≡ join a (join b c) }
    ensures first_points { (f : Flow Point) (m : ℕ) → points (upto f m) ≡ take m (points f) }
    ensures items { (a b : List (Item Point)) → all_marks (a ++ b) ≡ all_marks a ++ all_marks b }
{}
