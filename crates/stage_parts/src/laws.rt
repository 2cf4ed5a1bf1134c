//! Laws of parts.

ghost use Rattle.std.specs.Prelude.{◌≡◌, ◌≢◌, ℕ, ◌-◌, ◌<◌, ◌≤◌, Bool, true, false, List, [], ◌++◌, length, map};
ghost use Rattle.cloud_points.specs.declared.point.Point.{Point};
ghost use Rattle.cloud_points.specs.Flows.{Flow, empty_flow, join_all};
ghost use Rattle.network_theory.specs.Shape.{Each, In};
ghost use Rattle.network_theory.specs.Forest.{IsForest, children};
ghost use Rattle.stage_parts.specs.Parts.{gathers_at, home_at, AreHomes, strangers, part_children, part_ins};

/// The part of a node that gathers is a tree with this root, and where the last node doesn't gather, so is the part of the
/// nodes above which none does. Each node keeps its number.
pub fn parts_are_trees()
    ensures gathered { (gathers : List Bool) (ins : List (List ℕ)) (homes : List ℕ) (w : ℕ)
        → IsForest ins (length ins - 1) → AreHomes gathers ins homes
        → w < length ins → gathers_at gathers w ≡ true
        → IsForest (part_ins gathers ins homes w w) w }
    ensures last { (gathers : List Bool) (ins : List (List ℕ)) (homes : List ℕ)
        → IsForest ins (length ins - 1) → AreHomes gathers ins homes
        → gathers_at gathers (length ins - 1) ≡ false
        → IsForest (part_ins gathers ins homes (length ins) (length ins - 1)) (length ins - 1) }

    // The children of each node of a part are those that its definition tells.
    ensures own { (gathers : List Bool) (ins : List (List ℕ)) (homes : List ℕ) (home root k : ℕ)
        → k ≤ root → children (part_ins gathers ins homes home root) k
        ≡ part_children gathers ins homes home root k }
    ensures beyond { (gathers : List Bool) (ins : List (List ℕ)) (homes : List ℕ) (home root k : ℕ)
        → root < k → children (part_ins gathers ins homes home root) k ≡ [] }
{}

/// A home lies above its node, and what a node of a part takes has the home of the part.
pub fn homes_lie_above()
    ensures near { (gathers : List Bool) (ins : List (List ℕ)) (homes : List ℕ) (home k j : ℕ)
        → AreHomes gathers ins homes → gathers_at gathers k ≡ false → home_at homes k ≡ home
        → In j (children ins k) → home_at homes j ≡ home }
    ensures near_root { (gathers : List Bool) (ins : List (List ℕ)) (homes : List ℕ) (k j : ℕ)
        → AreHomes gathers ins homes → gathers_at gathers k ≡ true
        → In j (children ins k) → home_at homes j ≡ k }
    // A home gathers, or is the number of nodes.
    ensures above { (gathers : List Bool) (ins : List (List ℕ)) (homes : List ℕ) (j : ℕ)
        → IsForest ins (length ins - 1) → AreHomes gathers ins homes
        → j < length ins → j < home_at homes j }
    ensures most { (gathers : List Bool) (ins : List (List ℕ)) (homes : List ℕ) (j : ℕ)
        → IsForest ins (length ins - 1) → AreHomes gathers ins homes
        → j < length ins → home_at homes j ≤ length ins }
    ensures home_gathers { (gathers : List Bool) (ins : List (List ℕ)) (homes : List ℕ) (j : ℕ)
        → IsForest ins (length ins - 1) → AreHomes gathers ins homes
        → j < length ins → home_at homes j < length ins
        → gathers_at gathers (home_at homes j) ≡ true }
{}

/// Strangers stand before the root and have another home, and where they give nothing the root's flow is that of its own.
pub fn strangers_give_nothing()
    ensures strange { (homes : List ℕ) (home root j : ℕ) → In j (strangers homes home root)
        → (j < root) × (home_at homes j ≢ home) }
    ensures nothing { (value : ℕ → Flow Point) (own others : List ℕ)
        → Each (λ j. value j ≡ empty_flow) others
        → join_all (map value (own ++ others)) ≡ join_all (map value own) }
{}
