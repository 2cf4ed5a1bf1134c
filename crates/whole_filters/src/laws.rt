//! Laws of the whole filters.

ghost use Rattle.std.specs.Prelude.{◌≡◌, ◌<◌, ℤ, Bool, List, [], ◌∷◌, ◌++◌, All, AllPairs, IsPermutation, IsSortedBy, false, length, if◌then◌else◌};
ghost use Rattle.std.specs.List.{list_any};
ghost use Rattle.std.specs.List.Sorted.{IsStableBy};
ghost use Rattle.cloud_points.specs.Flows.{all_of};
ghost use Rattle.cloud_points.specs.declared.point.Point.{Point};
ghost use Rattle.whole_filters.specs.Whole.{before, sorted_by, distinct, first_of_each, groups};

/// A sorted view has the points of the view, in the order of the key, upwards or downwards; points of one key stay in their
/// order; and no other list does both.
pub fn sort_laws()
    ensures permutes { (key : Point → ℤ) (down : Bool) (view : List Point)
        → IsPermutation view (sorted_by (before key down) view) }
    ensures in_order { (key : Point → ℤ) (down : Bool) (view : List Point)
        → IsSortedBy (before key down) (sorted_by (before key down) view) }
    ensures ties_stay { (key : Point → ℤ) (down : Bool) (view : List Point)
        → IsStableBy (before key down) view (sorted_by (before key down) view) }
    ensures only { (key : Point → ℤ) (down : Bool) (view other : List Point)
        → IsSortedBy (before key down) other → IsStableBy (before key down) view other
        → other ≡ sorted_by (before key down) view }
{}

/// The groups of a view by an equality of keys hold each of its points once; no group is empty; each value of the key has one
/// group, and a value that comes later stands behind those that came before.
pub fn group_laws<K: Eq>()
    ensures each_point_once { (key : Point → K) (view : List Point)
        → IsPermutation view (all_of (groups K.eq key view)) }
    ensures not_empty { (key : Point → K) (view : List Point)
        → All (λ group. 0 < length group) (groups K.eq key view) }
    ensures all_values { (v : K) (vs : List K) → list_any (K.eq v) (distinct K.eq vs) ≡ list_any (K.eq v) vs }
    ensures values_once { (vs : List K) → AllPairs (λ v w. K.eq v w ≡ false) (distinct K.eq vs) }
    ensures in_order { (vs : List K) (v : K) → distinct K.eq (vs ++ v ∷ [])
        ≡ (if list_any (K.eq v) vs then distinct K.eq vs else distinct K.eq vs ++ v ∷ []) }
{}

/// Of an empty view nothing is kept. A point that comes behind a view is kept exactly where no point of that view has its key, and
/// changes nothing else.
pub fn first_of_each_laws<K: Eq>()
    ensures none { (key : Point → K) → first_of_each K.eq key [] ≡ [] ∷ [] }
    ensures one_more { (key : Point → K) (view : List Point) (p : Point) → all_of (first_of_each K.eq key (view ++ p ∷ []))
        ≡ all_of (first_of_each K.eq key view) ++ (if list_any (λ q. K.eq (key p) (key q)) view then [] else p ∷ []) }
{}
