//! Laws of lists of records.

ghost use Rattle.std.specs.Prelude.{◌≡◌, ◌+◌, ◌≤◌, ◌++◌, ℕ, List, length, Ok};
ghost use Rattle.std.specs.List.{flat_map};
ghost use Rattle.las_vlr.specs.Vlrs.{vlrs_of, evlrs_of};
ghost use Rattle.las_vlr.specs.Limits.{AreHeldVlrs, AreHeldEvlrs};
ghost use Rattle.las_vlr.specs.Written.{vlr_bytes, evlr_bytes};
ghost use Rattle.las_vlr.specs.declared.entry.Vlr.{Vlr};

/// VLRs that are written one after another in front of the points, within the limits of a list, are the list that is
/// read there.
pub fn written_vlrs_are_read()
    ensures { (front rest : List ℕ) (vlrs : List Vlr) (points_at : ℕ) → AreHeldVlrs vlrs
        → length front + length (flat_map vlr_bytes vlrs) ≤ points_at
        → vlrs_of (length front) points_at (length vlrs) (front ++ (flat_map vlr_bytes vlrs ++ rest)) ≡ Ok vlrs }
{}

/// EVLRs that are written one after another, within the limits of a list, are the list that is read there.
pub fn written_evlrs_are_read()
    ensures { (front rest : List ℕ) (vlrs : List Vlr) → AreHeldEvlrs vlrs
        → evlrs_of (length front) (length vlrs) (front ++ (flat_map evlr_bytes vlrs ++ rest)) ≡ Ok vlrs }
{}
