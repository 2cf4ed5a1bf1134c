//! What a stage does with points.

ghost use Rattle.std.specs.Prelude.{◌≡◌, ◌≢◌, ℕ, ◌+◌, ◌<◌, ◌≤◌, max, Bool, true, false, List, [], ◌++◌, Option, None, is_some};
ghost use Rattle.arrayvec.specs.ArrayVec.{array_vec_len};
ghost use Rattle.cloud_points.specs.Extents.{Extent};
ghost use Rattle.cloud_points.specs.Meaning.{Meaning, KeepsCutting};

use crate::faults::{Make, StageFault};
use crate::spread::Spread;

/// What a stage does: a leaf makes points, any other work turns the points of its inputs into those that go on.
///
/// A work has a state, which is plain data, and five functions of it that say what its calls do. An event may
/// come in between: its device fails, or it notes want of memory.
pub trait Work {
    type State;

    ghost use Rattle.cloud_points.specs.declared.point.Point.{Point};
    ghost use Rattle.cloud_points.specs.declared.faults.StageFault.{StageFault};
    ghost use Rattle.file_devices.specs.Counts.{Rose};
    ghost use Rattle.file_devices.specs.declared.devices.Op.{Op};
    ghost use Rattle.cloud_points.specs.Events.{happened, is_device, ran_short, first_fault, IsOf};
    ghost use Rattle.cloud_points.specs.Marks.{Mark, marks, views_in};
    ghost use Rattle.cloud_points.specs.Makes.{made, made_fault, gives_points, gives_end, ends_cut};

    /// What the work remembers.
    ghost state: { Self → Self.State };

    /// What its calls do. No call changes it.
    ghost meaning: { Self → Meaning Self.State Point StageFault };

    /// It has no inputs. No call changes it.
    ghost leaf: { Self → Bool };

    /// It noted want of memory.
    ghost short: { Self → Bool };

    /// How often its device failed.
    ghost faults: { Self → ℕ };

    /// What it does with its device, where it has one: the operation that a fault of its device names. No call changes it.
    ghost op: { Self → Option Op };

    /// A leaf whose content is told, and the flow and the fault that it still gives.
    ghost tells: { Self → Bool };

    ghost told: { Self → List (Mark Point) };

    ghost told_fault: { Self → Option StageFault };

    /// How many points and views a leaf has left at most.
    ghost points_left: { Self → ℕ };

    ghost views_left: { Self → ℕ };

    /// The points in what a leaf reads, where that is told.
    ghost extent: { Self → Option Extent };

    /// How many points a leaf has read beyond those that it gave.
    ghost ahead: { Self → ℕ };

    /// Whether its sink holds what these points come to, where it has one that tells its bytes; true of any other work.
    /// It stands beside the state, because a sink may stop telling.
    ghost holds: { Self → List Point → Bool };

    /// Whether it makes points, and has no inputs.
    fn is_leaf(&self) -> bool
        ensures { result ≡ leaf self.now };

    /// The leaf's next 1 to `chunk` points, which are put in place of what the spread held, or an end, which
    /// leaves the spread empty. An end that has a fault is cut.
    fn make(&mut self, chunk: usize, into: &mut Spread) -> Make
        requires leaf { leaf self.old ≡ true }
        requires some { 0 < chunk }
        requires most { chunk ≤ 64 }

        ensures meaning { meaning self.new ≡ meaning self.old }
        ensures leaf { leaf self.new ≡ leaf self.old }
        ensures op { op self.new ≡ op self.old }
        ensures some { gives_points result ≡ true → 0 < array_vec_len into.new }
        ensures most { array_vec_len into.new ≤ chunk }
        ensures empty { gives_points result ≡ false → into.new.items ≡ [] }
        ensures cut { is_some (made_fault result) ≡ true → ends_cut result ≡ true }

        // Where its content is told and no device fails, it gives the next part of that.
        ensures part { tells self.old ≡ true → is_device (made_fault result) ≡ false
            → told self.old ≡ marks (made result into.new.items) ++ told self.new }
        ensures fault { tells self.old ≡ true → is_device (made_fault result) ≡ false
            → told_fault self.old ≡ first_fault (made_fault result) (told_fault self.new) }
        ensures last { tells self.old ≡ true → is_device (made_fault result) ≡ false → gives_end result ≡ true
            → told self.new ≡ [] }
        ensures last_fault { tells self.old ≡ true → is_device (made_fault result) ≡ false
            → gives_end result ≡ true → told_fault self.new ≡ None }
        ensures tells { tells self.old ≡ true → is_device (made_fault result) ≡ false
            → gives_end result ≡ false → tells self.new ≡ true }

        ensures extent { extent self.new ≡ extent self.old }
        ensures ahead { ahead self.new + array_vec_len into.new ≤ max chunk (ahead self.old) }
        ensures fewer_points { points_left self.new + array_vec_len into.new ≤ points_left self.old }
        ensures fewer_views { views_left self.new + views_in (made result into.new.items)
            ≤ views_left self.old }
        ensures cause { is_device (made_fault result) ≡ true → Rose (faults self.old) (faults self.new) }
        ensures calm { is_device (made_fault result) ≡ false → faults self.new ≡ faults self.old }
        ensures named { IsOf (op self.old) (made_fault result) }
        ensures count { faults self.old ≤ faults self.new }
        ensures holds { (before : List Point) → holds self.old before ≡ true → holds self.new before ≡ true }
        ensures stays_short { short self.new ≡ short self.old };

    /// Turns the points into those that go on. After a fault at a point these are what the points before it gave,
    /// and after an event there are none.
    fn on_chunk(&mut self, points: &mut Spread) -> Option<StageFault>
        requires inner { leaf self.old ≡ false }
        requires some { 0 < array_vec_len points.old }

        ensures meaning { meaning self.new ≡ meaning self.old }
        ensures leaf { leaf self.new ≡ leaf self.old }
        ensures op { op self.new ≡ op self.old }
        ensures state { happened result (short self.old) (short self.new) ≡ false
            → state self.new ≡ (meaning self.old).after (state self.old) points.old.items }
        ensures points { happened result (short self.old) (short self.new) ≡ false
            → points.new.items ≡ (meaning self.old).emit (state self.old) points.old.items }
        ensures fault { happened result (short self.old) (short self.new) ≡ false
            → result ≡ (meaning self.old).fault (state self.old) points.old.items }
        ensures event { happened result (short self.old) (short self.new) ≡ true → points.new.items ≡ [] }
        ensures alone { ran_short (short self.old) (short self.new) ≡ true → result ≡ None }
        ensures holds { happened result (short self.old) (short self.new) ≡ false → (before : List Point)
            → holds self.old before ≡ true → holds self.new (before ++ points.old.items) ≡ true }

        ensures cause { is_device result ≡ true → Rose (faults self.old) (faults self.new) }
        ensures calm { is_device result ≡ false → faults self.new ≡ faults self.old }
        ensures named { IsOf (op self.old) result }
        ensures count { faults self.old ≤ faults self.new }
        ensures stays_short { short self.old ≡ true → short self.new ≡ true };

    /// Whether the end of a view goes on.
    fn on_end_view(&mut self) -> bool
        requires { leaf self.old ≡ false }

        ensures meaning { meaning self.new ≡ meaning self.old }
        ensures leaf { leaf self.new ≡ leaf self.old }
        ensures op { op self.new ≡ op self.old }
        ensures state { ran_short (short self.old) (short self.new) ≡ false
            → state self.new ≡ ((meaning self.old).at_view (state self.old)).0 }
        ensures goes_on { result ≡ ((meaning self.old).at_view (state self.old)).1 }
        ensures holds { (before : List Point) → holds self.old before ≡ true → holds self.new before ≡ true }
        ensures calm { faults self.new ≡ faults self.old }
        ensures stays_short { short self.old ≡ true → short self.new ≡ true };

    /// Whether an end of a view goes before the end of all, which comes next. `cut` says whether that is cut.
    fn on_end(&mut self, cut: bool) -> bool
        requires { leaf self.old ≡ false }

        ensures meaning { meaning self.new ≡ meaning self.old }
        ensures leaf { leaf self.new ≡ leaf self.old }
        ensures op { op self.new ≡ op self.old }
        ensures gives { (meaning self.old).at_end (state self.old) cut ≡ (state self.new, result) }
        ensures holds { (before : List Point) → holds self.old before ≡ true → holds self.new before ≡ true }
        ensures calm { faults self.new ≡ faults self.old }
        ensures stays_short { short self.new ≡ short self.old };

    /// Its meaning keeps the law of cutting.
    ghost cutting: { (w : Self) → KeepsCutting (meaning w) };
}
