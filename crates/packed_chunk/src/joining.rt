//! Lists of rows behind others.

ghost use Rattle.std.specs.Prelude.{◌≡◌, ◌<◌, ◌++◌, ◌∷◌, [], true, length, take, get_or, OnOk, OnErr};
ghost use Rattle.cloud_points.specs.Points.{zero_point};

use crate::PackedRows;
use cloud_points::Point;
use std::alloc::AllocError;

impl PackedRows {
    /// Puts the points of `later` at the end. Where there are none yet it takes that list over, with its layout, and copies
    /// nothing. It is refused as by `push`, and the points are then as before.
    pub fn append(&mut self, later: PackedRows) -> Result<(), AllocError>
        ensures ok { OnOk result (self.new.points ≡ self.old.points ++ later.points) }
        ensures refused { OnErr result (self.new.points ≡ self.old.points) }
    {
        let len = self.len();
        if len == 0 {
            *self = later;
            return Ok(());
        }
        if self.append_each(&later).is_err() {
            self.truncate(len);
            return Err(AllocError);
        }
        Ok(())
    }

    // The same, but some of the points may be there where it is refused; so too below.
    fn append_each(&mut self, later: &PackedRows) -> Result<(), AllocError>
        ensures ok { OnOk result (self.new.points ≡ self.old.points ++ later.now.points) }
        ensures refused { OnErr result (take (length self.old.points) self.new.points ≡ self.old.points) }
    {
        if self.is_alike(later) {
            return self.append_rows(later);
        }
        self.append_points(later)
    }

    // Whether another list has the same layout.
    #[inline(always)]
    fn is_alike(&self, other: &PackedRows) -> bool
        ensures { result ≡ true → other.now.layout ≡ self.now.layout }
    {
        self.layout() == other.layout()
    }

    // Of the same layout, by the bytes of the rows.
    fn append_rows(&mut self, later: &PackedRows) -> Result<(), AllocError>
        requires { later.now.layout ≡ self.old.layout }
        ensures ok { OnOk result (self.new.points ≡ self.old.points ++ later.now.points) }
        ensures refused { OnErr result (take (length self.old.points) self.new.points ≡ self.old.points) }
    {
        for k in 0..later.len() {
            self.push_row(later, k)?;
        }
        Ok(())
    }

    // Of any layout, point by point.
    fn append_points(&mut self, later: &PackedRows) -> Result<(), AllocError>
        ensures ok { OnOk result (self.new.points ≡ self.old.points ++ later.now.points) }
        ensures refused { OnErr result (take (length self.old.points) self.new.points ≡ self.old.points) }
    {
        for k in 0..later.len() {
            self.push_any(&later.get(k))?;
        }
        Ok(())
    }

    /// Puts the point at a place of another list at the end: of one with the same layout by the bytes of its row, and of
    /// another one as `push_any` does. It is refused as by `push`, and the points are then as before.
    #[inline(always)]
    pub fn push_from(&mut self, other: &PackedRows, k: usize) -> Result<(), AllocError>
        requires { k < length other.now.points }
        ensures ok { OnOk result (self.new.points
            ≡ self.old.points ++ get_or other.now.points k zero_point ∷ []) }
        ensures refused { OnErr result (self.new.points ≡ self.old.points) }
    {
        if self.is_alike(other) {
            return self.push_row(other, k);
        }
        self.push_any(&other.get(k))
    }

    /// Puts points at the end, all of them or none: as if each was put there by `push_any` in its turn. It is refused as by
    /// `push`, and the points are then as before.
    pub fn push_all(&mut self, points: &[Point]) -> Result<(), AllocError>
        ensures ok { OnOk result (self.new.points ≡ self.old.points ++ points.now) }
        ensures refused { OnErr result (self.new.points ≡ self.old.points) }
    {
        let before = self.len();
        if self.push_each(points).is_err() {
            self.truncate(before);
            return Err(AllocError);
        }
        Ok(())
    }

    // The same, but some of the points may be there where it is refused.
    fn push_each(&mut self, points: &[Point]) -> Result<(), AllocError>
        ensures ok { OnOk result (self.new.points ≡ self.old.points ++ points.now) }
        ensures refused { OnErr result (take (length self.old.points) self.new.points ≡ self.old.points) }
    {
        for p in points {
            self.push_any(p)?;
        }
        Ok(())
    }
}
