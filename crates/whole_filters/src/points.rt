//! The points of a view that is let go on the way.

ghost use Rattle.std.specs.Prelude.{◌≡◌, ◌<◌, ◌++◌, ◌∷◌, [], true, false, drop, length, get_or, OnOk, OnErr};
ghost use Rattle.cloud_points.specs.Points.{zero_point};

use crate::keys::PointKey;
use crate::rows::Rows;
use std::alloc::AllocError;
use std::marker::Model;

/// So many points are let go at once.
const PIECE: usize = 4096;

/// The points of a view in their order. The view is let go piece by piece behind them. Contracts see the points that are left.
#[derive(Drop)]
pub(crate) struct Points {
    rows: Rows,
    at: usize,
}

impl Model for Points {
    ghost use Rattle.std.specs.Prelude.{List, drop, length, ◌≤◌};
    ghost use Rattle.cloud_points.specs.declared.point.Point.{Point};

    ghost Value = { List Point };

    ghost view = { λ s. drop s.at s.rows };

    ghost invariant = { λ s. s.at ≤ length s.rows };
}

impl Points {
    /// The points of this view.
    pub(crate) fn of(rows: Rows) -> Points
        ensures { result ≡ rows }
    {
        Points { rows, at: 0 }
    }

    /// Whether one is left.
    #[inline(always)]
    pub(crate) fn has_more(&self) -> bool
        ensures more { result ≡ true → 0 < length self.now }
        ensures none { result ≡ false → self.now ≡ [] }
    {
        self.at < self.rows.len()
    }

    /// The key of the first one.
    #[inline(always)]
    pub(crate) fn first_key<K: PointKey>(&self, by: &K) -> K::Key
        requires { 0 < length self.now }
        ensures { result ≡ K.key by.now (get_or self.now 0 zero_point) }
    {
        self.rows.key_at(by, self.at)
    }

    /// Puts the first one at the end of other rows. It is refused for want of memory alone.
    #[inline(always)]
    pub(crate) fn push_first(&self, rows: &mut Rows) -> Result<(), AllocError>
        requires { 0 < length self.now }
        ensures ok { OnOk result (rows.new ≡ rows.old ++ get_or self.now 0 zero_point ∷ []) }
        ensures refused { OnErr result (rows.new ≡ rows.old) }
    {
        rows.push_from(&self.rows, self.at)
    }

    /// Goes on to the next one.
    #[inline(always)]
    pub(crate) fn skip(&mut self)
        requires { 0 < length self.old }
        ensures { self.new ≡ drop 1 self.old }
    {
        let _len = self.rows.len();
        self.at += 1;
        self.let_go();
    }

    // Lets go of the points that were given, where they are a piece.
    #[inline(always)]
    fn let_go(&mut self)
        ensures { self.new ≡ self.old }
    {
        if self.at == PIECE {
            self.rows.let_go(PIECE);
            self.at = 0;
        }
    }
}
