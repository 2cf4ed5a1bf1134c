//! Which points have a place in a file, found without a file.

ghost use Rattle.std.specs.Prelude.{◌≡◌};
ghost use Rattle.las_writer.specs.LasOutput.{IsForm};
ghost use Rattle.las_writer.specs.Records.{fits, grid_for, unplaced, written};

use crate::RecordFault;
use crate::records::{MOST_RECORD, encode_record, grid_for};
use cloud_points::Point;
use forward_rules::LasForm;
use las_header::fits_count;
use point_formats::ReadyGrid;

/// The places of the points of a LAS file, by which a point is judged before there is a file.
#[derive(Drop)]
pub struct PointPlaces<'a> {
    form: &'a LasForm,
    grid: ReadyGrid,
    ghost decided: { IsForm form.now },
    ghost same: { grid ≡ grid_for form.now },
}

impl<'a> PointPlaces<'a> {
    /// The places of a file of this form.
    pub fn of(form: &'a LasForm) -> PointPlaces<'a>
        requires { IsForm form.now }
        ensures { result.form.now ≡ form.now }
    {
        PointPlaces {
            form,
            grid: ReadyGrid::of(&grid_for(form)),
        }
    }

    /// Why a point has no place behind so many that are written before; None exactly where it has one.
    pub fn refusal(&self, before: u64, point: &Point) -> Option<RecordFault>
        ensures { result ≡ unplaced (fits self.now.form.now before) (written self.now.form.now point.now) }
    {
        if !fits_count(self.form.minor, before.saturating_add(1)) {
            return Some(RecordFault::TooMany);
        }
        let mut record = [0; MOST_RECORD];
        match encode_record(point, self.form, &self.grid, &mut record) {
            Ok(_size) => None,
            Err(fault) => Some(fault.into()),
        }
    }
}
