//! The header of a written file.

ghost use Rattle.std.specs.Prelude.{◌≡◌, ◌+◌, ◌*◌, ◌<◌, ◌≤◌, ◌^◌, length};
ghost use Rattle.std.specs.List.{All};
ghost use Rattle.las_header.specs.Formats.{format_size};
ghost use Rattle.las_header.specs.Offsets.{IsOffset};
ghost use Rattle.point_formats.specs.Grids.{IsNear, coordinate};
ghost use Rattle.las_writer.specs.LasOutput.{IsForm, has_wide_counts, is_old, with_text_systems, legacy, legacy_returns, from_one, bound, bounds, points_at, file_vlrs, file_evlrs, evlrs_at, header_with};
ghost use Rattle.las_writer.specs.Records.{record_size};

use crate::Totals;
use crate::records::grid_for;
use crate::totals::RETURNS;
use decimal_coords::real;
use extra_bytes::fields_size;
use forward_rules::LasForm;
use ieee_words::near;
use las_header::{Format, Header, block_size};
use las_vlr::Vlr;
use point_formats::Grid;

/// Bit 4 of the encoding, which says that coordinate systems are given as text.
const TEXT_SYSTEMS: u16 = 16;

/// Whether files of this minor version have EVLRs, and counts of 64 bits: those of LAS 1.4 alone.
fn has_wide_counts(minor: u8) -> bool
    ensures { result ≡ has_wide_counts minor }
{
    minor == 4
}

/// The EVLRs of the file.
pub(crate) fn file_evlrs(form: &LasForm) -> &[Vlr]
    ensures { result.now ≡ file_evlrs form.now }
{
    if has_wide_counts(form.minor) {
        form.evlrs.as_slice()
    } else {
        &[]
    }
}

/// How many VLRs the file has: that of the extra dimensions stands behind all others.
fn vlr_count(form: &LasForm) -> u32
    requires { IsForm form.now }
    ensures { result ≡ length (file_vlrs form.now) }
{
    let count = form.vlrs.as_slice().len() as u32;
    if form.extra.as_slice().is_empty() {
        count
    } else {
        count + 1
    }
}

/// The length of each record.
fn record_size(form: &LasForm) -> u16
    requires { IsForm form.now }
    ensures { result ≡ record_size form.now }
{
    form.format.size() + fields_size(form.extra.as_slice()) as u16
}

/// Whether a format is one of 0 to 3, which have counts of 32 bits too.
fn is_old(format: Format) -> bool
    ensures { result ≡ is_old format }
{
    format.number() < 6
}

fn with_text_systems(format: Format, encoding: u16) -> u16
    ensures { result ≡ with_text_systems format encoding }
{
    if is_old(format) || encoding / TEXT_SYSTEMS % 2 != 0 {
        encoding
    } else {
        encoding + TEXT_SYSTEMS
    }
}

/// A count in 32 bits, of `count` points.
fn legacy(format: Format, count: u64, n: u64) -> u32
    ensures { result ≡ legacy format count n }
{
    if is_old(format) && count <= u32::MAX as u64 {
        n.min(u32::MAX as u64) as u32
    } else {
        0
    }
}

/// The coordinate of a raw number on an axis, in nanounits.
fn nano_on(grid: &Grid, axis: usize, raw: i32) -> i64
    requires axis { axis < 3 }
    requires near { IsNear grid.now }
    ensures { result ≡ coordinate grid.now axis raw }
{
    real(raw, grid.scale[axis], grid.offset[axis])
}

/// The word of a raw number's coordinate on an axis.
fn bound(grid: &Grid, axis: usize, numbers: [i32; 3]) -> u64
    requires axis { axis < 3 }
    requires near { IsNear grid.now }
    ensures { result ≡ bound grid.now axis numbers }
{
    near(nano_on(grid, axis, numbers[axis]), 9)
}

fn bounds(grid: &Grid, totals: &Totals) -> [u64; 6]
    requires { IsNear grid.now }
    ensures { result ≡ bounds grid.now totals.now }
{
    if totals.count == 0 {
        return [0; 6];
    }
    [
        bound(grid, 0, totals.greatest),
        bound(grid, 0, totals.least),
        bound(grid, 1, totals.greatest),
        bound(grid, 1, totals.least),
        bound(grid, 2, totals.greatest),
        bound(grid, 2, totals.least),
    ]
}

/// Where the EVLRs begin, behind so many points from a place on.
fn evlrs_at(form: &LasForm, start: u32, count: u64) -> u64
    requires start { start ≡ points_at form.now }
    requires form { IsForm form.now }
    ensures { result ≡ evlrs_at form.now count }
{
    if file_evlrs(form).is_empty() {
        return 0;
    }
    let size = record_size(form) as u64;
    count.saturating_mul(size).saturating_add(start as u64)
}

/// The header with these totals, whose points begin at a place.
#[tactic(auto, unfolding(crate::specs::LasOutput::header_with))]
pub(crate) fn header_with(form: &LasForm, start: u32, totals: &Totals) -> Header
    requires start { start ≡ points_at form.now }
    requires form { IsForm form.now }
    ensures { result ≡ header_with form.now totals.now }
{
    let count = totals.count;
    let all = totals.returns;
    let format = form.format;
    let is_wide = has_wide_counts(form.minor);
    Header {
        signature: *b"LASF",
        source_id: form.source_id,
        encoding: with_text_systems(format, form.encoding),
        guid: form.guid,
        major: 1,
        minor: form.minor,
        system: form.system,
        software: form.software,
        day: form.day,
        year: form.year,
        header_size: block_size(form.minor) as u16,
        points_at: start,
        vlrs: vlr_count(form),
        format,
        record_length: record_size(form),
        legacy_count: legacy(format, count, count),
        legacy_returns: legacy_returns(format, count, all),
        scale: form.scale,
        offset: form.offset,
        bounds: bounds(&grid_for(form), totals),
        waveform: 0,
        evlrs_at: evlrs_at(form, start, count),
        evlrs: file_evlrs(form).len() as u32,
        count: if is_wide { count } else { 0 },
        returns: if is_wide { from_one(all) } else { [0; 15] },
    }
}

/// The counts of return numbers 1 to 5 in 32 bits, of `count` points.
fn legacy_returns(format: Format, count: u64, all: [u64; RETURNS]) -> [u32; 5]
    ensures { result ≡ legacy_returns format count all }
{
    [
        legacy(format, count, all[1]),
        legacy(format, count, all[2]),
        legacy(format, count, all[3]),
        legacy(format, count, all[4]),
        legacy(format, count, all[5]),
    ]
}

/// The counts of return numbers 1 to 15.
fn from_one(all: [u64; RETURNS]) -> [u64; 15]
    ensures { result ≡ from_one all }
{
    [
        all[1], all[2], all[3], all[4], all[5], all[6], all[7], all[8], all[9], all[10], all[11],
        all[12], all[13], all[14], all[15],
    ]
}
