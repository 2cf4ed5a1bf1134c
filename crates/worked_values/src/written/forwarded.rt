//! What goes over from files that are read.

ghost use Rattle.std.specs.Prelude.{◌≡◌, ◌<◌, true, IfOk};
ghost use Rattle.las_header.specs.Versions.{is_version};
ghost use Rattle.las_writer.specs.LasOutput.{IsForm};

use super::samples::{BOUNDS, options};
use cloud_points::{Make, Spread};
use decimal_coords::Scale;
use file_devices::{Bytes, MemIn, SureOut};
use forward_rules::{Forwarding, LasForm};
use las_header::{Format, Header};
use las_reader::LasReader;
use las_round_trip::{
    extra_is_read_back, files_are_read_back, files_become_bytes, points_are_read_back,
};
use las_vlr::{Vlr, VlrList};
use las_writer::{
    LasWriter, forms_are_taken, raw_numbers_are_steps, refusals_are_cut, unfinished_grows,
};
use recorded_files::two_points;
use std::alloc::{AllocError, Global};

/// A header of format 7 with this step, day and offset of X.
fn header(step: Scale, day: u16, offset: i64) -> Header {
    Header {
        signature: *b"LASF",
        source_id: 9,
        encoding: 1,
        guid: [7; 16],
        major: 1,
        minor: 4,
        system: [65; 32],
        software: [66; 32],
        day,
        year: 2026,
        header_size: 375,
        points_at: 375,
        vlrs: 0,
        format: Format::F7,
        record_length: 36,
        legacy_count: 0,
        legacy_returns: [0; 5],
        scale: [step; 3],
        offset: [offset, 0, 0],
        bounds: [0; 6],
        waveform: 0,
        evlrs_at: 0,
        evlrs: 0,
        count: 0,
        returns: [0; 15],
    }
}

fn record(alloc: Global, user: [u8; 16], id: u16) -> Result<Vlr, AllocError> {
    Ok(Vlr {
        reserved: 0,
        user,
        id,
        text: [0; 32],
        payload: Bytes::new(vec![in alloc; 1u8, 2]?),
    })
}

/// A record of a coordinate system, and one that describes extra bytes.
fn records(alloc: Global) -> Result<VlrList, AllocError> {
    let mut vlrs = Vec::new(alloc);
    vlrs.push(record(alloc, *b"LASF_Projection\0", 2112)?)?;
    vlrs.push(record(alloc, *b"LASF_Spec\0\0\0\0\0\0\0", 4)?)?;
    Ok(VlrList::new(vlrs))
}

/// The form behind two files, of which the second has another day and another offset of X.
fn form(alloc: Global, forward: &[&str]) -> Option<LasForm> {
    let step = Scale::new(1_000_000)?;
    let opts = options(alloc, None, forward, Some(3)).ok()?;
    let mut forwarding = Forwarding::begin(alloc, &opts).ok()?;
    let none = VlrList::new(Vec::new(alloc));
    for (day, offset) in [(1, 5), (2, 6)] {
        let vlrs = records(alloc).ok()?;
        forwarding
            .add(alloc, &header(step, day, offset), &vlrs, &none)
            .ok()?;
    }
    Some(forwarding.form(alloc))
}

/// What is told of a form: its format, its scales, the offset of X, its source id, encoding, day and year, the first letter
/// of its system identifier, and how many VLRs it has.
type Told = (Format, [i64; 3], i64, [u16; 4], u8, usize);

fn told(alloc: Global, forward: &[&str]) -> Option<Told> {
    let form = form(alloc, forward)?;
    let [x, y, z] = form.scale;
    Some((
        form.format,
        [x.nano(), y.nano(), z.nano()],
        form.offset[0],
        [form.source_id, form.encoding, form.day, form.year],
        form.system[0],
        form.vlrs.as_slice().len(),
    ))
}

/// What is forwarded, and the form. The day and the offset differ between the files, and the source id is given.
const FORMS: [(&[&str], Told); 4] = [
    (
        &["all"],
        (Format::F7, [1_000_000; 3], 0, [3, 1, 0, 2026], b'A', 1),
    ),
    (
        &["scale_y", "creation_year"],
        (
            Format::F3,
            [10_000_000, 1_000_000, 10_000_000],
            0,
            [3, 0, 0, 2026],
            b'l',
            0,
        ),
    ),
    (
        &["header", "offset"],
        (Format::F3, [10_000_000; 3], 0, [3, 1, 0, 2026], b'A', 0),
    ),
    (
        &["format", "vlr"],
        (Format::F7, [10_000_000; 3], 0, [3, 0, 0, 0], b'l', 1),
    ),
];

pub fn fields_are_given_or_go_over_or_are_the_defaults(alloc: Global) -> bool {
    let mut right = true;
    for &(forward, expected) in &FORMS {
        right &= told(alloc, forward) == Some(expected);
    }
    right
}

/// The form of a file of this minor version that takes all over from another.
fn form_of(alloc: Global, minor: u8, reader: &LasReader<MemIn>) -> Result<LasForm, AllocError>
    requires { is_version minor ≡ true }
    ensures { IfOk result IsForm }
{
    let opts = options(alloc, Some(minor), &["all"], None)?;
    let mut forwarding = Forwarding::begin(alloc, &opts)?;
    forwarding.add(alloc, reader.header(), reader.vlrs(), reader.evlrs())?;
    forms_are_taken();
    Ok(forwarding.form(alloc))
}

/// The file of the first points of a reader, with all that stands around them.
fn again(alloc: Global, minor: u8, reader: &mut LasReader<MemIn>) -> Option<Vec<u8>>
    requires { is_version minor ≡ true }
{
    let form = form_of(alloc, minor, reader).ok()?;
    let sink = SureOut::new(alloc, 1000).ok()?;
    let mut points = Spread::new();
    let made = reader.next(64, &mut points);
    let Ok(mut writer) = LasWriter::begin(alloc, sink, form) else {
        return None;
    };
    let mut put = made == Make::Points;
    for point in &points {
        put = put && writer.put(point).is_ok();
    }
    let finished = writer.finish().is_ok();
    let sink = writer.release();
    if !put || !finished {
        return None;
    }
    Vec::from_slice(alloc, sink.bytes()?).ok()
}

/// A file that is read, and written again in this minor version with all that stands around its points.
fn read_and_written(alloc: Global, minor: u8, file: &[u8]) -> Option<Vec<u8>>
    requires { is_version minor ≡ true }
{
    let content = Vec::from_slice(alloc, file).ok()?;
    let source = MemIn::new(content, 1000, Vec::new(alloc));
    let Ok(mut reader) = LasReader::begin(alloc, source) else {
        return None;
    };
    let file = again(alloc, minor, &mut reader);
    drop(reader.release());
    file
}

/// A file of two points, with their bounds.
fn sample() -> [u8; 415] {
    let mut file = two_points();
    file[179..227].copy_from_slice(&BOUNDS);
    file
}

/// Whether a file is read, and written again as it was.
fn is_written_again(alloc: Global, file: &[u8]) -> bool {
    match read_and_written(alloc, 4, file) {
        Some(written) => written.as_slice() == file,
        None => false,
    }
}

pub fn a_file_is_written_again_as_it_was(alloc: Global) -> bool {
    extra_is_read_back();
    files_are_read_back();
    files_become_bytes();
    points_are_read_back();
    raw_numbers_are_steps();
    refusals_are_cut();
    unfinished_grows();
    is_written_again(alloc, &sample())
}

/// An EVLR: its user, the size of its payload, and the payload.
const EVLR: [u8; 62] = [
    0, 0, b's', b'u', b'r', b'v', b'e', b'y', 0, 0, 0, 0, 0, 0, 0, 0, 0, 0, 0, 0, 2, 0, 0, 0, 0, 0,
    0, 0, 0, 0, 0, 0, 0, 0, 0, 0, 0, 0, 0, 0, 0, 0, 0, 0, 0, 0, 0, 0, 0, 0, 0, 0, 0, 0, 0, 0, 0, 0,
    0, 0, 7, 8,
];

/// The file of two points, whose header names an EVLR behind it.
fn front_of_evlr() -> [u8; 415] {
    let mut front = sample();
    front[235..247].copy_from_slice(&[0x9F, 1, 0, 0, 0, 0, 0, 0, 1, 0, 0, 0]);
    front
}

/// A file of two points, and the EVLR behind them.
fn sample_with_evlr() -> [u8; 477] {
    let mut file = [0; 477];
    file[..415].copy_from_slice(&front_of_evlr());
    file[415..].copy_from_slice(&EVLR);
    file
}

pub fn evlrs_go_over_into_files_of_1_4_alone(alloc: Global) -> bool {
    let file = sample_with_evlr();
    let is_shorter = match read_and_written(alloc, 2, &file) {
        Some(older) => older.len() == 267,
        None => false,
    };
    is_shorter && is_written_again(alloc, &file)
}
