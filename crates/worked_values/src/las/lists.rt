//! Records that are read and written, and lists that are refused.

use crate::pieces::put_bytes;
use file_devices::{MemIn, SureOut};
use las_vlr::{
    Vlr, VlrErr, VlrFault, VlrList, read_evlrs, read_vlrs, write_evlr, write_vlr,
    written_evlrs_are_read, written_vlrs_are_read,
};
use std::alloc::Global;

/// Where the VLR stands.
const VLR_AT: u64 = 10;

/// Where the points begin, right behind the VLR.
const POINTS_AT: u64 = 67;

/// Where the EVLR stands, up to the end of the file.
const EVLR_AT: u64 = 69;

/// Places of a file with a VLR, points of two bytes, and an EVLR, and what stands there.
const PIECES: [(usize, &[u8]); 12] = [
    (10, &[1]),
    (12, b"LASF_Spec"),
    (28, &[4]),
    (30, &[3]),
    (32, b"extra"),
    (64, b"abc"),
    (67, b"pp"),
    (71, b"lasline"),
    (87, &[5]),
    (89, &[2]),
    (97, b"a place"),
    (129, b"de"),
];

fn file() -> [u8; 131] {
    let mut bytes = [0u8; 131];
    for &(at, piece) in &PIECES {
        let _ = put_bytes(&mut bytes, at, piece);
    }
    bytes
}

/// A source of these bytes, that gives seven at a time and fails at one call, if it is not 0.
fn source(alloc: Global, bytes: &[u8], fails: u64) -> Option<MemIn> {
    let content = Vec::from_slice(alloc, bytes).ok()?;
    let fails = Vec::from_slice(alloc, &[fails]).ok()?;
    Some(MemIn::new(content, 7, fails))
}

/// Whether this is the VLR of the file.
fn is_vlr(vlr: &Vlr) -> bool {
    (vlr.reserved, vlr.id) == (1, 4)
        && vlr.user.starts_with(b"LASF_Spec\0")
        && vlr.text.starts_with(b"extra\0")
        && vlr.payload.as_slice() == b"abc".as_slice()
}

/// Whether this is the EVLR of the file.
fn is_evlr(vlr: &Vlr) -> bool {
    (vlr.reserved, vlr.id) == (0, 5)
        && vlr.text.starts_with(b"a place\0")
        && vlr.payload.as_slice() == b"de".as_slice()
}

/// Whether each record is the VLR of the file, and is written.
fn are_vlrs_written(vlrs: &VlrList, sink: &mut SureOut) -> bool {
    for vlr in vlrs.as_slice() {
        let is_short = vlr.payload.as_slice().len() <= 65535;
        if !is_vlr(vlr) || is_short && write_vlr(vlr, sink).is_err() {
            return false;
        }
    }
    true
}

/// Whether each record is the EVLR of the file, and is written.
fn are_evlrs_written(evlrs: &VlrList, sink: &mut SureOut) -> bool {
    for evlr in evlrs.as_slice() {
        if !is_evlr(evlr) || write_evlr(evlr, sink).is_err() {
            return false;
        }
    }
    true
}

/// Whether the VLR of the file is read, and written again.
fn write_vlrs_again(alloc: Global, source: &mut MemIn, sink: &mut SureOut) -> bool {
    match read_vlrs(alloc, source, VLR_AT, POINTS_AT, 1) {
        Ok(vlrs) => are_vlrs_written(&vlrs, sink),
        Err(_) => false,
    }
}

/// Whether the EVLR of the file is read, and written again.
fn write_evlrs_again(alloc: Global, source: &mut MemIn, sink: &mut SureOut) -> bool {
    match read_evlrs(alloc, source, EVLR_AT, 1) {
        Ok(evlrs) => are_evlrs_written(&VlrList::new(evlrs.into_vec()), sink),
        Err(_) => false,
    }
}

/// Whether both records of the file were written, and no more.
fn are_both(written: Option<&[u8]>, file: &[u8; 131]) -> bool {
    let Some(written) = written else {
        return false;
    };
    written.len() == 119 && written.starts_with(&file[10..67]) && written.ends_with(&file[69..])
}

pub fn records_are_read_and_written_back(alloc: Global) -> bool {
    let bytes = file();
    written_vlrs_are_read();
    written_evlrs_are_read();
    let Some(mut source) = source(alloc, &bytes, 0) else {
        return false;
    };
    let Ok(mut sink) = SureOut::new(alloc, 200) else {
        return false;
    };
    write_vlrs_again(alloc, &mut source, &mut sink)
        && write_evlrs_again(alloc, &mut source, &mut sink)
        && are_both(sink.bytes(), &bytes)
}

/// Where a list of VLRs is sought, where the points begin, how many it has, and why it is refused.
const VLRS_REFUSED: [(u64, u64, u32, VlrFault); 8] = [
    (VLR_AT, POINTS_AT, u32::MAX, VlrFault::TooManyVlrs),
    (VLR_AT, POINTS_AT, 4097, VlrFault::TooManyVlrs),
    (VLR_AT, POINTS_AT, 2, VlrFault::VlrPastPoints(1)),
    (VLR_AT, 66, 1, VlrFault::VlrPastPoints(0)),
    (VLR_AT, 63, 1, VlrFault::VlrPastPoints(0)),
    (u64::MAX, u64::MAX, 1, VlrFault::VlrPastPoints(0)),
    (78, u64::MAX, 1, VlrFault::VlrPastEnd(0)),
    (76, u64::MAX, 1, VlrFault::VlrPastEnd(0)),
];

/// Why a list of VLRs is refused, where the read with this number fails, if it is not 0.
fn vlrs_refusal(
    alloc: Global,
    bytes: &[u8],
    (start, points_at, count): (u64, u64, u32),
    fails: u64,
) -> Option<VlrErr> {
    let mut source = source(alloc, bytes, fails)?;
    read_vlrs(alloc, &mut source, start, points_at, count).err()
}

pub fn hostile_vlrs_are_refused(alloc: Global) -> bool {
    let mut right = true;
    let mut bytes = file();
    bytes[89] = 3;
    for &(start, points_at, count, fault) in &VLRS_REFUSED {
        let refusal = vlrs_refusal(alloc, &bytes, (start, points_at, count), 0);
        right &= refusal == Some(VlrErr::Fault(fault));
    }
    right
}

/// The length of the EVLR's payload, where a list of EVLRs is sought, how many it has, and why it is refused.
const EVLRS_REFUSED: [(u64, u64, u32, VlrFault); 5] = [
    (3, EVLR_AT, u32::MAX, VlrFault::TooManyVlrs),
    (u64::MAX, EVLR_AT, 1, VlrFault::TooManyVlrs),
    (3, EVLR_AT, 1, VlrFault::EvlrPastEnd(0)),
    (3, 72, 1, VlrFault::EvlrPastEnd(0)),
    (3, u64::MAX, 1, VlrFault::EvlrPastEnd(0)),
];

/// The file whose EVLR gives its payload this length.
fn with_length(length: u64) -> [u8; 131] {
    let mut bytes = file();
    bytes[89..97].copy_from_slice(&length.to_le_bytes());
    bytes
}

/// Why a list of EVLRs is refused, where the EVLR gives its payload this length.
fn evlrs_refusal(alloc: Global, length: u64, at: u64, count: u32) -> Option<VlrErr> {
    let mut source = source(alloc, &with_length(length), 0)?;
    read_evlrs(alloc, &mut source, at, count).err()
}

pub fn hostile_evlrs_are_refused(alloc: Global) -> bool {
    let mut right = true;
    for &(length, at, count, fault) in &EVLRS_REFUSED {
        let refusal = evlrs_refusal(alloc, length, at, count);
        right &= refusal == Some(VlrErr::Fault(fault));
    }
    right
}

pub fn a_failed_read_is_no_fault_of_the_file(alloc: Global) -> bool {
    let mut right = true;
    let bytes = file();
    for fails in 1..11u64 {
        let refusal = vlrs_refusal(alloc, &bytes, (VLR_AT, POINTS_AT, 1), fails);
        right &= refusal == Some(VlrErr::ReadFailed);
    }
    right
}
