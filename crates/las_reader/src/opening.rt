//! What is read before the points.

ghost use Rattle.std.specs.Prelude.{OnOk, ◌≡◌, ◌≢◌, ◌≤◌, ℕ, List, max, take, Some, Ok, IfOk, IfErr};
ghost use Rattle.file_devices.specs.Counts.{HasCause, Rose};
ghost use Rattle.las_header.specs.Headers.{minor_of};
ghost use Rattle.las_header.specs.Sound.{IsSound};
ghost use Rattle.las_header.specs.Versions.{block_size};
ghost use Rattle.las_reader.specs.Frames.{header_in, frame_of};
ghost use Rattle.las_reader.specs.Lists.{HasLists};
ghost use Rattle.las_reader.specs.Opening.{IsOfHeader, IsOpening, opening_of};

use file_devices::{Failed, Source, fill};
use las_header::{Header, HeaderFault, LONGEST_BLOCK, block_size, read_header};
use las_vlr::{VlrErr, VlrFault, VlrList, read_evlrs, read_vlrs};
use std::alloc::Global;

/// Why a reader can't be made.
#[derive(Clone, Copy, Debug, PartialEq, Eq)]
pub enum OpenErr {
    /// The header block has a fault.
    Header(HeaderFault),

    /// The VLRs have a fault, or else the EVLRs.
    Vlr(VlrFault),

    /// A read failed.
    ReadFailed,

    /// There was no memory for the VLRs, the EVLRs or the records of a chunk.
    Memory,
}

impl From<VlrErr> for OpenErr {
    ghost from_gives = { λ v e. e ≡ opening_of v };

    fn from(e: VlrErr) -> Self {
        match e {
            VlrErr::Fault(fault) => OpenErr::Vlr(fault),
            VlrErr::ReadFailed => OpenErr::ReadFailed,
            VlrErr::Memory => OpenErr::Memory,
        }
    }
}

/// What stands around the points of a file.
pub(crate) struct LasFrame {
    pub(crate) header: Header,
    pub(crate) vlrs: VlrList,
    pub(crate) evlrs: VlrList,
}

/// Where the version ends in the header block.
const VERSION_END: usize = 26;

/// Puts the header block in front of a file into the front of `block`, and answers how many bytes there are of it. Only those up to the
/// version are asked for first, and then those that its block has.
fn fill_block<S: Source>(source: &mut S, block: &mut [u8; LONGEST_BLOCK]) -> Result<usize, Failed>
    ensures within { IfOk result (λ n. n ≤ LONGEST_BLOCK) }
    ensures front { IfOk result (λ n. (file : List ℕ) → S.bytes source.old ≡ Some file
        → take n block.new ≡ take (block_size (minor_of file)) file) }
    ensures reached { S.reached source.new ≤ max (S.reached source.old) (block_size (minor_of block.new)) }
    ensures no_further { (file : List ℕ) → S.bytes source.old ≡ Some file
        → S.reached source.new ≤ max (S.reached source.old) (block_size (minor_of file)) }
    ensures same { S.bytes source.new ≡ S.bytes source.old }
    ensures cause { HasCause (S.faults source.old) (S.faults source.new) result }
{
    let seen = fill(source, 0, &mut block[..VERSION_END])?;
    if seen < VERSION_END {
        return Ok(seen);
    }
    let size = block_size(block[25]);
    let more = fill(source, VERSION_END as u64, &mut block[VERSION_END..size])?;
    Ok(VERSION_END + more)
}

/// Reads the header block of a file.
fn read_block<S: Source>(source: &mut S) -> Result<Header, OpenErr>
    ensures ok { IfOk result (λ header. (file : List ℕ) → S.bytes source.old ≡ Some file
        → header_in file ≡ Ok header) }
    ensures sound { IfOk result IsSound }
    ensures err { IfErr result (λ e. (file : List ℕ) → S.bytes source.old ≡ Some file
        → IsOpening (header_in file) e) }
    ensures failed { IfErr result (λ e. e ≡ OpenErr.ReadFailed
        → Rose (S.faults source.old) (S.faults source.new)) }
    ensures not_memory { IfErr result (λ e. e ≢ OpenErr.Memory) }
    ensures later { S.faults source.old ≤ S.faults source.new }
    ensures calm { OnOk result (S.faults source.new ≡ S.faults source.old) }
    ensures reached { IfOk result (λ header. S.reached source.new
        ≤ max (S.reached source.old) header.header_size) }
    ensures no_further { (file : List ℕ) → S.bytes source.old ≡ Some file
        → S.reached source.new ≤ max (S.reached source.old) (block_size (minor_of file)) }
    ensures bytes { S.bytes source.new ≡ S.bytes source.old }
{
    let mut block = [0u8; LONGEST_BLOCK];
    let Ok(held) = fill_block(source, &mut block) else {
        return Err(OpenErr::ReadFailed);
    };
    match read_header(&block[..held]) {
        Ok(header) => Ok(header),
        Err(fault) => Err(OpenErr::Header(fault)),
    }
}

/// Reads the header, the VLRs and the EVLRs of a file.
pub(crate) fn read_frame<S: Source>(alloc: Global, source: &mut S) -> Result<LasFrame, OpenErr>
    ensures ok { IfOk result (λ frame. (file : List ℕ) → S.bytes source.old ≡ Some file
        → frame_of file ≡ Ok frame) }
    ensures sound { IfOk result (λ frame. IsSound frame.header) }
    ensures lists { IfOk result (λ frame. HasLists frame.header frame.vlrs frame.evlrs) }
    ensures err { IfErr result (λ e. (file : List ℕ) → S.bytes source.old ≡ Some file
        → IsOpening (frame_of file) e) }
    ensures failed { IfErr result (λ e. e ≡ OpenErr.ReadFailed
        → Rose (S.faults source.old) (S.faults source.new)) }
    ensures later { S.faults source.old ≤ S.faults source.new }
    ensures calm { OnOk result (S.faults source.new ≡ S.faults source.old) }
    ensures in_front { IfOk result (λ frame. frame.header.evlrs ≡ 0
        → S.reached source.new ≤ max (S.reached source.old) frame.header.points_at) }
    ensures no_further { IfErr result (λ e. IsOfHeader e → (file : List ℕ) → S.bytes source.old ≡ Some file
        → S.reached source.new ≤ max (S.reached source.old) (block_size (minor_of file))) }
    ensures bytes { S.bytes source.new ≡ S.bytes source.old }
{
    let header = read_block(source)?;
    let vlrs = read_vlrs(
        alloc,
        source,
        header.header_size as u64,
        header.points_at as u64,
        header.vlrs,
    )?;
    let evlrs = read_evlrs(alloc, source, header.evlrs_at, header.evlrs)?;
    Ok(LasFrame {
        header,
        vlrs,
        evlrs,
    })
}
