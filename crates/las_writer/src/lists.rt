//! The variable length records of a written file.

ghost use Rattle.std.specs.Prelude.{◌≡◌, ◌+◌, ◌≤◌, ◌^◌, length, IfOk, OnOk, OnErr};
ghost use Rattle.std.specs.List.{All, flat_map};
ghost use Rattle.file_devices.specs.Counts.{HasCause};
ghost use Rattle.file_devices.specs.Content.{Appends, AppendsPart};
ghost use Rattle.las_header.specs.Versions.{block_size};
ghost use Rattle.las_vlr.specs.Limits.{AreHeldVlrs};
ghost use Rattle.las_writer.specs.LasOutput.{IsForm, extra_vlrs};
ghost use Rattle.las_vlr.specs.Written.{IsVlr, payload_size, vlr_bytes, evlr_bytes};

use extra_bytes::extra_vlr;
use file_devices::{Failed, Sink};
use forward_rules::LasForm;
use las_header::block_size;
use las_vlr::{VLR_HEAD, Vlr, VlrList, write_evlr, write_vlr};
use std::alloc::{AllocError, Global};

/// The bytes of a VLR.
#[tactic(auto, using(crate::proofs::FirstItems::vlr_length))]
fn vlr_size(vlr: &Vlr) -> u32
    requires { IsVlr vlr.now }
    ensures size { result ≡ length (vlr_bytes vlr.now) }
    ensures parts { result ≡ VLR_HEAD + payload_size vlr.now }
{
    (VLR_HEAD + vlr.payload.as_slice().len()) as u32
}

/// How many bytes VLRs take.
fn vlrs_size(vlrs: &[Vlr]) -> u32
    requires { AreHeldVlrs vlrs.now }
    ensures size { result ≡ length (flat_map vlr_bytes vlrs.now) }
    ensures small { result ≤ 2 ^ 25 }
{
    let mut size = 0;
    for vlr in vlrs {
        size += vlr_size(vlr);
    }
    size
}

/// Where the points begin in a file of this minor version, behind the header block, these VLRs, and the one that describes the extra
/// dimensions, where there is one.
pub(crate) fn points_at(minor: u8, vlrs: &[Vlr], extra: &[Vlr]) -> u32
    requires vlrs { AreHeldVlrs vlrs.now }
    requires extra { AreHeldVlrs extra.now }
    ensures { result ≡ block_size minor + (length (flat_map vlr_bytes vlrs.now)
        + length (flat_map vlr_bytes extra.now)) }
{
    block_size(minor) as u32 + (vlrs_size(vlrs) + vlrs_size(extra))
}

/// The VLR that describes the extra dimensions of a file, where it has some.
pub(crate) fn extra_vlrs(alloc: Global, form: &LasForm) -> Result<VlrList, AllocError>
    requires { IsForm form.now }
    ensures { IfOk result (λ list. list ≡ extra_vlrs form.now.extra) }
{
    let mut vlrs = Vec::new(alloc);
    let fields = form.extra.as_slice();
    if !fields.is_empty() {
        vlrs.push(extra_vlr(alloc, fields)?)?;
    }
    Ok(VlrList::new(vlrs))
}

/// Appends VLRs, one after another.
pub(crate) fn put_vlrs<K: Sink>(vlrs: &[Vlr], sink: &mut K) -> Result<(), Failed>
    requires { All IsVlr vlrs.now }
    ensures ok { OnOk result (Appends (K.bytes sink.old) (flat_map vlr_bytes vlrs.now) (K.bytes sink.new)) }
    ensures part { OnErr result (AppendsPart (K.bytes sink.old) (flat_map vlr_bytes vlrs.now)
        (K.bytes sink.new)) }
    ensures no_less { K.appended sink.old ≤ K.appended sink.new }
    ensures cause { HasCause (K.faults sink.old) (K.faults sink.new) result }
{
    for vlr in vlrs {
        write_vlr(vlr, sink)?;
    }
    Ok(())
}

/// Appends EVLRs, one after another.
pub(crate) fn put_evlrs<K: Sink>(vlrs: &[Vlr], sink: &mut K) -> Result<(), Failed>
    ensures ok { OnOk result (Appends (K.bytes sink.old) (flat_map evlr_bytes vlrs.now) (K.bytes sink.new)) }
    ensures no_less { K.appended sink.old ≤ K.appended sink.new }
    ensures cause { HasCause (K.faults sink.old) (K.faults sink.new) result }
{
    for vlr in vlrs {
        write_evlr(vlr, sink)?;
    }
    Ok(())
}
