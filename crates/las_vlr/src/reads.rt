//! Reading lists of variable length records.

ghost use Rattle.std.specs.Prelude.{◌≡◌, ◌≢◌, ◌+◌, ◌-◌, ◌^◌, ◌<◌, ◌≤◌, ℕ, List, length, take, drop, max, Some, None, Ok, Err, IfOk, IfErr, OnOk, OnErr, vec_len};
ghost use Rattle.file_devices.specs.Counts.{Rose};
ghost use Rattle.las_vlr.specs.Limits.{IsShort, IsOf, AreHeld, AreHeldVlrs, AreHeldEvlrs};
ghost use Rattle.las_vlr.specs.Written.{HasSizes};
ghost use Rattle.las_vlr.specs.Vlrs.{head_size, payload_length, entry_size, entry_of, past, entry_fault, entries, vlrs_of, evlrs_of, IsRefusal, IsFault, IsInFront, MayReach};

use crate::entry::{EVLR_HEAD, ListKind};
use crate::{VLR_HEAD, Vlr, VlrErr, VlrFault, VlrList};
use byte_numbers::{u16_at, u64_at};
use file_devices::{Bytes, Source, fill};
use std::alloc::{AllocError, Global};

/// The most records of a list.
const MOST_VLRS: u32 = 4096;

/// The most bytes of all payloads of a list.
const MOST_PAYLOAD: u64 = 16_777_216;

/// The bytes in front of the payload.
fn head_size(kind: ListKind) -> usize
    ensures { result ≡ head_size kind }
{
    match kind {
        ListKind::Plain(_) => VLR_HEAD,
        ListKind::Extended => EVLR_HEAD,
    }
}

/// The length of the payload that a head announces.
fn payload_length(kind: ListKind, head: &[u8]) -> u64
    requires { EVLR_HEAD ≤ length head.now }
    ensures value { result ≡ payload_length kind head.now }
    ensures short { IsShort kind result }
{
    match kind {
        ListKind::Plain(_) => u64::from(u16_at(head, 20)),
        ListKind::Extended => u64_at(head, 20),
    }
}

/// The place `size` bytes behind another, where record `number` may reach up to it.
fn end_of(kind: ListKind, number: u32, at: u64, size: u64) -> Result<u64, VlrFault>
    ensures ok { IfOk result (λ end. (end ≡ at + size) × MayReach kind end) }
    ensures err { IfErr result (λ fault. (file : List ℕ) → length file < 2 ^ 64
        → past kind number (at + size) file ≡ Some fault) }
{
    match kind {
        ListKind::Plain(points_at) => match at.checked_add(size) {
            Some(end) if end <= points_at => Ok(end),
            _ => Err(VlrFault::VlrPastPoints(number)),
        },
        ListKind::Extended => at.checked_add(size).ok_or(VlrFault::EvlrPastEnd(number)),
    }
}

/// The fault of record `number` where it ends after the file.
fn past_file(kind: ListKind, number: u32) -> VlrFault
    ensures { (end : ℕ) (file : List ℕ) → MayReach kind end → length file < end
        → past kind number end file ≡ Some result }
{
    match kind {
        ListKind::Plain(_) => VlrFault::VlrPastEnd(number),
        ListKind::Extended => VlrFault::EvlrPastEnd(number),
    }
}

/// Reads the bytes of record `number` from a place on, as many as the slice holds.
fn read_piece<S: Source>(
    source: &mut S,
    kind: ListKind,
    number: u32,
    at: u64,
    into: &mut [u8],
) -> Result<(), VlrErr>
    requires some { 0 < length into.old }
    ensures fits { OnOk result (at + length into.old < 2 ^ 64) }
    ensures whole { OnOk result ((file : List ℕ) → S.bytes source.old ≡ Some file
        → past kind number (at + length into.old) file ≡ None) }
    ensures piece { OnOk result ((file : List ℕ) → S.bytes source.old ≡ Some file
        → into.new ≡ take (length into.old) (drop at file)) }
    ensures fault { IfErr result (λ e. (file : List ℕ) → S.bytes source.old ≡ Some file
        → IsFault (past kind number (at + length into.old) file) e) }
    ensures failed { result ≡ Err VlrErr.ReadFailed → Rose (S.faults source.old) (S.faults source.new) }
    ensures later { S.faults source.old ≤ S.faults source.new }
    ensures calm { OnOk result (S.faults source.new ≡ S.faults source.old) }
    ensures in_front { IsInFront kind (S.reached source.old) (S.reached source.new) }
    ensures same { S.bytes source.new ≡ S.bytes source.old }
{
    end_of(kind, number, at, into.len() as u64)?;
    let Ok(count) = fill(source, at, into) else {
        return Err(VlrErr::ReadFailed);
    };
    if count < into.len() {
        return Err(VlrErr::Fault(past_file(kind, number)));
    }
    Ok(())
}

/// Reads the payload of record `number`, whose head ends at a place. Memory for it is taken only once its last byte is
/// there.
fn read_payload<S: Source>(
    alloc: Global,
    source: &mut S,
    kind: ListKind,
    number: u32,
    at: u64,
    size: u64,
) -> Result<Bytes, VlrErr>
    requires small { size ≤ MOST_PAYLOAD }
    ensures fits { IfOk result (λ payload. at + size < 2 ^ 64) }
    ensures size { IfOk result (λ payload. length payload ≡ size) }
    ensures whole { IfOk result (λ payload. (file : List ℕ) → S.bytes source.old ≡ Some file
        → past kind number at file ≡ None → past kind number (at + size) file ≡ None) }
    ensures piece { IfOk result (λ payload. (file : List ℕ) → S.bytes source.old ≡ Some file
        → payload ≡ take size (drop at file)) }
    ensures fault { IfErr result (λ e. (file : List ℕ) → S.bytes source.old ≡ Some file
        → IsFault (past kind number (at + size) file) e) }
    ensures failed { result ≡ Err VlrErr.ReadFailed → Rose (S.faults source.old) (S.faults source.new) }
    ensures later { S.faults source.old ≤ S.faults source.new }
    ensures calm { OnOk result (S.faults source.new ≡ S.faults source.old) }
    ensures in_front { IsInFront kind (S.reached source.old) (S.reached source.new) }
    ensures same { S.bytes source.new ≡ S.bytes source.old }
{
    let end = end_of(kind, number, at, size)?;
    if size == 0 {
        return Ok(Bytes::new(Vec::new(alloc)));
    }
    let mut last = [0u8; 1];
    read_piece(source, kind, number, end - 1, &mut last)?;
    let mut payload = vec![in alloc; 0u8; size as usize]?;
    read_piece(source, kind, number, at, &mut payload)?;
    Ok(Bytes::new(payload))
}

/// Reads the head of record `number`, which stands at a place, into the front of `head`.
fn read_head<S: Source>(
    source: &mut S,
    kind: ListKind,
    number: u32,
    at: u64,
    head: &mut [u8],
) -> Result<(), VlrErr>
    requires room { length head.old ≡ EVLR_HEAD }
    ensures fits { OnOk result (at + head_size kind < 2 ^ 64) }
    ensures whole { OnOk result ((file : List ℕ) → S.bytes source.old ≡ Some file
        → past kind number (at + head_size kind) file ≡ None) }
    ensures front { OnOk result ((file : List ℕ) → S.bytes source.old ≡ Some file
        → take (head_size kind) head.new ≡ take (head_size kind) (drop at file)) }
    ensures fault { IfErr result (λ e. (file : List ℕ) → S.bytes source.old ≡ Some file
        → IsFault (past kind number (at + head_size kind) file) e) }
    ensures failed { result ≡ Err VlrErr.ReadFailed → Rose (S.faults source.old) (S.faults source.new) }
    ensures later { S.faults source.old ≤ S.faults source.new }
    ensures calm { OnOk result (S.faults source.new ≡ S.faults source.old) }
    ensures in_front { IsInFront kind (S.reached source.old) (S.reached source.new) }
    ensures same { S.bytes source.new ≡ S.bytes source.old }
{
    let size = head_size(kind);
    read_piece(source, kind, number, at, &mut head[..size])
}

/// The record with this head.
fn with_payload(kind: ListKind, head: &[u8], payload: Bytes) -> Vlr
    requires { EVLR_HEAD ≤ length head.now }
    ensures value { result ≡ record (entry_of kind head.now) { payload = payload } }
    ensures sizes { HasSizes result }
{
    let size = head_size(kind);
    let mut user = [0u8; 16];
    user.copy_from_slice(&head[2..18]);
    let mut text = [0u8; 32];
    text.copy_from_slice(&head[size - 32..size]);
    Vlr {
        reserved: u16_at(head, 0),
        user,
        id: u16_at(head, 18),
        text,
        payload,
    }
}

/// Reads record `number`, which stands at a place, behind payloads of `before` bytes.
fn read_entry<S: Source>(
    alloc: Global,
    source: &mut S,
    kind: ListKind,
    number: u32,
    at: u64,
    before: u64,
) -> Result<Vlr, VlrErr>
    requires { before ≤ MOST_PAYLOAD }
    ensures fits { IfOk result (λ vlr. at + (head_size kind + length vlr.payload) < 2 ^ 64) }
    ensures room { IfOk result (λ vlr. before + length vlr.payload ≤ MOST_PAYLOAD) }
    ensures held { IfOk result (IsOf kind) }
    ensures whole { IfOk result (λ vlr. (file : List ℕ) → S.bytes source.old ≡ Some file
        → entry_fault kind number at before file ≡ None) }
    ensures entry { IfOk result (λ vlr. (file : List ℕ) → S.bytes source.old ≡ Some file
        → vlr ≡ entry_of kind (drop at file)) }
    ensures size { IfOk result (λ vlr. (file : List ℕ) → S.bytes source.old ≡ Some file
        → length vlr.payload ≡ payload_length kind (drop at file)) }
    ensures fault { IfErr result (λ e. (file : List ℕ) → S.bytes source.old ≡ Some file
        → IsFault (entry_fault kind number at before file) e) }
    ensures failed { result ≡ Err VlrErr.ReadFailed → Rose (S.faults source.old) (S.faults source.new) }
    ensures later { S.faults source.old ≤ S.faults source.new }
    ensures calm { OnOk result (S.faults source.new ≡ S.faults source.old) }
    ensures in_front { IsInFront kind (S.reached source.old) (S.reached source.new) }
    ensures same { S.bytes source.new ≡ S.bytes source.old }
{
    let mut head = [0u8; EVLR_HEAD];
    read_head(source, kind, number, at, &mut head)?;
    let size = payload_length(kind, &head);
    if size > MOST_PAYLOAD - before {
        return Err(VlrErr::Fault(VlrFault::TooManyVlrs));
    }
    let payload_at = at + head_size(kind) as u64;
    let payload = read_payload(alloc, source, kind, number, payload_at, size)?;
    Ok(with_payload(kind, &head, payload))
}

/// Reads a list of records, which stand one behind another from a place.
fn read_list<S: Source>(
    alloc: Global,
    source: &mut S,
    kind: ListKind,
    start: u64,
    count: u32,
) -> Result<VlrList, VlrErr>
    ensures ok { IfOk result (λ vlrs. (file : List ℕ) → S.bytes source.old ≡ Some file
        → entries kind count start file ≡ Ok vlrs) }
    ensures count { IfOk result (λ vlrs. length vlrs ≡ count) }
    ensures held { IfOk result (AreHeld (IsOf kind)) }
    ensures fault { IfErr result (λ e. (file : List ℕ) → S.bytes source.old ≡ Some file
        → IsRefusal (entries kind count start file) e) }
    ensures failed { result ≡ Err VlrErr.ReadFailed → Rose (S.faults source.old) (S.faults source.new) }
    ensures later { S.faults source.old ≤ S.faults source.new }
    ensures calm { OnOk result (S.faults source.new ≡ S.faults source.old) }
    ensures in_front { IsInFront kind (S.reached source.old) (S.reached source.new) }
    ensures unread { count ≡ 0 → S.reached source.new ≡ S.reached source.old }
    ensures same { S.bytes source.new ≡ S.bytes source.old }
{
    if count > MOST_VLRS {
        return Err(VlrErr::Fault(VlrFault::TooManyVlrs));
    }
    let mut vlrs = Vec::new(alloc);
    let mut at = start;
    let mut before = 0;
    for number in 0..count {
        let vlr = read_entry(alloc, source, kind, number, at, before)?;
        let size = vlr.payload.as_slice().len() as u64;
        at += head_size(kind) as u64 + size;
        before += size;
        if vlrs.push(vlr).is_err() {
            return Err(VlrErr::Memory);
        }
    }
    Ok(VlrList::new(vlrs))
}

/// Reads the VLRs that stand one behind another from `start` on, `count` of them as the header says, in front of the
/// points at `points_at`. No byte past `points_at` is asked for. They are within the limits, whatever the source tells: at
/// most 4,096, with payloads of at most 65,535 bytes each, and of at most 16,777,216 bytes together.
///
/// It answers the first fault of the list, `ReadFailed` only where a read failed, and `Memory` where there is none for
/// the list. Memory for a payload is taken only once its last byte is there.
pub fn read_vlrs<S: Source>(
    alloc: Global,
    source: &mut S,
    start: u64,
    points_at: u64,
    count: u32,
) -> Result<VlrList, VlrErr>
    ensures ok { IfOk result (λ vlrs. (file : List ℕ) → S.bytes source.old ≡ Some file
        → vlrs_of start points_at count file ≡ Ok vlrs) }
    ensures count { IfOk result (λ vlrs. length vlrs ≡ count) }
    ensures held { IfOk result AreHeldVlrs }
    ensures fault { IfErr result (λ e. (file : List ℕ) → S.bytes source.old ≡ Some file
        → IsRefusal (vlrs_of start points_at count file) e) }
    ensures failed { result ≡ Err VlrErr.ReadFailed → Rose (S.faults source.old) (S.faults source.new) }
    ensures later { S.faults source.old ≤ S.faults source.new }
    ensures calm { OnOk result (S.faults source.new ≡ S.faults source.old) }
    ensures reached { S.reached source.new ≤ max (S.reached source.old) points_at }
    ensures same { S.bytes source.new ≡ S.bytes source.old }
{
    read_list(alloc, source, ListKind::Plain(points_at), start, count)
}

/// Reads the EVLRs that stand one behind another from `at` on, `count` of them as the header says. Where it is 0, no byte
/// is asked for. They are within the limits, whatever the source tells: at most 4,096, with payloads of at most 16,777,216
/// bytes together.
///
/// It answers the first fault of the list, `ReadFailed` only where a read failed, and `Memory` where there is none for
/// the list. Memory for a payload is taken only once its last byte is there.
pub fn read_evlrs<S: Source>(
    alloc: Global,
    source: &mut S,
    at: u64,
    count: u32,
) -> Result<VlrList, VlrErr>
    ensures ok { IfOk result (λ vlrs. (file : List ℕ) → S.bytes source.old ≡ Some file
        → evlrs_of at count file ≡ Ok vlrs) }
    ensures count { IfOk result (λ vlrs. length vlrs ≡ count) }
    ensures held { IfOk result AreHeldEvlrs }
    ensures fault { IfErr result (λ e. (file : List ℕ) → S.bytes source.old ≡ Some file
        → IsRefusal (evlrs_of at count file) e) }
    ensures failed { result ≡ Err VlrErr.ReadFailed → Rose (S.faults source.old) (S.faults source.new) }
    ensures later { S.faults source.old ≤ S.faults source.new }
    ensures calm { OnOk result (S.faults source.new ≡ S.faults source.old) }
    ensures unread { count ≡ 0 → S.reached source.new ≡ S.reached source.old }
    ensures same { S.bytes source.new ≡ S.bytes source.old }
{
    read_list(alloc, source, ListKind::Extended, at, count)
}
