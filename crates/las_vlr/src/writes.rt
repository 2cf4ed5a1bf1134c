//! Writing variable length records.

ghost use Rattle.std.specs.Prelude.{◌≡◌, ◌+◌, ◌≤◌, ◌++◌, ℕ, List, length, OnOk, OnErr};
ghost use Rattle.file_devices.specs.Counts.{HasCause, saturating};
ghost use Rattle.file_devices.specs.Content.{Appends, AppendsPart};
ghost use Rattle.las_vlr.specs.Vlrs.{entry_of};
ghost use Rattle.las_vlr.specs.Written.{HasSizes, head_bytes, vlr_bytes, evlr_bytes};

use crate::Vlr;
use crate::entry::{EVLR_HEAD, ListKind};
use arrayvec::ArrayVec;
use byte_numbers::put;
use file_devices::{Failed, Sink};

/// The bytes in front of a payload.
type VlrHead = ArrayVec<u8, EVLR_HEAD>;

/// The head of a record, with the length of its payload in these bytes.
fn head_of(vlr: &Vlr, size: &[u8]) -> VlrHead
    requires { length size.now ≤ 8 }
    ensures bytes { result.items ≡ head_bytes vlr.now size.now }
    ensures sizes { HasSizes vlr.now }
{
    let mut head = VlrHead::new();
    put(&mut head, &vlr.reserved.to_le_bytes());
    put(&mut head, &vlr.user);
    put(&mut head, &vlr.id.to_le_bytes());
    put(&mut head, size);
    put(&mut head, &vlr.text);
    head
}

/// Appends a record, with the length of its payload in these bytes.
fn write_entry<K: Sink>(vlr: &Vlr, size: &[u8], out: &mut K) -> Result<(), Failed>
    requires { length size.now ≤ 8 }
    ensures ok { OnOk result (Appends (K.bytes out.old) (head_bytes vlr.now size.now ++ vlr.now.payload)
        (K.bytes out.new)) }
    ensures part { OnErr result (AppendsPart (K.bytes out.old)
        (head_bytes vlr.now size.now ++ vlr.now.payload) (K.bytes out.new)) }
    ensures count { OnOk result (K.appended out.new
        ≡ saturating (K.appended out.old) (length (head_bytes vlr.now size.now ++ vlr.now.payload))) }
    ensures no_less { K.appended out.old ≤ K.appended out.new }
    ensures cause { HasCause (K.faults out.old) (K.faults out.new) result }
    ensures sizes { HasSizes vlr.now }
{
    let head = head_of(vlr, size);
    out.append(head.as_slice())?;
    out.append(vlr.payload.as_slice())
}

/// Appends a VLR: its head of 54 bytes and then its payload, of at most 65,535 bytes.
///
/// It is `Failed` only where the sink failed. A prefix of the record was appended then.
pub fn write_vlr<K: Sink>(vlr: &Vlr, out: &mut K) -> Result<(), Failed>
    requires { length vlr.now.payload ≤ 65535 }
    ensures ok { OnOk result (Appends (K.bytes out.old) (vlr_bytes vlr.now) (K.bytes out.new)) }
    ensures part { OnErr result (AppendsPart (K.bytes out.old) (vlr_bytes vlr.now) (K.bytes out.new)) }
    ensures count { OnOk result (K.appended out.new
        ≡ saturating (K.appended out.old) (length (vlr_bytes vlr.now))) }
    ensures no_less { K.appended out.old ≤ K.appended out.new }
    ensures cause { HasCause (K.faults out.old) (K.faults out.new) result }
    ensures is_entry { (points_at : ℕ) (rest : List ℕ)
        → entry_of (ListKind.Plain points_at) (vlr_bytes vlr.now ++ rest) ≡ vlr.now }
{
    let size = vlr.payload.as_slice().len() as u16;
    write_entry(vlr, &size.to_le_bytes(), out)
}

/// Appends an EVLR: its head of 60 bytes and then its payload.
///
/// It is `Failed` only where the sink failed. A prefix of the record was appended then.
pub fn write_evlr<K: Sink>(vlr: &Vlr, out: &mut K) -> Result<(), Failed>
    ensures ok { OnOk result (Appends (K.bytes out.old) (evlr_bytes vlr.now) (K.bytes out.new)) }
    ensures part { OnErr result (AppendsPart (K.bytes out.old) (evlr_bytes vlr.now) (K.bytes out.new)) }
    ensures count { OnOk result (K.appended out.new
        ≡ saturating (K.appended out.old) (length (evlr_bytes vlr.now))) }
    ensures no_less { K.appended out.old ≤ K.appended out.new }
    ensures cause { HasCause (K.faults out.old) (K.faults out.new) result }
    ensures is_entry { (rest : List ℕ) → entry_of ListKind.Extended (evlr_bytes vlr.now ++ rest) ≡ vlr.now }
{
    let size = vlr.payload.as_slice().len() as u64;
    write_entry(vlr, &size.to_le_bytes(), out)
}
