//! Reading a source to its end, up to a limit.
ghost use Rattle.std.specs.Prelude.{◌≡◌, ◌+◌, ◌++◌, ◌≤◌, ◌<◌, ◌^◌, List, ℕ, length, take, drop, max, Some, IfOk, IfSome, OnOk, vec_len, Err};
ghost use Rattle.file_devices.specs.Counts.{Rose};
ghost use Rattle.file_devices.specs.Whole.{IsWhole};
ghost use Rattle.file_devices.specs.declared.whole.WholeErr.TheVariants.{Memory, Failed as ReadFailed};

use crate::{Source, fill};
use std::alloc::{AllocError, Global};

/// Why a source wasn't read to its end.
#[derive(Clone, Copy, Debug, PartialEq, Eq)]
pub enum WholeErr {
    /// A read of the source failed.
    Failed,
    /// There was no memory for the bytes.
    Memory,
}

impl From<AllocError> for WholeErr {
    ghost from_gives = { λ _ e. e ≡ Memory };

    fn from(_: AllocError) -> Self {
        WholeErr::Memory
    }
}

/// The bytes that are asked for at first.
const FIRST_PIECE: usize = 4096;

/// Reads at most `most` bytes from the place behind those of a list, and puts them there. Fewer mean that the source has
/// no more.
fn read_more<S: Source>(source: &mut S, bytes: &mut Vec<u8>, most: usize) -> Result<(), WholeErr>
    requires { vec_len bytes.old + most < 2 ^ 64 }
    ensures items { OnOk result ((b : List ℕ) → S.bytes source.old ≡ Some b
        → bytes.new.items ≡ bytes.old.items ++ take most (drop (length bytes.old.items) b)) }
    ensures no_less { OnOk result (vec_len bytes.old ≤ vec_len bytes.new) }
    ensures within { OnOk result (vec_len bytes.new ≤ vec_len bytes.old + most) }
    ensures failed { result ≡ Err ReadFailed → Rose (S.faults source.old) (S.faults source.new) }
    ensures later { S.faults source.old ≤ S.faults source.new }
    ensures same { S.bytes source.new ≡ S.bytes source.old }
    ensures reached { S.reached source.new ≤ max (S.reached source.old) (vec_len bytes.old + most) }
    ensures no_further { OnOk result (S.reached source.new ≤ max (S.reached source.old) (vec_len bytes.new)) }
{
    let start = bytes.len();
    bytes.resize(start + most, 0)?;
    let Ok(count) = fill(source, start as u64, &mut bytes[start..]) else {
        return Err(WholeErr::Failed);
    };
    bytes.truncate(start + count);
    Ok(())
}

/// All bytes of a source, or None exactly where they are more than `limit`.
///
/// At most `limit + 1` bytes are read, in pieces: 4,096 bytes, and then as many again as were read before. So the memory
/// that it takes is at most about twice what was read, or 4,096 bytes.
pub fn read_whole<S: Source>(
    alloc: Global,
    source: &mut S,
    limit: usize,
) -> Result<Option<Vec<u8>>, WholeErr>
    requires { limit + 1 < 2 ^ 64 }
    ensures ok { IfOk result (λ o. (b : List ℕ) → S.bytes source.old ≡ Some b → IsWhole b limit o) }
    ensures failed { result ≡ Err ReadFailed → Rose (S.faults source.old) (S.faults source.new) }
    ensures later { S.faults source.old ≤ S.faults source.new }
    ensures same { S.bytes source.new ≡ S.bytes source.old }
    ensures reached { S.reached source.new ≤ max (S.reached source.old) (limit + 1) }
    ensures no_further { IfOk result (λ o. IfSome o (λ bytes. S.reached source.new
        ≤ max (S.reached source.old) (vec_len bytes))) }
{
    let mut bytes = Vec::new(alloc);
    while bytes.len() <= limit {
        let start = bytes.len();
        let most = start.max(FIRST_PIECE).min(limit + 1 - start);
        read_more(source, &mut bytes, most)?;
        if bytes.len() < start + most {
            return Ok(Some(bytes));
        }
    }
    Ok(None)
}
