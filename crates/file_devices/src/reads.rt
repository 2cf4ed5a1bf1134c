//! Reading a whole slice from a source, however short its reads are.
ghost use Rattle.std.specs.Prelude.{◌≡◌, ◌+◌, ◌^◌, ◌<◌, ◌≤◌, ℕ, List, length, max, Some, IfOk, OnErr};
ghost use Rattle.file_devices.specs.Counts.{HasCause};
ghost use Rattle.file_devices.specs.Filled.{Fills};

use crate::{Failed, Source};

/// Fills a slice with the bytes of a source from place `at` on, and gives how many they are.
///
/// It reads until the slice is full or the source ends, so fewer bytes than the slice holds mean
/// that the source has no more. Behind them the slice is as it was. No byte past the slice's end is
/// asked for. It fails only where a read of the source does; the slice then holds anything.
pub fn fill<S: Source>(source: &mut S, at: u64, into: &mut [u8]) -> Result<usize, Failed>
    requires { at + length into.old < 2 ^ 64 }
    ensures filled { IfOk result (λ n. Fills (S.bytes source.old) at n into.old into.new) }
    ensures reached { S.reached source.new ≤ max (S.reached source.old) (at + length into.old) }
    ensures no_further { IfOk result (λ n. S.reached source.new ≤ max (S.reached source.old) (at + n)) }
    ensures same { S.bytes source.new ≡ S.bytes source.old }
    ensures cause { HasCause (S.faults source.old) (S.faults source.new) result }
{
    let mut done = 0;
    while done < into.len() {
        let count = source.read_at(at + done as u64, &mut into[done..])?;
        if count == 0 {
            break;
        }
        done += count;
    }
    Ok(done)
}
