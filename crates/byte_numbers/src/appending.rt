//! Puts numbers and pieces behind the bytes of a list with room for them.

ghost use Rattle.std.specs.Prelude.{◌≡◌, ◌+◌, ◌*◌, ◌^◌, ◌<◌, ◌≤◌, ◌++◌, length};
ghost use Rattle.std.specs.List.{All, flat_map};
ghost use Rattle.std.specs.Int.{w32, w64, to_le_bytes};
ghost use Rattle.arrayvec.specs.ArrayVec.{array_vec_len};

use arrayvec::ArrayVec;

/// Puts a piece behind the bytes of a list.
pub fn put<const CAP: usize>(part: &mut ArrayVec<u8, CAP>, bytes: &[u8])
    requires { array_vec_len part.old + length bytes.now ≤ CAP }
    ensures items { part.new.items ≡ part.old.items ++ bytes.now }
    ensures len { array_vec_len part.new ≡ array_vec_len part.old + length bytes.now }
{
    match part.try_extend_from_slice(bytes) {
        Ok(()) => (),
        Err(_) => unreachable!(),
    }
}

/// Puts numbers behind the bytes of a list, each in four bytes. That they fit those is known from their type.
pub fn put_u32s<const CAP: usize>(part: &mut ArrayVec<u8, CAP>, numbers: &[u32])
    requires { array_vec_len part.old + 4 * length numbers.now ≤ CAP }
    ensures items { part.new.items ≡ part.old.items ++ flat_map (to_le_bytes w32) numbers.now }
    ensures len { array_vec_len part.new ≡ array_vec_len part.old + 4 * length numbers.now }
    ensures fits { All (λ n. n < 2 ^ 32) numbers.now }
{
    for number in numbers {
        put(part, &number.to_le_bytes());
    }
}

/// Puts numbers behind the bytes of a list, each in eight bytes. That they fit those is known from their type.
pub fn put_u64s<const CAP: usize>(part: &mut ArrayVec<u8, CAP>, numbers: &[u64])
    requires { array_vec_len part.old + 8 * length numbers.now ≤ CAP }
    ensures items { part.new.items ≡ part.old.items ++ flat_map (to_le_bytes w64) numbers.now }
    ensures len { array_vec_len part.new ≡ array_vec_len part.old + 8 * length numbers.now }
    ensures fits { All (λ n. n < 2 ^ 64) numbers.now }
{
    for number in numbers {
        put(part, &number.to_le_bytes());
    }
}
