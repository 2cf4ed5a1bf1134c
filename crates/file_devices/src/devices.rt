//! What a source, a sink and a store of files promise.
//!
//! Each has a count of faults, which never falls: a call on an object fails only where it raised the count of that
//! object, and any other call leaves it. A count is kept as a u64 and stays at the greatest one, so "rose" is read as "rose, or is the greatest u64 now".
//! What an object tells of its content is an option: an object of the system tells nothing, one in memory
//! tells its bytes, and the promises on content hold where it is told.
ghost use Rattle.std.specs.Prelude.{◌≡◌, ◌⊎◌, ◌+◌, ◌-◌, ◌^◌, ◌<◌, ◌≤◌, List, [], ◌∷◌, ℕ, length, max, min, Option, Some, None, Result, IfOk, IfErr, OnOk, OnErr, option_map, IsErrOf, IfSome, ⊤};
ghost use Rattle.file_devices.specs.Counts.{Rose, HasCause, saturating};
ghost use Rattle.file_devices.specs.Told.{IsAsTold};
ghost use Rattle.file_devices.specs.Content.{ReadsAt, Appends, AppendsPart, Patches, PatchesSomehow};
ghost use Rattle.file_devices.specs.Named.{Names, kept};
ghost use Rattle.file_devices.specs.declared.devices.DeviceErr.TheVariants.{Absent, Memory, Failed as DeviceFailed};

use std::alloc::AllocError;

/// A device failed.
#[derive(Clone, Copy, Debug, PartialEq, Eq)]
pub struct Failed;

/// Why a call on a store of files was refused.
#[derive(Clone, Copy, Debug, PartialEq, Eq)]
pub enum DeviceErr {
    /// The device failed, and its count of faults rose.
    Failed,
    /// There is no file of the name. This is no fault.
    Absent,
    /// There was no memory for the object.
    Memory,
}

impl From<AllocError> for DeviceErr {
    ghost from_gives = { λ _ e. e ≡ Memory };

    fn from(_: AllocError) -> Self {
        DeviceErr::Memory
    }
}

/// What was being done with a device.
#[derive(Clone, Copy, Debug, PartialEq, Eq)]
pub enum Op {
    /// A file was opened for reading.
    Open,
    /// A source was read.
    Read,
    /// A file was created for writing.
    Create,
    /// A sink was appended to.
    Write,
    /// A sink was patched.
    Patch,
    /// A sink was kept under its name.
    Keep,
}

/// Bytes that are read at any place, and that no call changes.
pub trait Source {
    // The bytes, where they are told.
    ghost bytes: { Self → Option (List ℕ) };

    // The highest place that a read got to.
    ghost reached: { Self → ℕ };

    ghost faults: { Self → ℕ };

    /// Copies bytes from place `at` into the beginning of a slice, and gives how many they are.
    ///
    /// They may be fewer than the slice holds. The rest of the slice is unchanged. Where the slice isn't
    /// empty, 0 means the end of the source, and comes exactly at its end or past it. After Failed the
    /// slice holds anything, and the highest place reached is as it was.
    fn read_at(&mut self, at: u64, into: &mut [u8]) -> Result<usize, Failed>
        ensures bytes { bytes self.new ≡ bytes self.old }
        ensures read { IfOk result (λ n. ReadsAt (bytes self.old) at n into.old into.new) }
        ensures reached { IfOk result (λ n. reached self.new ≡ max (reached self.old) (at + n)) }
        ensures err { OnErr result (reached self.new ≡ reached self.old) }
        ensures cause { HasCause (faults self.old) (faults self.new) result };

    // Where the bytes are told, they are fewer than 2^64.
    ghost small: { (s : Self) (b : List ℕ) → bytes s ≡ Some b → length b < 2 ^ 64 };
}

/// Bytes that are written at their end.
pub trait Sink {
    // The bytes, where they are told. A sink that doesn't tell them never tells them later.
    ghost bytes: { Self → Option (List ℕ) };

    // How many were appended, or the greatest u64 where they are more.
    ghost appended: { Self → ℕ };

    ghost faults: { Self → ℕ };

    /// Appends a piece. After Failed a prefix of it was appended, which may be empty or the whole.
    fn append(&mut self, piece: &[u8]) -> Result<(), Failed>
        ensures ok { OnOk result (Appends (bytes self.old) piece.now (bytes self.new)) }
        ensures part { OnErr result (AppendsPart (bytes self.old) piece.now (bytes self.new)) }
        ensures count { OnOk result (appended self.new ≡ saturating (appended self.old) (length piece.now)) }
        ensures no_less { appended self.old ≤ appended self.new }
        ensures no_more { appended self.new ≤ saturating (appended self.old) (length piece.now) }
        ensures cause { HasCause (faults self.old) (faults self.new) result };

    // Where the bytes are told, `appended` is their number.
    ghost counted: { (s : Self) (b : List ℕ) → bytes s ≡ Some b → appended s ≡ min (length b) (2 ^ 64 - 1) };
}

/// A sink whose bytes can be replaced.
pub trait FileSink: Sink {
    /// Puts a piece at place `at`, within what was appended. After Failed the range of the piece may hold
    /// any bytes; all else is as before.
    fn patch(&mut self, at: u64, piece: &[u8]) -> Result<(), Failed>
        requires { at + length piece.now ≤ Self.appended self.old }
        ensures ok { OnOk result (Patches (Self.bytes self.old) at piece.now (Self.bytes self.new)) }
        ensures err { OnErr result (PatchesSomehow (Self.bytes self.old) at (length piece.now)
            (Self.bytes self.new)) }
        ensures count { Self.appended self.new ≡ Self.appended self.old }
        ensures cause { HasCause (Self.faults self.old) (Self.faults self.new) result };
}

/// A store of named files, which hands out sources and sinks and takes them back.
pub trait Files {
    /// A file that is read.
    type In: Source;

    /// A file that is written, and stands under no name until it is kept.
    type Out: FileSink;

    // What each name has, where it is told. A map that stops telling doesn't tell again.
    ghost map: { Self → Option Names };

    // The sum of `reached` over the sources that were taken back.
    ghost read_to: { Self → Option ℕ };

    // How many objects were handed out and not yet taken back.
    ghost lent: { Self → ℕ };

    ghost faults: { Self → ℕ };

    // The counts of faults of the objects that were taken back, the last one first, where they are told. Counts that stop being
    // told aren't told again.
    ghost counts: { Self → Option (List ℕ) };

    /// Hands out a source of the named bytes, with no fault and nothing read.
    ///
    /// It answers Absent only where the map is told and has no file of the name. Unless it fails, the count is unchanged.
    fn open_in(&mut self, name: &str) -> Result<Self::In, DeviceErr>
        ensures ok { IfOk result (λ source. (m : Names) → map self.old ≡ Some m → (b : List ℕ)
            × (m name.now ≡ Some b) × (Self.In.bytes source ≡ Some b)) }
        ensures fresh { IfOk result (λ source. (Self.In.faults source ≡ 0) × (Self.In.reached source ≡ 0)) }
        ensures absent { IsErrOf result Absent → (m : Names) × (map self.old ≡ Some m) × (m name.now ≡ None) }
        ensures later { faults self.old ≤ faults self.new }
        ensures failed { IsErrOf result DeviceFailed → Rose (faults self.old) (faults self.new) }
        ensures calm { (IsErrOf result DeviceFailed → ⊥) → faults self.new ≡ faults self.old }
        ensures map { map self.new ≡ map self.old }
        ensures read_to { read_to self.new ≡ read_to self.old }
        ensures counts { counts self.new ≡ counts self.old }
        ensures lent_ok { OnOk result (lent self.new ≡ lent self.old + 1) }
        ensures lent_err { OnErr result (lent self.new ≡ lent self.old) };

    /// Hands out an empty sink with no fault. The map stays as it is, and the count too unless it fails.
    fn create(&mut self, name: &str) -> Result<Self::Out, DeviceErr>
        ensures empty { IfOk result (λ sink. IsAsTold (Self.Out.bytes sink) (Some [])) }
        ensures fresh { IfOk result (λ sink. (Self.Out.faults sink ≡ 0) × (Self.Out.appended sink ≡ 0)) }
        ensures not_absent { IsErrOf result Absent → ⊥ }
        ensures later { faults self.old ≤ faults self.new }
        ensures failed { IsErrOf result DeviceFailed → Rose (faults self.old) (faults self.new) }
        ensures calm { (IsErrOf result DeviceFailed → ⊥) → faults self.new ≡ faults self.old }
        ensures map { map self.new ≡ map self.old }
        ensures read_to { read_to self.new ≡ read_to self.old }
        ensures counts { counts self.new ≡ counts self.old }
        ensures lent_ok { OnOk result (lent self.new ≡ lent self.old + 1) }
        ensures lent_err { OnErr result (lent self.new ≡ lent self.old) };

    /// Takes a sink back and puts its bytes under the name. Its count is added to that of the files, and no more unless it
    /// fails.
    ///
    /// After an error the map is as before or has just that change.
    fn keep(&mut self, name: &str, out: Self::Out) -> Result<(), DeviceErr>
        ensures ok { OnOk result (map self.new ≡ kept (map self.old) name.now (Self.Out.bytes out)) }
        ensures err { OnErr result ((map self.new ≡ map self.old)
            ⊎ (map self.new ≡ kept (map self.old) name.now (Self.Out.bytes out))) }
        ensures not_absent { IsErrOf result Absent → ⊥ }
        ensures later { faults self.old ≤ faults self.new }
        ensures counted { saturating (faults self.old) (Self.Out.faults out) ≤ faults self.new }
        ensures failed { IsErrOf result DeviceFailed → Rose (faults self.old) (faults self.new) }
        ensures calm { (IsErrOf result DeviceFailed → ⊥)
            → faults self.new ≡ saturating (faults self.old) (Self.Out.faults out) }
        ensures read_to { read_to self.new ≡ read_to self.old }
        ensures counts { IsAsTold (counts self.new)
            (option_map (λ cs. Self.Out.faults out ∷ cs) (counts self.old)) }
        ensures lent { lent self.new ≡ lent self.old - 1 };

    /// Takes a source back. Its count is added to that of the files, and its `reached` to `read_to`.
    fn done_in(&mut self, source: Self::In)
        ensures map { map self.new ≡ map self.old }
        ensures read_to { IsAsTold (read_to self.new)
            (option_map (λ n. n + Self.In.reached source) (read_to self.old)) }
        ensures counts { IsAsTold (counts self.new)
            (option_map (λ cs. Self.In.faults source ∷ cs) (counts self.old)) }
        ensures later { faults self.old ≤ faults self.new }
        ensures counted { faults self.new ≡ saturating (faults self.old) (Self.In.faults source) }
        ensures lent { lent self.new ≡ lent self.old - 1 };

    /// Takes a sink back and drops its bytes. Its count is added to that of the files, and more where removing it fails.
    fn done_out(&mut self, out: Self::Out)
        ensures map { map self.new ≡ map self.old }
        ensures read_to { read_to self.new ≡ read_to self.old }
        ensures counts { IsAsTold (counts self.new)
            (option_map (λ cs. Self.Out.faults out ∷ cs) (counts self.old)) }
        ensures later { faults self.old ≤ faults self.new }
        ensures counted { saturating (faults self.old) (Self.Out.faults out) ≤ faults self.new }
        ensures lent { lent self.new ≡ lent self.old - 1 };

    /// A number by which tables are hashed whose keys come from files.
    ///
    /// Any number gives the same answers. Where it can't be guessed, nobody can make a file whose keys collide.
    fn hash_seed(&self) -> u64;
}

/// Who says when the stages of several workers take their turns.
pub trait Gate: Sync {
    /// Whether the worker takes this stage's turn now. Where it says no, the turn is left out.
    fn before(&self, worker: u32, stage: u32) -> bool;
}
