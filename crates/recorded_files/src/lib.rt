//! What tests run over: a store of files that notes which calls are made on it, and in which order, and a small LAS file.
#![tactic(auto)]

ghost use Rattle.std.specs.Prelude.{◌≡◌, ◌++◌, ◌∷◌, ◌+◌, ◌-◌, ◌^◌, ◌≤◌, ◌⊎◌, List, [], ℕ, option_map, Some, None, codes, decimal, length, string_bytes, IfOk, OnOk, OnErr, IsErrOf};
ghost use Rattle.recorded_files.specs.Notes.{note_of};
ghost use Rattle.file_devices.specs.Counts.{Rose, saturating};
ghost use Rattle.file_devices.specs.Told.{IsAsTold};
ghost use Rattle.file_devices.specs.Named.{Names, kept};
ghost use Rattle.file_devices.specs.declared.devices.DeviceErr.TheVariants.{Absent, Memory, Failed as DeviceFailed};

mod sample;

use file_devices::{DeviceErr, Files, MemFiles, MemIn, MemOut, Sink, Source};
use itoa::Buffer;
pub use sample::two_points;
use std::alloc::AllocError;

/// Files in memory, with the calls that were made on them as lines of text: `open NAME`, `create NAME`, `keep NAME`, `close`
/// where a file that was read is given back, and `drop N` where one that was written is, with the number of bytes that were
/// appended to it. A call that was refused is noted too.
#[derive(Drop)]
pub struct RecordedFiles {
    files: MemFiles,
    calls: String,
}

impl RecordedFiles {
    /// These files, with the calls to come noted behind this text.
    pub fn new(files: MemFiles, calls: String) -> Self
        ensures files { result.files ≡ files }
        ensures calls { result.calls ≡ calls }
    {
        RecordedFiles { files, calls }
    }

    /// The files.
    pub fn files(&self) -> &MemFiles
        ensures { result.now ≡ self.now.files }
    {
        &self.files
    }

    /// The calls so far, a line for each.
    pub fn calls(&self) -> &str
        ensures { result.now ≡ string_bytes self.now.calls }
    {
        self.calls.as_str()
    }

    // Notes a call with the name that it was made with.
    fn note(&mut self, call: &str, name: &str) -> Result<(), AllocError>
        ensures files { self.new.files ≡ self.old.files }
        ensures noted { OnOk result (string_bytes self.new.calls
            ≡ string_bytes self.old.calls ++ note_of call.now name.now) }
    {
        self.calls.push_str(call)?;
        self.calls.push_str(name)?;
        self.calls.push_str("\n")
    }

    // Notes that an output is given back that holds these bytes.
    fn note_drop(&mut self, bytes: &[u8]) -> Result<(), AllocError>
        ensures files { self.new.files ≡ self.old.files }
        ensures noted { OnOk result (string_bytes self.new.calls
            ≡ string_bytes self.old.calls ++ note_of (codes "drop ") (decimal (length bytes.now))) }
    {
        let mut buffer = Buffer::new();
        let count = bytes.len() as u64;
        self.note("drop ", buffer.format(count))
    }
}

impl Files for RecordedFiles {
    type In = MemIn;

    type Out = MemOut;

    ghost map = { λ s. ⟦<MemFiles as Files>⟧.map s.files };

    ghost read_to = { λ s. ⟦<MemFiles as Files>⟧.read_to s.files };

    ghost lent = { λ s. ⟦<MemFiles as Files>⟧.lent s.files };

    ghost faults = { λ s. ⟦<MemFiles as Files>⟧.faults s.files };

    ghost counts = { λ s. ⟦<MemFiles as Files>⟧.counts s.files };

    fn open_in(&mut self, name: &str) -> Result<MemIn, DeviceErr>
        ensures ok { IfOk result (λ source. (m : Names)
            → ⟦<MemFiles as Files>⟧.map self.old.files ≡ Some m → (b : List ℕ)
            × (m name.now ≡ Some b) × (⟦<MemIn as Source>⟧.bytes source ≡ Some b)) }
        ensures fresh { IfOk result (λ source. (⟦<MemIn as Source>⟧.faults source ≡ 0)
            × (⟦<MemIn as Source>⟧.reached source ≡ 0)) }
        ensures absent { IsErrOf result Absent → (m : Names)
            × (⟦<MemFiles as Files>⟧.map self.old.files ≡ Some m) × (m name.now ≡ None) }
        ensures later { ⟦<MemFiles as Files>⟧.faults self.old.files
            ≤ ⟦<MemFiles as Files>⟧.faults self.new.files }
        ensures failed { IsErrOf result DeviceFailed
            → Rose (⟦<MemFiles as Files>⟧.faults self.old.files) (⟦<MemFiles as Files>⟧.faults self.new.files) }
        ensures calm { (IsErrOf result DeviceFailed → ⊥)
            → ⟦<MemFiles as Files>⟧.faults self.new.files ≡ ⟦<MemFiles as Files>⟧.faults self.old.files }
        ensures map { ⟦<MemFiles as Files>⟧.map self.new.files ≡ ⟦<MemFiles as Files>⟧.map self.old.files }
        ensures read_to { ⟦<MemFiles as Files>⟧.read_to self.new.files
            ≡ ⟦<MemFiles as Files>⟧.read_to self.old.files }
        ensures counts { ⟦<MemFiles as Files>⟧.counts self.new.files ≡ ⟦<MemFiles as Files>⟧.counts self.old.files }
        ensures lent_ok { OnOk result (⟦<MemFiles as Files>⟧.lent self.new.files
            ≡ ⟦<MemFiles as Files>⟧.lent self.old.files + 1) }
        ensures lent_err { OnErr result (⟦<MemFiles as Files>⟧.lent self.new.files
            ≡ ⟦<MemFiles as Files>⟧.lent self.old.files) }

        // The call is noted, unless memory is wanting.
        ensures noted { (IsErrOf result Memory → ⊥) → string_bytes self.new.calls
            ≡ string_bytes self.old.calls ++ note_of (codes "open ") name.now }
    {
        self.note("open ", name)?;
        self.files.open_in(name)
    }

    fn create(&mut self, name: &str) -> Result<MemOut, DeviceErr>
        ensures empty { IfOk result (λ sink. IsAsTold (⟦<MemOut as Sink>⟧.bytes sink) (Some [])) }
        ensures fresh { IfOk result (λ sink. (⟦<MemOut as Sink>⟧.faults sink ≡ 0)
            × (⟦<MemOut as Sink>⟧.appended sink ≡ 0)) }
        ensures not_absent { IsErrOf result Absent → ⊥ }
        ensures later { ⟦<MemFiles as Files>⟧.faults self.old.files
            ≤ ⟦<MemFiles as Files>⟧.faults self.new.files }
        ensures failed { IsErrOf result DeviceFailed
            → Rose (⟦<MemFiles as Files>⟧.faults self.old.files) (⟦<MemFiles as Files>⟧.faults self.new.files) }
        ensures calm { (IsErrOf result DeviceFailed → ⊥)
            → ⟦<MemFiles as Files>⟧.faults self.new.files ≡ ⟦<MemFiles as Files>⟧.faults self.old.files }
        ensures map { ⟦<MemFiles as Files>⟧.map self.new.files ≡ ⟦<MemFiles as Files>⟧.map self.old.files }
        ensures read_to { ⟦<MemFiles as Files>⟧.read_to self.new.files
            ≡ ⟦<MemFiles as Files>⟧.read_to self.old.files }
        ensures counts { ⟦<MemFiles as Files>⟧.counts self.new.files ≡ ⟦<MemFiles as Files>⟧.counts self.old.files }
        ensures lent_ok { OnOk result (⟦<MemFiles as Files>⟧.lent self.new.files
            ≡ ⟦<MemFiles as Files>⟧.lent self.old.files + 1) }
        ensures lent_err { OnErr result (⟦<MemFiles as Files>⟧.lent self.new.files
            ≡ ⟦<MemFiles as Files>⟧.lent self.old.files) }

        // The call is noted, unless memory is wanting.
        ensures noted { (IsErrOf result Memory → ⊥) → string_bytes self.new.calls
            ≡ string_bytes self.old.calls ++ note_of (codes "create ") name.now }
    {
        self.note("create ", name)?;
        self.files.create(name)
    }

    fn keep(&mut self, name: &str, out: MemOut) -> Result<(), DeviceErr>
        ensures ok { OnOk result (⟦<MemFiles as Files>⟧.map self.new.files
            ≡ kept (⟦<MemFiles as Files>⟧.map self.old.files) name.now (⟦<MemOut as Sink>⟧.bytes out)) }
        ensures err { OnErr result ((⟦<MemFiles as Files>⟧.map self.new.files
            ≡ ⟦<MemFiles as Files>⟧.map self.old.files)
            ⊎ (⟦<MemFiles as Files>⟧.map self.new.files
            ≡ kept (⟦<MemFiles as Files>⟧.map self.old.files) name.now (⟦<MemOut as Sink>⟧.bytes out))) }
        ensures not_absent { IsErrOf result Absent → ⊥ }
        ensures later { ⟦<MemFiles as Files>⟧.faults self.old.files
            ≤ ⟦<MemFiles as Files>⟧.faults self.new.files }
        ensures counted { saturating (⟦<MemFiles as Files>⟧.faults self.old.files) (⟦<MemOut as Sink>⟧.faults out)
            ≤ ⟦<MemFiles as Files>⟧.faults self.new.files }
        ensures failed { IsErrOf result DeviceFailed
            → Rose (⟦<MemFiles as Files>⟧.faults self.old.files) (⟦<MemFiles as Files>⟧.faults self.new.files) }
        ensures calm { (IsErrOf result DeviceFailed → ⊥) → ⟦<MemFiles as Files>⟧.faults self.new.files
            ≡ saturating (⟦<MemFiles as Files>⟧.faults self.old.files) (⟦<MemOut as Sink>⟧.faults out) }
        ensures read_to { ⟦<MemFiles as Files>⟧.read_to self.new.files
            ≡ ⟦<MemFiles as Files>⟧.read_to self.old.files }
        ensures counts { IsAsTold (⟦<MemFiles as Files>⟧.counts self.new.files)
            (option_map (λ cs. ⟦<MemOut as Sink>⟧.faults out ∷ cs) (⟦<MemFiles as Files>⟧.counts self.old.files)) }
        ensures lent { ⟦<MemFiles as Files>⟧.lent self.new.files
            ≡ ⟦<MemFiles as Files>⟧.lent self.old.files - 1 }

        // The call is noted, unless memory is wanting.
        ensures noted { (IsErrOf result Memory → ⊥) → string_bytes self.new.calls
            ≡ string_bytes self.old.calls ++ note_of (codes "keep ") name.now }
    {
        match self.note("keep ", name) {
            Ok(()) => self.files.keep(name, out),
            Err(_) => {
                self.files.done_out(out);
                Err(DeviceErr::Memory)
            }
        }
    }

    fn done_in(&mut self, source: MemIn) {
        let _ = self.note("close", "");
        self.files.done_in(source);
    }

    fn done_out(&mut self, out: MemOut) {
        let _ = self.note_drop(out.bytes());
        self.files.done_out(out);
    }

    fn hash_seed(&self) -> u64 {
        self.files.hash_seed()
    }
}
