//! Devices in memory that never fail.
ghost use Rattle.std.specs.Prelude.{◌≡◌, ◌+◌, ◌-◌, ◌^◌, ◌<◌, ◌≤◌, ◌++◌, ◌⊎◌, ◌↔◌, List, [], ◌∷◌, ℕ, length, min, Some, None, true, false, if◌then◌else◌, vec_len, vec_capacity, nat_lt, ◌||◌, IsTrue, IfOk, IfSome, OnOk, OnErr, IsErrOf, max, option_map};
ghost use Rattle.file_devices.specs.Counts.{HasCause, Rose, saturating};
ghost use Rattle.file_devices.specs.Content.{ReadsAt, Appends, AppendsPart, Patches, PatchesSomehow};
ghost use Rattle.file_devices.specs.Sure.{no_counts, no_faults, sure_bytes, sure_appended, sure_held};
ghost use Rattle.file_devices.specs.Told.{IsAsTold};
ghost use Rattle.file_devices.specs.declared.devices.DeviceErr.TheVariants.{Absent, Failed as DeviceFailed};
ghost use Rattle.file_devices.specs.Named.{Names, kept};
ghost use Rattle.file_devices.specs.Stored.{found, told_map};

use crate::memory::copy_at;
use crate::store::{lookup, store};
use crate::{DeviceErr, Failed, FileSink, Files, Sink, Source};
use std::alloc::{AllocError, Global};

/// Bytes that are read at a place and never fail.
#[derive(Drop)]
pub struct SureIn {
    content: Vec<u8>,
    reached: u64,
    ghost small: { length content.items < 2 ^ 64 },
}

impl Source for SureIn {
    ghost bytes = { λ s. Some s.content.items };

    ghost reached = { λ s. s.reached };

    ghost faults = { λ _. no_faults };

    fn read_at(&mut self, at: u64, into: &mut [u8]) -> Result<usize, Failed>
        ensures bytes { Some self.new.content.items ≡ Some self.old.content.items }
        ensures read { IfOk result (λ n. ReadsAt (Some self.old.content.items) at n into.old into.new) }
        ensures reached { IfOk result (λ n. self.new.reached ≡ max self.old.reached (at + n)) }
        ensures err { OnErr result (self.new.reached ≡ self.old.reached) }
        ensures cause { HasCause no_faults no_faults result }

        // It gives all that there is room for or that is left.
        ensures count { IfOk result (λ n. n ≡ min (length self.old.content.items - at) (length into.old)) }
    {
        let count = copy_at(&self.content, at, u64::MAX, into);
        self.reached = self.reached.max(at + count as u64);
        Ok(count)
    }

    ghost use Rattle.file_devices.specs.Sure.{short_list};

    ghost small = { λ s b e. short_list s.content.items b s.small e };
}

/// A sink that never fails. Past its room it drops what comes, and tells its bytes no more.
///
/// The first piece for which there is no room is dropped whole, and so is each later one, even where it would
/// find room, and each patch. So what it holds is at any time a prefix of what was appended, with the patches
/// that came before.
#[derive(Drop)]
pub struct SureOut {
    content: Vec<u8>,
    room: usize,
    appended: u64,
    over: bool,
    ghost within: { vec_len content ≤ room },
    ghost reserved: { room ≤ vec_capacity content },
}

impl SureOut {
    /// An empty sink with room for `room` bytes. Memory for the room is taken at once.
    pub fn new(alloc: Global, room: u64) -> Result<Self, AllocError>
        ensures empty { IfOk result (λ s. ⟦<SureOut as Sink>⟧.bytes s ≡ Some []) }
        ensures none_appended { IfOk result (λ s. ⟦<SureOut as Sink>⟧.appended s ≡ 0) }
        ensures told { IfOk result (λ s. s.over ≡ false) }
        ensures room { IfOk result (λ s. s.room ≡ room) }
    {
        Ok(SureOut {
            content: Vec::with_capacity(alloc, room as usize)?,
            room: room as usize,
            appended: 0,
            over: false,
        })
    }

    /// What it holds, and None exactly where more was appended than it had room for.
    pub fn bytes(&self) -> Option<&[u8]>
        ensures { option_map (λ b. b.now) result ≡ ⟦<SureOut as Sink>⟧.bytes self.now }
    {
        if self.over {
            None
        } else {
            Some(self.content.as_slice())
        }
    }

    // Whether it went past its room, and what it holds.
    fn into_content(self) -> (bool, Vec<u8>)
        ensures { result ≡ (self.over, self.content) }
    {
        (self.over, self.content)
    }
}

impl Sink for SureOut {
    ghost bytes = { λ s. sure_bytes s.over s.content.items };

    ghost appended = { λ s. sure_appended s.over s.content.items s.appended };

    ghost faults = { λ _. no_faults };

    fn append(&mut self, piece: &[u8]) -> Result<(), Failed>
        ensures ok { OnOk result (Appends (sure_bytes self.old.over self.old.content.items) piece.now
            (sure_bytes self.new.over self.new.content.items)) }
        ensures part { OnErr result (AppendsPart (sure_bytes self.old.over self.old.content.items) piece.now
            (sure_bytes self.new.over self.new.content.items)) }
        ensures count { OnOk result (sure_appended self.new.over self.new.content.items self.new.appended
            ≡ saturating (sure_appended self.old.over self.old.content.items self.old.appended)
            (length piece.now)) }
        ensures no_less { sure_appended self.old.over self.old.content.items self.old.appended
            ≤ sure_appended self.new.over self.new.content.items self.new.appended }
        ensures no_more { sure_appended self.new.over self.new.content.items self.new.appended
            ≤ saturating (sure_appended self.old.over self.old.content.items self.old.appended)
            (length piece.now) }
        ensures cause { HasCause no_faults no_faults result }

        // It stops telling exactly where the room is passed.
        ensures over { self.new.over ≡ (self.old.over || nat_lt self.old.room
            (length self.old.content.items + length piece.now)) }

        // From then on it holds no more, so what it holds stays a prefix of what was appended.
        ensures held { self.new.content.items ≡ sure_held self.new.over self.old.content.items piece.now }
        ensures same { self.new.room ≡ self.old.room }
    {
        if self.over {
            self.appended = self.appended.saturating_add(piece.len() as u64);
            return Ok(());
        }
        if piece.len() > self.room - self.content.len() {
            self.appended = (self.content.len() as u64).saturating_add(piece.len() as u64);
            self.over = true;
            return Ok(());
        }
        self.content.extend_from_slice(piece).unwrap();
        Ok(())
    }

    ghost use Rattle.file_devices.specs.Sure.{counted_until};

    ghost counted = { λ s b e. counted_until s.over s.content.items s.appended b e };
}

impl FileSink for SureOut {
    fn patch(&mut self, at: u64, piece: &[u8]) -> Result<(), Failed>
        requires { at + length piece.now
            ≤ sure_appended self.old.over self.old.content.items self.old.appended }
        ensures ok { OnOk result (Patches (sure_bytes self.old.over self.old.content.items) at piece.now
            (sure_bytes self.new.over self.new.content.items)) }
        ensures err { OnErr result (PatchesSomehow (sure_bytes self.old.over self.old.content.items) at
            (length piece.now) (sure_bytes self.new.over self.new.content.items)) }
        ensures count { sure_appended self.new.over self.new.content.items self.new.appended
            ≡ sure_appended self.old.over self.old.content.items self.old.appended }
        ensures cause { HasCause no_faults no_faults result }

        // Past its room it drops a patch as well.
        ensures dropped { IsTrue self.old.over → self.new.content.items ≡ self.old.content.items }
        ensures same { (self.new.over ≡ self.old.over) × (self.new.room ≡ self.old.room) }
    {
        if !self.over {
            let start = at as usize;
            self.content[start..start + piece.len()].copy_from_slice(piece);
        }
        Ok(())
    }
}

/// Named bytes that are read and written without a fault.
///
/// The map is told until a sink that went past its room was kept. Where there are two entries with one
/// name, the first counts.
#[derive(Drop)]
pub struct SureFiles {
    alloc: Global,
    entries: Vec<(String, Vec<u8>)>,
    room: u64,
    told: bool,
    lent: u64,
    read_to: Option<u64>,
}

impl SureFiles {
    /// A store of these files, whose sinks have room for `room` bytes each.
    pub fn new(alloc: Global, files: Vec<(String, Vec<u8>)>, room: u64) -> Self
        ensures map { ⟦<SureFiles as Files>⟧.map result ≡ Some (found files.items) }
        ensures read_to { ⟦<SureFiles as Files>⟧.read_to result ≡ Some 0 }
        ensures lent { ⟦<SureFiles as Files>⟧.lent result ≡ 0 }
        ensures room { result.room ≡ room }
    {
        SureFiles {
            alloc,
            entries: files,
            room,
            told: true,
            lent: 0,
            read_to: Some(0),
        }
    }

    /// The bytes under a name, and None exactly where the map has no such file.
    pub fn contents(&self, name: &str) -> Option<&[u8]>
        ensures told { IfSome (⟦<SureFiles as Files>⟧.map self.now)
            (λ m. option_map (λ b. b.now) result ≡ m name.now) }
        ensures held { option_map (λ b. b.now) result ≡ found self.now.entries.items name.now }
    {
        lookup(&self.entries, name)
    }

    /// How many objects were handed out and not yet taken back.
    pub fn lent(&self) -> u64
        ensures { result ≡ ⟦<SureFiles as Files>⟧.lent self.now }
    {
        self.lent
    }
}

impl Files for SureFiles {
    type In = SureIn;

    type Out = SureOut;

    ghost map = { λ s. told_map s.told s.entries.items };

    ghost read_to = { λ s. s.read_to };

    ghost lent = { λ s. s.lent };

    ghost faults = { λ _. no_faults };

    ghost counts = { λ _. no_counts };

    fn open_in(&mut self, name: &str) -> Result<SureIn, DeviceErr>
        ensures ok { IfOk result (λ source. (m : Names)
            → told_map self.old.told self.old.entries.items ≡ Some m
            → (b : List ℕ) × (m name.now ≡ Some b) × (Some source.content.items ≡ Some b)) }
        ensures fresh { IfOk result (λ source. (no_faults ≡ 0) × (source.reached ≡ 0)) }
        ensures absent { IsErrOf result Absent → (m : Names)
            × (told_map self.old.told self.old.entries.items ≡ Some m)
            × (m name.now ≡ None) }
        ensures later { no_faults ≤ no_faults }
        ensures failed { IsErrOf result DeviceFailed → Rose no_faults no_faults }
        ensures calm { (IsErrOf result DeviceFailed → ⊥) → no_faults ≡ no_faults }
        ensures map { told_map self.new.told self.new.entries.items
            ≡ told_map self.old.told self.old.entries.items }
        ensures read_to { self.new.read_to ≡ self.old.read_to }
        ensures counts { no_counts ≡ no_counts }
        ensures lent_ok { OnOk result (self.new.lent ≡ self.old.lent + 1) }
        ensures lent_err { OnErr result (self.new.lent ≡ self.old.lent) }

        ensures same { self.new.room ≡ self.old.room }
    {
        if self.lent == u64::MAX {
            return Err(DeviceErr::Memory);
        }
        match lookup(&self.entries, name) {
            None => {
                if self.told {
                    Err(DeviceErr::Absent)
                } else {
                    Err(DeviceErr::Memory)
                }
            }
            Some(bytes) => {
                let content = Vec::from_slice(self.alloc, bytes)?;
                self.lent += 1;
                Ok(SureIn {
                    content,
                    reached: 0,
                })
            }
        }
    }

    fn create(&mut self, _name: &str) -> Result<SureOut, DeviceErr>
        ensures empty { IfOk result (λ sink. IsAsTold (sure_bytes sink.over sink.content.items) (Some [])) }
        ensures fresh { IfOk result (λ sink. (no_faults ≡ 0)
            × (sure_appended sink.over sink.content.items sink.appended ≡ 0)) }
        ensures not_absent { IsErrOf result Absent → ⊥ }
        ensures later { no_faults ≤ no_faults }
        ensures failed { IsErrOf result DeviceFailed → Rose no_faults no_faults }
        ensures calm { (IsErrOf result DeviceFailed → ⊥) → no_faults ≡ no_faults }
        ensures map { told_map self.new.told self.new.entries.items
            ≡ told_map self.old.told self.old.entries.items }
        ensures read_to { self.new.read_to ≡ self.old.read_to }
        ensures counts { no_counts ≡ no_counts }
        ensures lent_ok { OnOk result (self.new.lent ≡ self.old.lent + 1) }
        ensures lent_err { OnErr result (self.new.lent ≡ self.old.lent) }

        // The sink tells its bytes, and has the room of each sink.
        ensures told { IfOk result (λ sink. (sink.over ≡ false) × (sink.room ≡ self.old.room)) }
        ensures same { self.new.room ≡ self.old.room }
    {
        if self.lent == u64::MAX {
            return Err(DeviceErr::Memory);
        }
        let sink = SureOut::new(self.alloc, self.room)?;
        self.lent += 1;
        Ok(sink)
    }

    fn keep(&mut self, name: &str, out: SureOut) -> Result<(), DeviceErr>
        ensures ok { OnOk result (told_map self.new.told self.new.entries.items
            ≡ kept (told_map self.old.told self.old.entries.items) name.now
            (sure_bytes out.over out.content.items)) }
        ensures err { OnErr result ((told_map self.new.told self.new.entries.items
            ≡ told_map self.old.told self.old.entries.items)
            ⊎ (told_map self.new.told self.new.entries.items
            ≡ kept (told_map self.old.told self.old.entries.items) name.now
            (sure_bytes out.over out.content.items))) }
        ensures not_absent { IsErrOf result Absent → ⊥ }
        ensures later { no_faults ≤ no_faults }
        ensures counted { saturating no_faults no_faults ≤ no_faults }
        ensures failed { IsErrOf result DeviceFailed → Rose no_faults no_faults }
        ensures calm { (IsErrOf result DeviceFailed → ⊥) → no_faults ≡ saturating no_faults no_faults }
        ensures read_to { self.new.read_to ≡ self.old.read_to }
        ensures counts { IsAsTold no_counts (option_map (λ cs. no_faults ∷ cs) no_counts) }
        ensures lent { self.new.lent ≡ self.old.lent - 1 }

        // Want of memory keeps nothing.
        ensures unchanged { OnErr result ((self.new.told ≡ self.old.told)
            × (self.new.entries.items ≡ self.old.entries.items)) }
        ensures same { self.new.room ≡ self.old.room }
    {
        self.lent = self.lent.saturating_sub(1);
        let (over, content) = out.into_content();
        store(self.alloc, &mut self.entries, name, content)?;
        if over {
            self.told = false;
        }
        Ok(())
    }

    fn done_in(&mut self, source: SureIn)
        ensures map { told_map self.new.told self.new.entries.items
            ≡ told_map self.old.told self.old.entries.items }
        ensures read_to { IsAsTold self.new.read_to (option_map (λ n. n + source.reached) self.old.read_to) }
        ensures counts { IsAsTold no_counts (option_map (λ cs. no_faults ∷ cs) no_counts) }
        ensures later { no_faults ≤ no_faults }
        ensures counted { no_faults ≡ saturating no_faults no_faults }
        ensures lent { self.new.lent ≡ self.old.lent - 1 }

        // The sum is told as long as it is a u64.
        ensures told { IfSome self.old.read_to (λ n. n + source.reached < 2 ^ 64
            → self.new.read_to ≡ Some (n + source.reached)) }
        ensures same { self.new.room ≡ self.old.room }
    {
        self.lent = self.lent.saturating_sub(1);
        self.read_to = self.read_to.and_then(|n| n.checked_add(source.reached));
    }

    fn done_out(&mut self, _out: SureOut)
        ensures map { told_map self.new.told self.new.entries.items
            ≡ told_map self.old.told self.old.entries.items }
        ensures read_to { self.new.read_to ≡ self.old.read_to }
        ensures counts { IsAsTold no_counts (option_map (λ cs. no_faults ∷ cs) no_counts) }
        ensures later { no_faults ≤ no_faults }
        ensures counted { saturating no_faults no_faults ≤ no_faults }
        ensures lent { self.new.lent ≡ self.old.lent - 1 }

        ensures same { self.new.room ≡ self.old.room }
    {
        self.lent = self.lent.saturating_sub(1);
    }

    fn hash_seed(&self) -> u64 {
        0
    }
}
