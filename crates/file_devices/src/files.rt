//! Files in memory, of which chosen calls fail.
ghost use Rattle.std.specs.Prelude.{◌≡◌, ◌<◌, ◌≤◌, ◌+◌, ◌-◌, ◌^◌, ◌⊎◌, ◌↔◌, ℕ, List, [], ◌∷◌, Contains, length, Some, None, if◌then◌else◌, IfSome, IsSome, IfOk, OnOk, OnErr, IsErrOf, IsTrue, option_map, min, vec_len, vec_capacity};
ghost use Rattle.std.proofs.Props.{props};
ghost use Rattle.file_devices.specs.Counts.{Rose, last_first, saturating};
ghost use Rattle.file_devices.specs.Told.{IsAsTold};
ghost use Rattle.file_devices.specs.Named.{Names, put, kept};
ghost use Rattle.file_devices.specs.Stored.{found};
ghost use Rattle.file_devices.specs.Planned.{fails_of};
ghost use Rattle.file_devices.specs.declared.devices.DeviceErr.TheVariants.{Absent, Memory, Failed as DeviceFailed};

use crate::store::{lookup, store};
use crate::{DeviceErr, Files, MemIn, MemOut};
use std::alloc::{AllocError, Global};

/// Named bytes, of which chosen calls fail.
///
/// A pair (o, n) of `fails` makes the n-th call on object o fail, both counted from 1, where object 0 is
/// the files themselves (their calls `open_in`, `create` and `keep`) and object k is the k-th one handed
/// out. A read of a source gives at most `most` bytes, and each sink has room for `room` bytes. The map
/// is told at all times. Where there are two entries with one name, the first counts.
#[derive(Drop)]
pub struct MemFiles {
    alloc: Global,
    entries: Vec<(String, Vec<u8>)>,
    room: u64,
    most: u64,
    fails: Vec<(u64, u64)>,
    calls: u64,
    handed: u64,
    faults: u64,
    lent: u64,
    read_to: Option<u64>,
    // The counts of what was taken back, until one came that wasn't lent and for which there was no memory.
    counts: Option<Vec<u64>>,
    ghost some: { 0 < most },
    ghost roomy: { IfSome counts (λ v. vec_len v + lent ≤ vec_capacity v) } by { Prim.hlevel props },
}

impl MemFiles {
    /// A store of these files.
    pub fn new(
        alloc: Global,
        files: Vec<(String, Vec<u8>)>,
        room: u64,
        most: u64,
        fails: Vec<(u64, u64)>,
    ) -> Self
        requires { 0 < most }
        ensures map { ⟦<MemFiles as Files>⟧.map result ≡ Some (found files.items) }
        ensures read_to { ⟦<MemFiles as Files>⟧.read_to result ≡ Some 0 }
        ensures faults { ⟦<MemFiles as Files>⟧.faults result ≡ 0 }
        ensures none_back { ⟦<MemFiles as Files>⟧.counts result ≡ Some [] }
        ensures lent { ⟦<MemFiles as Files>⟧.lent result ≡ 0 }
        ensures room { result.room ≡ room }
        ensures most { result.most ≡ most }
        ensures fails { result.fails ≡ fails }
        ensures calls { (result.calls ≡ 0) × (result.handed ≡ 0) }
    {
        MemFiles {
            alloc,
            entries: files,
            room,
            most,
            fails,
            calls: 0,
            handed: 0,
            faults: 0,
            lent: 0,
            read_to: Some(0),
            counts: Some(Vec::new(alloc)),
        }
    }

    /// The bytes under a name, and None exactly where the map has no such file.
    pub fn contents(&self, name: &str) -> Option<&[u8]>
        ensures { option_map (λ m. m name.now) (⟦<MemFiles as Files>⟧.map self.now)
            ≡ Some (option_map (λ b. b.now) result) }
    {
        lookup(&self.entries, name)
    }

    /// The count of faults: its own, and those of the objects that were taken back.
    pub fn count(&self) -> u64
        ensures { result ≡ ⟦<MemFiles as Files>⟧.faults self.now }
    {
        self.faults
    }

    /// How many objects were handed out and not yet taken back.
    pub fn lent(&self) -> u64
        ensures { result ≡ ⟦<MemFiles as Files>⟧.lent self.now }
    {
        self.lent
    }

    // The numbers of the calls of an object that fail.
    fn fails_of(&self, object: u64) -> Result<Vec<u64>, AllocError>
        ensures { IfOk result (λ v. v.items ≡ fails_of self.now.fails.items object) }
    {
        self.fails
            .iter()
            .filter(|f| f.0 == object)
            .map(|f| f.1)
            .collect(self.alloc)
    }

    // Takes an object with this count of faults back.
    fn take_back(&mut self, faults: u64)
        ensures exact { self.new ≡ record self.old
            { lent = self.new.lent; faults = self.new.faults; counts = self.new.counts; roomy = self.new.roomy } }
        ensures lent { self.new.lent ≡ self.old.lent - 1 }
        ensures faults { self.new.faults ≡ saturating self.old.faults faults }
        ensures later { self.old.faults ≤ self.new.faults }
        ensures counts { IsAsTold (last_first self.new.counts)
            (option_map (λ cs. faults ∷ cs) (last_first self.old.counts)) }
        ensures told { 0 < self.old.lent → last_first self.new.counts
            ≡ option_map (λ cs. faults ∷ cs) (last_first self.old.counts) }
    {
        self.counts = with_count(self.counts.take(), faults);
        self.lent = self.lent.saturating_sub(1);
        self.faults = self.faults.saturating_add(faults);
    }

    // Makes room for the count of one more object.
    fn reserve_count(&mut self) -> Result<(), AllocError>
        requires { self.old.lent < 2 ^ 64 - 1 }
        ensures same { self.new ≡ record self.old
            { lent = self.new.lent; counts = self.new.counts; roomy = self.new.roomy } }
        ensures lent { self.new.lent ≡ self.old.lent }
        ensures counts { last_first self.new.counts ≡ last_first self.old.counts }
        ensures room { OnOk result (IfSome self.new.counts
            (λ v. vec_len v + (self.old.lent + 1) ≤ vec_capacity v)) }
    {
        if let Some(counts) = &mut self.counts {
            counts.reserve(self.lent as usize + 1)?;
        }
        Ok(())
    }

    // Counts a call on the files, and says whether it fails; one that fails is a fault.
    fn call_fails(&mut self) -> bool
        ensures fails { IsTrue result ↔ Contains self.old.fails.items (0, self.new.calls) }
        ensures calls { self.new.calls ≡ saturating self.old.calls 1 }
        ensures same { self.new ≡ record self.old { calls = self.new.calls; faults = self.new.faults } }
        ensures faults { self.new.faults ≡ (if result then saturating self.old.faults 1 else self.old.faults) }
    {
        self.calls = self.calls.saturating_add(1);
        let fails = self.fails.contains(&(0, self.calls));
        if fails {
            self.faults = self.faults.saturating_add(1);
        }
        fails
    }
}

// Counts with one more; None where there were none, or where there was no room and memory is wanting.
fn with_count(counts: Option<Vec<u64>>, count: u64) -> Option<Vec<u64>>
    ensures as_told { IsAsTold (last_first result) (option_map (λ cs. count ∷ cs) (last_first counts)) }
    ensures told { IfSome counts (λ v. vec_len v < vec_capacity v)
        → last_first result ≡ option_map (λ cs. count ∷ cs) (last_first counts) }
    ensures room { IfSome result (λ v. IfSome counts
        (λ u. (vec_len v ≡ vec_len u + 1) × (vec_capacity u ≤ vec_capacity v))) }
{
    let mut counts = counts?;
    counts.push(count).ok()?;
    Some(counts)
}

impl Files for MemFiles {
    type In = MemIn;

    type Out = MemOut;

    ghost map = { λ s. Some (found s.entries.items) };

    ghost read_to = { λ s. s.read_to };

    ghost lent = { λ s. s.lent };

    ghost faults = { λ s. s.faults };

    ghost counts = { λ s. last_first s.counts };

    fn open_in(&mut self, name: &str) -> Result<MemIn, DeviceErr>
        ensures ok { IfOk result (λ source. (m : Names) → Some (found self.old.entries.items) ≡ Some m
            → (b : List ℕ) × (m name.now ≡ Some b) × (Some source.content.items ≡ Some b)) }
        ensures fresh { IfOk result (λ source. (source.faults ≡ 0) × (source.reached ≡ 0)) }
        ensures absent { IsErrOf result Absent → (m : Names) × (Some (found self.old.entries.items) ≡ Some m)
            × (m name.now ≡ None) }
        ensures later { self.old.faults ≤ self.new.faults }
        ensures failed { IsErrOf result DeviceFailed → Rose self.old.faults self.new.faults }
        ensures calm { (IsErrOf result DeviceFailed → ⊥) → self.new.faults ≡ self.old.faults }
        ensures map { Some (found self.new.entries.items) ≡ Some (found self.old.entries.items) }
        ensures read_to { self.new.read_to ≡ self.old.read_to }
        ensures counts { last_first self.new.counts ≡ last_first self.old.counts }
        ensures lent_ok { OnOk result (self.new.lent ≡ self.old.lent + 1) }
        ensures lent_err { OnErr result (self.new.lent ≡ self.old.lent) }

        // It fails exactly at the numbers given for object 0, and that is one fault.
        ensures calls { self.new.calls ≡ saturating self.old.calls 1 }
        ensures fails { Contains self.old.fails.items (0, self.new.calls) → IsErrOf result DeviceFailed }
        ensures fails_only { IsErrOf result DeviceFailed → Contains self.old.fails.items (0, self.new.calls) }
        ensures fault { IsErrOf result DeviceFailed → self.new.faults ≡ saturating self.old.faults 1 }

        // The source has the next number, the fails of that number, and the limit of a read.
        ensures number { OnOk result (self.new.handed ≡ saturating self.old.handed 1) }
        ensures no_number { OnErr result (self.new.handed ≡ self.old.handed) }
        ensures planned { IfOk result (λ source. source.fails.items
            ≡ fails_of self.old.fails.items self.new.handed) }
        ensures most { IfOk result (λ source. (source.most ≡ self.old.most) × (source.calls ≡ 0)) }
        ensures same { (self.new.room ≡ self.old.room) × (self.new.most ≡ self.old.most)
            × (self.new.fails ≡ self.old.fails) }
    {
        if self.call_fails() {
            return Err(DeviceErr::Failed);
        }
        if self.lent == u64::MAX {
            return Err(DeviceErr::Memory);
        }
        match lookup(&self.entries, name) {
            None => Err(DeviceErr::Absent),
            Some(bytes) => {
                let content = Vec::from_slice(self.alloc, bytes)?;
                let number = self.handed.saturating_add(1);
                let fails = self.fails_of(number)?;
                self.reserve_count()?;
                self.handed = number;
                self.lent += 1;
                Ok(MemIn::new(content, self.most, fails))
            }
        }
    }

    fn create(&mut self, _name: &str) -> Result<MemOut, DeviceErr>
        ensures empty { IfOk result (λ sink. IsAsTold (Some sink.content.items) (Some [])) }
        ensures fresh { IfOk result (λ sink. (sink.faults ≡ 0)
            × (min (length sink.content.items) (2 ^ 64 - 1) ≡ 0)) }
        ensures not_absent { IsErrOf result Absent → ⊥ }
        ensures later { self.old.faults ≤ self.new.faults }
        ensures failed { IsErrOf result DeviceFailed → Rose self.old.faults self.new.faults }
        ensures calm { (IsErrOf result DeviceFailed → ⊥) → self.new.faults ≡ self.old.faults }
        ensures map { Some (found self.new.entries.items) ≡ Some (found self.old.entries.items) }
        ensures read_to { self.new.read_to ≡ self.old.read_to }
        ensures counts { last_first self.new.counts ≡ last_first self.old.counts }
        ensures lent_ok { OnOk result (self.new.lent ≡ self.old.lent + 1) }
        ensures lent_err { OnErr result (self.new.lent ≡ self.old.lent) }

        // It fails exactly at the numbers given for object 0, and that is one fault.
        ensures calls { self.new.calls ≡ saturating self.old.calls 1 }
        ensures fails { Contains self.old.fails.items (0, self.new.calls) → IsErrOf result DeviceFailed }
        ensures fails_only { IsErrOf result DeviceFailed → Contains self.old.fails.items (0, self.new.calls) }
        ensures fault { IsErrOf result DeviceFailed → self.new.faults ≡ saturating self.old.faults 1 }

        // The sink has the next number, the fails of that number, and the room of each sink.
        ensures number { OnOk result (self.new.handed ≡ saturating self.old.handed 1) }
        ensures no_number { OnErr result (self.new.handed ≡ self.old.handed) }
        ensures planned { IfOk result (λ sink. sink.fails.items
            ≡ fails_of self.old.fails.items self.new.handed) }
        ensures room { IfOk result (λ sink. (sink.room ≡ self.old.room) × (sink.calls ≡ 0)) }
        ensures same { (self.new.room ≡ self.old.room) × (self.new.most ≡ self.old.most)
            × (self.new.fails ≡ self.old.fails) }
    {
        if self.call_fails() {
            return Err(DeviceErr::Failed);
        }
        if self.lent == u64::MAX {
            return Err(DeviceErr::Memory);
        }
        let number = self.handed.saturating_add(1);
        let fails = self.fails_of(number)?;
        let sink = MemOut::new(self.alloc, self.room, fails)?;
        self.reserve_count()?;
        self.handed = number;
        self.lent += 1;
        Ok(sink)
    }

    fn keep(&mut self, name: &str, out: MemOut) -> Result<(), DeviceErr>
        ensures ok { OnOk result (Some (found self.new.entries.items)
            ≡ kept (Some (found self.old.entries.items)) name.now (Some out.content.items)) }
        ensures err { OnErr result ((Some (found self.new.entries.items)
            ≡ Some (found self.old.entries.items))
            ⊎ (Some (found self.new.entries.items)
            ≡ kept (Some (found self.old.entries.items)) name.now (Some out.content.items))) }
        ensures not_absent { IsErrOf result Absent → ⊥ }
        ensures later { self.old.faults ≤ self.new.faults }
        ensures counted { saturating self.old.faults out.faults ≤ self.new.faults }
        ensures failed { IsErrOf result DeviceFailed → Rose self.old.faults self.new.faults }
        ensures calm { (IsErrOf result DeviceFailed → ⊥)
            → self.new.faults ≡ saturating self.old.faults out.faults }
        ensures read_to { self.new.read_to ≡ self.old.read_to }
        ensures counts { IsAsTold (last_first self.new.counts)
            (option_map (λ cs. out.faults ∷ cs) (last_first self.old.counts)) }
        ensures lent { self.new.lent ≡ self.old.lent - 1 }

        // It fails exactly at the numbers given for object 0, and then keeps nothing.
        ensures calls { self.new.calls ≡ saturating self.old.calls 1 }
        ensures fails { Contains self.old.fails.items (0, self.new.calls) → IsErrOf result DeviceFailed }
        ensures fails_only { IsErrOf result DeviceFailed → Contains self.old.fails.items (0, self.new.calls) }
        ensures unchanged { OnErr result (self.new.entries.items ≡ self.old.entries.items) }
        ensures fault { IsErrOf result DeviceFailed → self.new.faults
            ≡ saturating (saturating self.old.faults out.faults) 1 }
        ensures same { (self.new.room ≡ self.old.room) × (self.new.most ≡ self.old.most)
            × (self.new.fails ≡ self.old.fails) }
        ensures no_number { self.new.handed ≡ self.old.handed }

        // Where an object is lent, there is room for its count, so none is forgotten.
        ensures told { 0 < self.old.lent → last_first self.new.counts
            ≡ option_map (λ cs. out.faults ∷ cs) (last_first self.old.counts) }
    {
        let (content, faults) = out.into_content();
        self.take_back(faults);
        if self.call_fails() {
            return Err(DeviceErr::Failed);
        }
        store(self.alloc, &mut self.entries, name, content)?;
        Ok(())
    }

    fn done_in(&mut self, source: MemIn)
        ensures map { Some (found self.new.entries.items) ≡ Some (found self.old.entries.items) }
        ensures read_to { IsAsTold self.new.read_to (option_map (λ n. n + source.reached) self.old.read_to) }
        ensures counts { IsAsTold (last_first self.new.counts)
            (option_map (λ cs. source.faults ∷ cs) (last_first self.old.counts)) }
        ensures later { self.old.faults ≤ self.new.faults }
        ensures counted { self.new.faults ≡ saturating self.old.faults source.faults }
        ensures lent { self.new.lent ≡ self.old.lent - 1 }

        // The sum is told as long as it is a u64, and the count where an object is lent.
        ensures summed { IfSome self.old.read_to (λ n. n + source.reached < 2 ^ 64
            → self.new.read_to ≡ Some (n + source.reached)) }
        ensures told { 0 < self.old.lent → last_first self.new.counts
            ≡ option_map (λ cs. source.faults ∷ cs) (last_first self.old.counts) }
        ensures same { self.new ≡ record self.old {
          faults = self.new.faults;
          lent = self.new.lent;
          read_to = self.new.read_to;
          counts = self.new.counts;
          roomy = self.new.roomy;
        } }
    {
        self.take_back(source.faults());
        self.read_to = self.read_to.and_then(|n| n.checked_add(source.reached()));
    }

    fn done_out(&mut self, out: MemOut)
        ensures map { Some (found self.new.entries.items) ≡ Some (found self.old.entries.items) }
        ensures read_to { self.new.read_to ≡ self.old.read_to }
        ensures counts { IsAsTold (last_first self.new.counts)
            (option_map (λ cs. out.faults ∷ cs) (last_first self.old.counts)) }
        ensures later { self.old.faults ≤ self.new.faults }
        ensures counted { saturating self.old.faults out.faults ≤ self.new.faults }
        ensures lent { self.new.lent ≡ self.old.lent - 1 }

        // Where an object is lent, its count is told.
        ensures told { 0 < self.old.lent → last_first self.new.counts
            ≡ option_map (λ cs. out.faults ∷ cs) (last_first self.old.counts) }
        ensures exact { self.new.faults ≡ saturating self.old.faults out.faults }
        ensures same { self.new ≡ record self.old
            { faults = self.new.faults; lent = self.new.lent; counts = self.new.counts; roomy = self.new.roomy } }
    {
        let (_content, count) = out.into_content();
        self.take_back(count);
    }

    fn hash_seed(&self) -> u64 {
        0
    }
}
