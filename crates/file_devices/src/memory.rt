//! A source and a sink in memory, of which chosen calls fail.
ghost use Rattle.std.specs.Prelude.{Contains, ◌⊎◌, ◌≡◌, ◌+◌, ◌-◌, ◌^◌, ◌<◌, ◌≤◌, ◌++◌, List, [], ℕ, length, min, max, Some, None, refl, unwrap_or, vec_len, vec_capacity, if◌then◌else◌, IfOk, OnOk, OnErr, IsTrue, ◌↔◌};
ghost use Rattle.std.proofs.Common.{ap};
ghost use Rattle.file_devices.specs.Counts.{Rose, HasCause, saturating};
ghost use Rattle.file_devices.specs.Content.{ReadsAt, Appends, AppendsPart, Patches, PatchesSomehow};
ghost use Rattle.file_devices.specs.Planned.{read_count};

use crate::{Failed, FileSink, Sink, Source};
use std::alloc::{AllocError, Global};

/// Bytes that are read at a place, at most `most` at a time.
///
/// The calls whose numbers are in `fails` fail, counted from 1. Every other call gives as much as is
/// left, as there is room for, and as `most` allows, whichever is least.
#[derive(Drop)]
pub struct MemIn {
    content: Vec<u8>,
    most: u64,
    fails: Vec<u64>,
    calls: u64,
    reached: u64,
    faults: u64,
    ghost some: { 0 < most },
    ghost small: { length content.items < 2 ^ 64 },
}

impl MemIn {
    /// A source of these bytes, that gives at most `most` at a time and fails at the calls with the
    /// numbers in `fails`, counted from 1.
    pub fn new(bytes: Vec<u8>, most: u64, fails: Vec<u64>) -> Self
        requires { 0 < most }
        ensures bytes { ⟦<MemIn as Source>⟧.bytes result ≡ Some bytes.items }
        ensures reached { ⟦<MemIn as Source>⟧.reached result ≡ 0 }
        ensures faults { ⟦<MemIn as Source>⟧.faults result ≡ 0 }
        ensures most { result.most ≡ most }
        ensures fails { result.fails ≡ fails }
        ensures calls { result.calls ≡ 0 }
    {
        MemIn {
            content: bytes,
            most,
            fails,
            calls: 0,
            reached: 0,
            faults: 0,
        }
    }

    pub(crate) fn faults(&self) -> u64
        ensures { result ≡ ⟦<MemIn as Source>⟧.faults self.now }
    {
        self.faults
    }

    pub(crate) fn reached(&self) -> u64
        ensures { result ≡ ⟦<MemIn as Source>⟧.reached self.now }
    {
        self.reached
    }
}

// Copies what stands at a place, as far as there is room and at most `most` bytes.
pub(crate) fn copy_at(bytes: &[u8], at: u64, most: u64, into: &mut [u8]) -> usize
    requires { 0 < most }
    ensures read { ReadsAt (Some bytes.now) at result into.old into.new }
    ensures count { result ≡ read_count (length bytes.now) at (length into.old) most }
{
    if at >= bytes.len() as u64 {
        return 0;
    }
    let rest = &bytes[at as usize..];
    let count = rest.len().min(into.len()).min(most as usize);
    into[..count].copy_from_slice(&rest[..count]);
    count
}

impl Source for MemIn {
    ghost bytes = { λ s. Some s.content.items };

    ghost reached = { λ s. s.reached };

    ghost faults = { λ s. s.faults };

    fn read_at(&mut self, at: u64, into: &mut [u8]) -> Result<usize, Failed>
        ensures bytes { Some self.new.content.items ≡ Some self.old.content.items }
        ensures read { IfOk result (λ n. ReadsAt (Some self.old.content.items) at n into.old into.new) }
        ensures reached { IfOk result (λ n. self.new.reached ≡ max self.old.reached (at + n)) }
        ensures err { OnErr result (self.new.reached ≡ self.old.reached) }
        ensures cause { HasCause self.old.faults self.new.faults result }

        // It fails exactly at the numbers in `fails`, and else gives an exact count.
        ensures fails_only { OnErr result (Contains self.old.fails.items self.new.calls) }
        ensures fails { OnOk result (Contains self.old.fails.items self.new.calls → ⊥) }
        ensures count { IfOk result (λ n. n ≡ read_count (length self.old.content.items) at (length into.old)
            self.old.most) }

        // A fault is counted, and leaves the slice.
        ensures calls { self.new.calls ≡ saturating self.old.calls 1 }
        ensures no_fault { OnOk result (self.new.faults ≡ self.old.faults) }
        ensures fault { OnErr result (self.new.faults ≡ saturating self.old.faults 1) }
        ensures untouched { OnErr result (into.new ≡ into.old) }
        ensures same { self.new ≡ record self.old
            { calls = self.new.calls; reached = self.new.reached; faults = self.new.faults } }
    {
        self.calls = self.calls.saturating_add(1);
        if self.fails.contains(&self.calls) {
            self.faults = self.faults.saturating_add(1);
            return Err(Failed);
        }
        let count = copy_at(&self.content, at, self.most, into);
        self.reached = self.reached.max(at + count as u64);
        Ok(count)
    }

    ghost use Rattle.file_devices.specs.Sure.{short_list};

    ghost small = { λ s b e. short_list s.content.items b s.small e };
}

/// A sink with room for so many bytes, of which the calls with chosen numbers fail.
///
/// An append that would pass the room fails as well, and puts nothing.
#[derive(Drop)]
pub struct MemOut {
    content: Vec<u8>,
    room: usize,
    fails: Vec<u64>,
    calls: u64,
    faults: u64,
    ghost within: { vec_len content ≤ room },
    ghost reserved: { room ≤ vec_capacity content },
}

impl MemOut {
    /// An empty sink with room for `room` bytes, that fails at the calls with the numbers in `fails`,
    /// counted from 1. Memory for the room is taken at once.
    pub fn new(alloc: Global, room: u64, fails: Vec<u64>) -> Result<Self, AllocError>
        ensures empty { IfOk result (λ s. ⟦<MemOut as Sink>⟧.bytes s ≡ Some []) }
        ensures faults { IfOk result (λ s. ⟦<MemOut as Sink>⟧.faults s ≡ 0) }
        ensures none_appended { IfOk result (λ s. ⟦<MemOut as Sink>⟧.appended s ≡ 0) }
        ensures room { IfOk result (λ s. s.room ≡ room) }
        ensures fails { IfOk result (λ s. s.fails ≡ fails) }
        ensures calls { IfOk result (λ s. s.calls ≡ 0) }
    {
        let content = Vec::with_capacity(alloc, room as usize)?;
        Ok(MemOut {
            content,
            room: room as usize,
            fails,
            calls: 0,
            faults: 0,
        })
    }

    /// What it holds.
    pub fn bytes(&self) -> &[u8]
        ensures { ⟦<MemOut as Sink>⟧.bytes self.now ≡ Some result.now }
    {
        &self.content
    }

    // What it holds, and its count.
    pub(crate) fn into_content(self) -> (Vec<u8>, u64)
        ensures { result ≡ (self.content, self.faults) }
    {
        (self.content, self.faults)
    }
}

impl Sink for MemOut {
    ghost bytes = { λ s. Some s.content.items };

    ghost appended = { λ s. min (length s.content.items) (2 ^ 64 - 1) };

    ghost faults = { λ s. s.faults };

    fn append(&mut self, piece: &[u8]) -> Result<(), Failed>
        ensures ok { OnOk result (Appends (Some self.old.content.items) piece.now
            (Some self.new.content.items)) }
        ensures part { OnErr result (AppendsPart (Some self.old.content.items) piece.now
            (Some self.new.content.items)) }
        ensures count { OnOk result (min (length self.new.content.items) (2 ^ 64 - 1)
            ≡ saturating (min (length self.old.content.items) (2 ^ 64 - 1)) (length piece.now)) }
        ensures no_less { min (length self.old.content.items) (2 ^ 64 - 1)
            ≤ min (length self.new.content.items) (2 ^ 64 - 1) }
        ensures no_more { min (length self.new.content.items) (2 ^ 64 - 1)
            ≤ saturating (min (length self.old.content.items) (2 ^ 64 - 1)) (length piece.now) }
        ensures cause { HasCause self.old.faults self.new.faults result }

        // It fails exactly at the numbers in `fails` and where the room is passed, and then puts nothing.
        ensures unchanged { OnErr result (self.new.content.items ≡ self.old.content.items) }
        ensures fails_only { OnErr result (Contains self.old.fails.items self.new.calls
            ⊎ (self.old.room < length self.old.content.items + length piece.now)) }
        ensures fails { OnOk result ((Contains self.old.fails.items self.new.calls → ⊥)
            × (length self.old.content.items + length piece.now ≤ self.old.room)) }

        ensures calls { self.new.calls ≡ saturating self.old.calls 1 }
        ensures no_fault { OnOk result (self.new.faults ≡ self.old.faults) }
        ensures fault { OnErr result (self.new.faults ≡ saturating self.old.faults 1) }
        ensures same { (self.new.room ≡ self.old.room) × (self.new.fails ≡ self.old.fails) }
    {
        self.calls = self.calls.saturating_add(1);
        if self.fails.contains(&self.calls) {
            self.faults = self.faults.saturating_add(1);
            return Err(Failed);
        }
        if piece.len() > self.room - self.content.len() {
            self.faults = self.faults.saturating_add(1);
            return Err(Failed);
        }
        match self.content.extend_from_slice(piece) {
            Ok(()) => Ok(()),
            Err(_) => {
                self.faults = self.faults.saturating_add(1);
                Err(Failed)
            }
        }
    }

    ghost counted = { λ s b e. ap (λ o. min (length (unwrap_or o [])) (2 ^ 64 - 1)) e };
}

impl FileSink for MemOut {
    fn patch(&mut self, at: u64, piece: &[u8]) -> Result<(), Failed>
        requires { at + length piece.now ≤ min (length self.old.content.items) (2 ^ 64 - 1) }
        ensures ok { OnOk result (Patches (Some self.old.content.items) at piece.now
            (Some self.new.content.items)) }
        ensures err { OnErr result (PatchesSomehow (Some self.old.content.items) at (length piece.now)
            (Some self.new.content.items)) }
        ensures count { min (length self.new.content.items) (2 ^ 64 - 1)
            ≡ min (length self.old.content.items) (2 ^ 64 - 1) }
        ensures cause { HasCause self.old.faults self.new.faults result }

        // It fails exactly at the numbers in `fails`, and then changes nothing.
        ensures unchanged { OnErr result (self.new.content.items ≡ self.old.content.items) }
        ensures fails_only { OnErr result (Contains self.old.fails.items self.new.calls) }
        ensures fails { OnOk result (Contains self.old.fails.items self.new.calls → ⊥) }

        ensures calls { self.new.calls ≡ saturating self.old.calls 1 }
        ensures no_fault { OnOk result (self.new.faults ≡ self.old.faults) }
        ensures fault { OnErr result (self.new.faults ≡ saturating self.old.faults 1) }
        ensures same { (self.new.room ≡ self.old.room) × (self.new.fails ≡ self.old.fails) }
    {
        self.calls = self.calls.saturating_add(1);
        if self.fails.contains(&self.calls) {
            self.faults = self.faults.saturating_add(1);
            return Err(Failed);
        }
        let start = at as usize;
        self.content[start..start + piece.len()].copy_from_slice(piece);
        Ok(())
    }
}
