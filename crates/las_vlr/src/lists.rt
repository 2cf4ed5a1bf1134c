//! A list of variable length records.
ghost use Rattle.std.specs.Prelude.{◌≡◌, List, IfOk, option_map};
ghost use Rattle.las_vlr.specs.ExtraBytes.{extra_bytes_in};
ghost use Rattle.las_vlr.specs.Same.{same_list};
ghost use Rattle.las_vlr.specs.declared.entry.Vlr.{Vlr};

use crate::Vlr;
use std::alloc::{AllocError, Global};
use std::marker::Model;

/// Variable length records, which contracts see as the list of them.
#[derive(Drop)]
pub struct VlrList {
    items: Vec<Vlr>,
}

impl Model for VlrList {
    ghost use Rattle.std.specs.Prelude.{List};
    ghost use Rattle.las_vlr.specs.declared.entry.Vlr.{Vlr};

    ghost Value = { List Vlr };

    ghost view = { λ l. l.items.items };
}

impl VlrList {
    /// The list of these records. It takes no memory.
    pub fn new(vlrs: Vec<Vlr>) -> Self
        ensures { result ≡ vlrs.items }
    {
        VlrList { items: vlrs }
    }

    /// The records, in their order.
    pub fn as_slice(&self) -> &[Vlr]
        ensures { result.now ≡ self.now }
    {
        self.items.as_slice()
    }

    /// What the first record holds that describes the extra bytes of point records.
    pub fn extra_bytes(&self) -> Option<&[u8]>
        ensures { option_map (λ payload. payload.now) result ≡ extra_bytes_in self.now }
    {
        let vlr = self.items.iter().find(|vlr| vlr.is_extra_bytes())?;
        Some(vlr.payload.as_slice())
    }

    /// Whether another list has the same records in the same order.
    pub fn is_same(&self, other: &Self) -> bool
        ensures { result ≡ same_list self.now other.now }
    {
        if self.items.len() != other.items.len() {
            return false;
        }
        for (at, vlr) in self.items.iter().enumerate() {
            if !vlr.is_same(&other.items[at]) {
                return false;
            }
        }
        true
    }

    /// The same list once more, in memory of its own.
    pub fn try_copy(&self, alloc: Global) -> Result<Self, AllocError>
        ensures { IfOk result (λ copy. copy ≡ self.now) }
    {
        let mut items = Vec::new(alloc);
        for vlr in &self.items {
            items.push(vlr.try_copy(alloc)?)?;
        }
        Ok(VlrList { items })
    }

    /// Gives the records back. It takes no memory.
    pub fn into_vec(self) -> Vec<Vlr>
        ensures { result.items ≡ self }
    {
        self.items
    }
}
