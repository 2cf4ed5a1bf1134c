//! A variable length record, and why a list of them isn't read.
ghost use Rattle.std.specs.Prelude.{◌≡◌, IfOk};
ghost use Rattle.las_vlr.specs.ExtraBytes.{is_extra_bytes};
ghost use Rattle.las_vlr.specs.Same.{same_vlr};
ghost use Rattle.las_vlr.specs.declared.entry.VlrErr.TheVariants.{Fault, Memory};

use file_devices::Bytes;
use std::alloc::{AllocError, Global};

/// The bytes in front of the payload of a VLR.
pub const VLR_HEAD: usize = 54;

/// The bytes in front of the payload of an EVLR.
pub(crate) const EVLR_HEAD: usize = 60;

/// The user that the standard's own records are of.
pub const STANDARD_USER: [u8; 16] = *b"LASF_Spec\0\0\0\0\0\0\0";

/// The number of the record that describes the extra bytes of point records.
pub const EXTRA_BYTES: u16 = 4;

/// A variable length record, plain or extended.
#[derive(Drop)]
pub struct Vlr {
    /// The reserved word at its beginning.
    pub reserved: u16,

    /// The id of the user that defined it, filled with zero bytes.
    pub user: [u8; 16],

    /// Its number among those of this user.
    pub id: u16,

    /// The description, filled with zero bytes.
    pub text: [u8; 32],

    /// What it holds.
    pub payload: Bytes,
}

impl Vlr {
    /// Whether it describes the extra bytes of point records ("Extra Bytes" of the standard).
    pub fn is_extra_bytes(&self) -> bool
        ensures { result ≡ is_extra_bytes self.now }
    {
        self.id == EXTRA_BYTES && self.user == STANDARD_USER
    }

    /// Whether all fields of another record are the same, the reserved word and the payload too.
    pub fn is_same(&self, other: &Self) -> bool
        ensures { result ≡ same_vlr self.now other.now }
    {
        self.reserved == other.reserved
            && self.user == other.user
            && self.id == other.id
            && self.text == other.text
            && self.payload.is_same(&other.payload)
    }

    /// The same record once more, in memory of its own.
    pub fn try_copy(&self, alloc: Global) -> Result<Self, AllocError>
        ensures { IfOk result (λ copy. copy ≡ self.now) }
    {
        let payload = self.payload.try_copy(alloc)?;
        Ok(Vlr {
            reserved: self.reserved,
            user: self.user,
            id: self.id,
            text: self.text,
            payload,
        })
    }
}

/// Which of the two kinds of record a list has.
#[derive(Clone, Copy, Debug, PartialEq, Eq)]
pub(crate) enum ListKind {
    /// VLRs, which end where the points begin, at this place.
    Plain(u64),

    /// EVLRs.
    Extended,
}

/// What is wrong with a list of records. A record is named by its number, from 0 on.
#[derive(Clone, Copy, Debug, PartialEq, Eq)]
pub enum VlrFault {
    /// There are more than 4,096 records, or their payloads have more than 16,777,216 bytes.
    TooManyVlrs,

    /// A VLR ends after the points begin.
    VlrPastPoints(u32),

    /// A VLR ends after the file.
    VlrPastEnd(u32),

    /// An EVLR ends after the file.
    EvlrPastEnd(u32),
}

/// Why a list of records isn't read.
#[derive(Clone, Copy, Debug, PartialEq, Eq)]
pub enum VlrErr {
    /// The list has a fault.
    Fault(VlrFault),

    /// A read failed.
    ReadFailed,

    /// There was no memory for the list.
    Memory,
}

impl From<AllocError> for VlrErr {
    ghost from_gives = { λ _ e. e ≡ Memory };

    fn from(_: AllocError) -> Self {
        VlrErr::Memory
    }
}

impl From<VlrFault> for VlrErr {
    ghost from_gives = { λ fault e. e ≡ Fault fault };

    fn from(fault: VlrFault) -> Self {
        VlrErr::Fault(fault)
    }
}
