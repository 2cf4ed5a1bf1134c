//! The names of dimensions, also of those that a run adds.

ghost use Rattle.std.specs.Prelude.{◌≡◌, ◌<◌, ◌≤◌, ◌↔◌, ℕ, [], length, slice_index_or, true, Some, None, Ok, IfOk, IfSome, OnErr, IsErrOf};
ghost use Rattle.cloud_points.specs.Dims.{name_of};
ghost use Rattle.cloud_points.specs.ExtraNames.{same_name, DifferentNames, NoneStandard, is_standard, place_in, dim_named, dim_in, name_in, IsNamed, added};
ghost use Rattle.cloud_points.specs.declared.dims.Dim.{Dim};
ghost use Rattle.cloud_points.specs.declared.names.AddFault.TheVariants.{Full, Memory};

use crate::Dim;
use file_devices::Name;
use std::alloc::{AllocError, Global};
use std::marker::Model;

/// The most names of extra dimensions.
const MOST_NAMES: usize = 8;

/// The dimensions of the standard, in the order of the enum.
const STANDARD: [Dim; 22] = [
    Dim::X,
    Dim::Y,
    Dim::Z,
    Dim::Intensity,
    Dim::ReturnNumber,
    Dim::NumberOfReturns,
    Dim::ScanDirectionFlag,
    Dim::EdgeOfFlightLine,
    Dim::Classification,
    Dim::Synthetic,
    Dim::KeyPoint,
    Dim::Withheld,
    Dim::Overlap,
    Dim::ScanChannel,
    Dim::ScanAngleRank,
    Dim::UserData,
    Dim::PointSourceId,
    Dim::GpsTime,
    Dim::Red,
    Dim::Green,
    Dim::Blue,
    Dim::Infrared,
];

/// Why a name isn't added.
#[derive(Clone, Copy, Debug, PartialEq, Eq)]
pub enum AddFault {
    /// It is new, and there are 8 names already.
    Full,

    /// There was no memory.
    Memory,
}

impl From<AllocError> for AddFault {
    ghost from_gives = { λ _ fault. fault ≡ Memory };

    fn from(_: AllocError) -> Self {
        AddFault::Memory
    }
}

/// The names of extra dimensions, at most 8, in the order in which they were added. Names that differ only in the case of
/// ASCII letters are one name. A clause sees the list of them.
#[derive(Drop)]
pub struct ExtraNames {
    names: Vec<Name>,
}

impl Model for ExtraNames {
    ghost use Rattle.std.specs.Prelude.{ℕ, List, ◌≤◌, length};
    ghost use Rattle.cloud_points.specs.ExtraNames.{DifferentNames};

    ghost Value = { List (List ℕ) };

    ghost view = { λ n. n.names.items };

    ghost invariant = { λ n. (length n.names.items ≤ 8) × DifferentNames n.names.items };
}

/// Whether two names differ at most in the case of ASCII letters.
fn is_same_name(name: &str, other: &str) -> bool
    ensures { result ≡ same_name name.now other.now }
{
    name.eq_ignore_ascii_case(other)
}

/// The place of the first name that is this one.
fn place_among(name: &str, names: &[Name]) -> Option<usize>
    ensures { result ≡ place_in name.now names.now }
{
    names
        .iter()
        .position(|known| is_same_name(name, known.as_str()))
}

/// The dimension of the standard with this name, without regard to the case of ASCII letters.
pub fn standard_dim(name: &str) -> Option<Dim>
    ensures { result ≡ dim_named name.now }
{
    STANDARD
        .iter()
        .copied()
        .find(|dim| is_same_name(name, dim.name()))
}

impl ExtraNames {
    /// No names. It takes no memory.
    pub fn none(alloc: Global) -> ExtraNames
        ensures { result ≡ [] }
    {
        ExtraNames {
            names: Vec::new(alloc),
        }
    }

    /// The place of this name, counted from 0; None exactly where it isn't among them. There are at most 8 names, and no two
    /// are one.
    pub fn place(&self, name: &str) -> Option<u8>
        ensures place { result ≡ place_in name.now self.now }
        ensures within { IfSome result (λ place. place < length self.now) }
        ensures few { length self.now ≤ 8 }
        ensures different { DifferentNames self.now }
    {
        match place_among(name, self.names.as_slice()) {
            None => None,
            Some(place) => Some(place as u8),
        }
    }

    /// The place of this name. A new name takes the next place, with the spelling given here; one that is there keeps its
    /// place and its spelling, and needs no memory. After an error the names are as before.
    ///
    /// `AddFault::Full` comes exactly where the name is new and there are 8 names.
    #[tactic(auto, using(crate::proofs::Named::place_new, crate::proofs::Named::different_new))]
    pub fn add(&mut self, name: &str) -> Result<u8, AddFault>
        ensures added { IfOk result (λ place. self.new ≡ added name.now self.old) }
        ensures place { IfOk result (λ place. place_in name.now self.new ≡ Some place) }
        ensures known { (place : ℕ) → place_in name.now self.old ≡ Some place → result ≡ Ok place }
        ensures next { place_in name.now self.old ≡ None → IfOk result (λ place. place ≡ length self.old) }
        ensures full { IsErrOf result Full ↔ ((place_in name.now self.old ≡ None) × (length self.old ≡ 8)) }
        ensures err { OnErr result (self.new ≡ self.old) }
    {
        if let Some(place) = self.place(name) {
            return Ok(place);
        }
        let place = self.names.len();
        if place == MOST_NAMES {
            return Err(AddFault::Full);
        }
        let alloc = *self.names.allocator();
        let copy = Name::new(String::from_str(alloc, name)?);
        self.names.push(copy).map_err(AllocError::from)?;
        Ok(place as u8)
    }

    /// The names in the order of their places, each with the spelling that was added first.
    pub fn as_slice(&self) -> &[Name]
        ensures names { result.now ≡ self.now }
        ensures few { length result.now ≤ 8 }
        ensures different { DifferentNames result.now }
    {
        self.names.as_slice()
    }

    /// The name at a place, with the spelling that was added first.
    fn spelling(&self, place: u8) -> &str
        requires { place < length self.now }
        ensures name { result.now ≡ slice_index_or self.now place [] }
        ensures different { DifferentNames self.now }
    {
        self.names[place as usize].as_str()
    }
}

/// The dimension with this name, without regard to the case of ASCII letters: one of the standard's, else an extra one. None
/// exactly where there is neither.
pub fn dim_of(name: &str, names: &ExtraNames) -> Option<Dim>
    ensures dim { result ≡ dim_in name.now names.now }
    ensures named { IfSome result (λ dim. IsNamed dim names.now) }
    ensures own { (dim : Dim) → is_standard dim ≡ true → same_name name.now (name_of dim) ≡ true
        → result ≡ Some dim }
{
    match standard_dim(name) {
        Some(dim) => Some(dim),
        None => names.place(name).map(Dim::Extra),
    }
}

/// The name of a dimension: the standard's spelling, or for an extra dimension the one that was added first.
///
/// Where no extra name is one of the standard's, `dim_of` leads from it back to the dimension.
#[tactic(auto, using(crate::proofs::Named::extra_back))]
pub fn name_of(dim: Dim, names: &ExtraNames) -> &str
    requires { IsNamed dim names.now }
    ensures name { result.now ≡ name_in dim names.now }
    ensures back { NoneStandard names.now → dim_in result.now names.now ≡ Some dim }
{
    match dim {
        Dim::Extra(place) => names.spelling(place),
        _ => dim.name(),
    }
}
