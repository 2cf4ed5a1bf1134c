//! Names of dimensions.

use cloud_points::{AddFault, Dim, ExtraNames, dim_of, name_of};
use std::alloc::Global;

/// Names, and their dimensions where there are no extra ones.
const NAMES: [(&str, Option<Dim>); 7] = [
    ("classification", Some(Dim::Classification)),
    ("CLASSIFICATION", Some(Dim::Classification)),
    ("Z", Some(Dim::Z)),
    ("infraRed", Some(Dim::Infrared)),
    ("Extra0", None),
    ("zz", None),
    ("", None),
];

/// Extra names that are added one after the other, and the place of each.
const ADDED: [(&str, u8); 4] = [
    ("HeightAboveGround", 0),
    ("Slope", 1),
    ("heightaboveground", 0),
    ("SLOPE", 1),
];

/// Names in some spelling, and the one that is given back.
const SPELLED: [(&str, &str); 3] = [
    ("HEIGHTABOVEGROUND", "HeightAboveGround"),
    ("slope", "Slope"),
    ("gpstime", "GpsTime"),
];

/// Names that are added one after the other, and their places as far as there is room.
const FULL: [(&str, Result<u8, AddFault>); 11] = [
    ("a", Ok(0)),
    ("b", Ok(1)),
    ("c", Ok(2)),
    ("d", Ok(3)),
    ("e", Ok(4)),
    ("f", Ok(5)),
    ("g", Ok(6)),
    ("h", Ok(7)),
    ("i", Err(AddFault::Full)),
    ("H", Ok(7)),
    ("A", Ok(0)),
];

pub(crate) fn names_are_read_in_any_case(alloc: Global) -> bool {
    let names = ExtraNames::none(alloc);
    let mut right = true;
    for &(name, dim) in &NAMES {
        right &= dim_of(name, &names) == dim;
    }
    right
}

/// Whether a name is added at this place, where it is found then.
fn is_added(names: &mut ExtraNames, name: &str, place: u8) -> bool {
    names.add(name) == Ok(place)
        && names.place(name) == Some(place)
        && dim_of(name, names) == Some(Dim::Extra(place))
}

/// Whether a name leads to a dimension of this name.
fn is_spelled(names: &ExtraNames, name: &str, spelled: &str) -> bool {
    match dim_of(name, names) {
        Some(dim) => name_of(dim, names) == spelled,
        None => false,
    }
}

pub(crate) fn an_extra_name_keeps_its_first_spelling(alloc: Global) -> bool {
    let mut names = ExtraNames::none(alloc);
    let mut right = true;
    for &(name, place) in &ADDED {
        right &= is_added(&mut names, name, place);
    }
    for &(name, spelled) in &SPELLED {
        right &= is_spelled(&names, name, spelled);
    }
    right
}

pub(crate) fn there_are_eight_extra_names_at_most(alloc: Global) -> bool {
    let mut names = ExtraNames::none(alloc);
    let mut right = true;
    for &(name, added) in &FULL {
        right &= names.add(name) == added;
    }
    right & (names.place("i") == None)
}
