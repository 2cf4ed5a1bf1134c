//! Texts of options that are lists.

use crate::pieces::add_times;
use arrayvec::ArrayString;
use cloud_points::ExtraKind;
use option_texts::{
    ExtraDims, columns_of, extra_dims_of, ferries_of, forward_of, groups_of, is_columns, is_forward,
};
use std::alloc::Global;

/// Texts, and the columns that they are read as, each with a bar behind it.
const COLUMNS: [(&str, &str); 16] = [
    ("X:2,Y:2,Z:2,Classification", "X:2|Y:2|Z:2|Classification|"),
    (" X , Y:3 ", "X|Y:3|"),
    ("\t_a1 :\n0\r", "_a1:0|"),
    ("X,X", "X|X|"),
    ("X:", "refused"),
    (":2", "refused"),
    ("X:10", "refused"),
    ("X:a", "refused"),
    ("X:2:3", "refused"),
    ("X Y", "refused"),
    (",X", "refused"),
    ("X,", "refused"),
    ("", "refused"),
    (" ", "refused"),
    ("1X", "refused"),
    ("X\u{c}", "refused"),
];

/// Texts, and the names that they are read as, each with a bar behind it.
const FIELDS: [(&str, &str); 8] = [
    ("all", "all|"),
    ("scale , offset", "scale|offset|"),
    ("vlr,vlr", "vlr|vlr|"),
    (" offset_z\n", "offset_z|"),
    ("All", "refused"),
    ("scales", "refused"),
    ("scale,", "refused"),
    ("", "refused"),
];

/// Texts, and the ferries that they are read as, each with a bar behind it.
const FERRIES: [(&str, &str); 14] = [
    ("X=>A", "X>A|"),
    (" X => A , Y=>\t_b1\n", "X>A|Y>_b1|"),
    ("X=>X,x=>x", "X>X|x>x|"),
    ("X= >A", "refused"),
    ("X=A", "refused"),
    ("X>A", "refused"),
    ("X=>A=>B", "refused"),
    ("X==>A", "refused"),
    ("=>A", "refused"),
    ("X=>", "refused"),
    ("X=>1A", "refused"),
    ("X=>A,", "refused"),
    ("X Y=>A", "refused"),
    ("", "refused"),
];

/// Texts, and the fields that they are read as, each with a bar behind it; `all` for all dimensions.
const EXTRA_DIMS: [(&str, &str); 18] = [
    ("all", "all"),
    (" all ", "all"),
    ("ALL", "refused"),
    ("Height=int16:1", "Height=int16:1|"),
    (" a = uint8 , _b=int64 : 9 ", "a=uint8:0|_b=int64:9|"),
    ("A=uint32,a=int8", "refused"),
    (
        "a=uint8,b=int8,c=uint16,d=int16,e=uint32,f=int32,g=uint64,h=int64",
        "a=uint8:0|b=int8:0|c=uint16:0|d=int16:0|e=uint32:0|f=int32:0|g=uint64:0|h=int64:0|",
    ),
    (
        "a=int8,b=int8,c=int8,d=int8,e=int8,f=int8,g=int8,h=int8,i=int8",
        "refused",
    ),
    ("Height=int16:", "refused"),
    ("Height=int16:10", "refused"),
    ("Height=int", "refused"),
    ("Height", "refused"),
    ("=int8", "refused"),
    ("", "refused"),
    ("all,Height=int8", "refused"),
    ("X=float", "refused"),
    ("X=int8:1:2", "refused"),
    ("X=int8", "X=int8:0|"),
];

/// Texts, and whether the first, the last, those between and single returns are named; None where the text is refused.
const GROUPS: [(&str, Option<[bool; 4]>); 9] = [
    ("first", Some([true, false, false, false])),
    (" last\n", Some([false, true, false, false])),
    ("intermediate,only", Some([false, false, true, true])),
    ("only , first,only", Some([true, false, false, true])),
    ("First", None),
    ("first last", None),
    ("first,", None),
    ("single", None),
    ("", None),
];

/// What a text is read as, as far as there is room.
type Shown = ArrayString<128>;

/// Adds pieces.
fn show(shown: &mut Shown, pieces: &[&str]) {
    for piece in pieces {
        let _ = shown.try_push_str(piece);
    }
}

/// Adds a digit.
fn show_digit(shown: &mut Shown, digit: u32) {
    let _ = shown.try_push(char::from_digit(digit, 10).unwrap_or('?'));
}

/// The columns of a text, each with a bar behind it.
fn shown_columns(alloc: Global, text: &str) -> Shown {
    let mut shown = Shown::new();
    let Ok(Some(columns)) = columns_of(alloc, text) else {
        show(&mut shown, &["refused"]);
        return shown;
    };
    for column in columns.as_slice() {
        show(&mut shown, &[column.name.as_str()]);
        if let Some(places) = column.places {
            show(&mut shown, &[":"]);
            show_digit(&mut shown, places);
        }
        show(&mut shown, &["|"]);
    }
    shown
}

/// The names of a text, each with a bar behind it.
fn shown_fields(alloc: Global, text: &str) -> Shown {
    let mut shown = Shown::new();
    let Ok(Some(names)) = forward_of(alloc, text) else {
        show(&mut shown, &["refused"]);
        return shown;
    };
    for name in names.as_slice() {
        show(&mut shown, &[name.as_str(), "|"]);
    }
    shown
}

/// The ferries of a text, each with a bar behind it.
fn shown_ferries(alloc: Global, text: &str) -> Shown {
    let mut shown = Shown::new();
    let Ok(Some(ferries)) = ferries_of(alloc, text) else {
        show(&mut shown, &["refused"]);
        return shown;
    };
    for ferry in ferries.as_slice() {
        show(
            &mut shown,
            &[ferry.from.as_str(), ">", ferry.to.as_str(), "|"],
        );
    }
    shown
}

/// The name of a kind.
fn shown_kind(kind: ExtraKind) -> &'static str {
    match kind {
        ExtraKind::U8 => "uint8",
        ExtraKind::I8 => "int8",
        ExtraKind::U16 => "uint16",
        ExtraKind::I16 => "int16",
        ExtraKind::U32 => "uint32",
        ExtraKind::I32 => "int32",
        ExtraKind::U64 => "uint64",
        ExtraKind::I64 => "int64",
    }
}

/// The extra dimensions of a text, each with a bar behind it.
fn shown_extra_dims(alloc: Global, text: &str) -> Shown {
    let mut shown = Shown::new();
    match extra_dims_of(alloc, text) {
        Ok(Some(ExtraDims::All)) => show(&mut shown, &["all"]),
        Ok(Some(ExtraDims::Fields(fields))) => {
            for field in fields.as_slice() {
                show(
                    &mut shown,
                    &[field.name.as_str(), "=", shown_kind(field.kind), ":"],
                );
                show_digit(&mut shown, field.places);
                show(&mut shown, &["|"]);
            }
        }
        _ => show(&mut shown, &["refused"]),
    }
    shown
}

pub fn ferries_are_read(alloc: Global) -> bool {
    let mut right = true;
    for &(text, expected) in &FERRIES {
        right &= shown_ferries(alloc, text).as_str() == expected;
    }
    right
}

pub fn extra_dims_are_read(alloc: Global) -> bool {
    let mut right = true;
    for &(text, expected) in &EXTRA_DIMS {
        right &= shown_extra_dims(alloc, text).as_str() == expected;
    }
    right
}

/// Whether a text names these groups of returns.
fn is_groups(text: &str, expected: Option<[bool; 4]>) -> bool {
    match groups_of(text) {
        Some(g) => Some([g.first, g.last, g.intermediate, g.only]) == expected,
        None => expected.is_none(),
    }
}

pub fn groups_are_read() -> bool {
    let mut right = true;
    for &(text, expected) in &GROUPS {
        right &= is_groups(text, expected);
    }
    right
}

pub fn columns_are_read(alloc: Global) -> bool {
    let mut right = true;
    for &(text, expected) in &COLUMNS {
        right &= shown_columns(alloc, text).as_str() == expected;
        right &= is_columns(text) == (expected != "refused");
    }
    right
}

pub fn fields_are_read(alloc: Global) -> bool {
    let mut right = true;
    for &(text, expected) in &FIELDS {
        right &= shown_fields(alloc, text).as_str() == expected;
        right &= is_forward(text) == (expected != "refused");
    }
    right
}

pub fn sixty_four_columns_are_the_most(alloc: Global) -> bool {
    let mut text = String::new(alloc);
    add_times(&mut text, "X", 1);
    add_times(&mut text, ",X", 63);
    let most = is_columns(text.as_str());
    add_times(&mut text, ",X", 1);
    most && !is_columns(text.as_str())
}
