//! Extra dimensions as fields of a record.

ghost use Rattle.std.specs.Prelude.{◌≡◌, ◌≤◌, []};
ghost use Rattle.cloud_points.specs.ExtraFields.{kind_size};

use decimal_coords::Scale;
use file_devices::Name;
use std::alloc::Global;
use std::marker::Model;

/// The type of the raw numbers of a field.
#[derive(Clone, Copy, Debug, PartialEq, Eq)]
pub enum ExtraKind {
    /// 8 bits without a sign.
    U8,

    /// 8 bits with a sign.
    I8,

    /// 16 bits without a sign.
    U16,

    /// 16 bits with a sign.
    I16,

    /// 32 bits without a sign.
    U32,

    /// 32 bits with a sign.
    I32,

    /// 64 bits without a sign.
    U64,

    /// 64 bits with a sign.
    I64,
}

impl ExtraKind {
    /// How many bytes a raw number takes.
    pub fn size(self) -> usize
        ensures size { result ≡ kind_size self }
        ensures some { 1 ≤ result }
        ensures most { result ≤ 8 }
    {
        match self {
            ExtraKind::U8 | ExtraKind::I8 => 1,
            ExtraKind::U16 | ExtraKind::I16 => 2,
            ExtraKind::U32 | ExtraKind::I32 => 4,
            ExtraKind::U64 | ExtraKind::I64 => 8,
        }
    }
}

/// A field behind those of a record's format, which holds the values of an extra dimension.
#[derive(Drop)]
pub struct ExtraField {
    /// The name of the dimension, as its file spells it.
    pub name: Name,

    /// The place of the dimension among the extra names.
    pub place: u8,

    /// The type of its raw numbers.
    pub kind: ExtraKind,

    /// The byte of the record at which it begins.
    pub at: usize,

    /// The value of one step of a raw number.
    pub scale: Scale,

    /// The value of raw number 0, in nanounits.
    pub offset: i64,
}

/// Fields in the order of the record, which contracts see as a list.
#[derive(Drop)]
pub struct FieldList {
    fields: Vec<ExtraField>,
}

impl Model for FieldList {
    ghost use Rattle.std.specs.Prelude.{List};
    ghost use Rattle.cloud_points.specs.declared.extra.ExtraField.{ExtraField};

    ghost Value = { List ExtraField };

    ghost view = { λ l. l.fields.items };
}

impl FieldList {
    /// No fields. It takes no memory.
    pub fn none(alloc: Global) -> Self
        ensures { result ≡ [] }
    {
        FieldList {
            fields: Vec::new(alloc),
        }
    }

    /// The list of these fields. It takes no memory.
    pub fn new(fields: Vec<ExtraField>) -> Self
        ensures { result ≡ fields.items }
    {
        FieldList { fields }
    }

    /// The fields, in their order.
    pub fn as_slice(&self) -> &[ExtraField]
        ensures { result.now ≡ self.now }
    {
        self.fields.as_slice()
    }

    /// Gives the fields back. It takes no memory.
    pub fn into_vec(self) -> Vec<ExtraField>
        ensures { result.items ≡ self }
    {
        self.fields
    }
}
