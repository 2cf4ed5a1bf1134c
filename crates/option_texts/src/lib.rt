//! The texts of options that are lists: columns of a text file, fields of a header that are taken over, ferries, groups of
//! returns, and extra dimensions of a LAS file.
#![tactic(auto)]

mod columns;
mod extra_dims;
mod ferries;
mod forward;
mod groups;
mod parts;

pub use columns::{NamedColumn, NamedColumns, columns_of, is_columns};
pub use extra_dims::{ExtraDims, NamedField, NamedFields, extra_dims_of};
pub use ferries::{NamedFerries, NamedFerry, ferries_of};
pub use forward::{NameList, forward_of, is_forward};
pub use groups::{Groups, groups_of};
