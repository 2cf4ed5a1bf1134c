//! Extra dimensions in the bytes of a record behind the fields of its format ("Extra Bytes" of the ASPRS LAS Specification 1.4
//! R15): their values, and the descriptors that say what stands there.
#![tactic(auto)]

mod asked;
mod binding;
mod descriptors;
mod examples;
mod laws;
mod points;
mod reading;
mod record;
mod values;
mod writing;
mod written;

pub use asked::{ask_fields, move_fields};
pub use binding::bind_fields;
pub use descriptors::DESCRIPTOR;
pub use examples::{asked_are_fields, descriptors_are_fields, values_are_bytes};
pub use laws::{asked_are_laid, record_is_read, values_return, written_are_read};
pub use points::{fields_size, get_fields, put_fields};
pub use reading::read_fields;
pub use record::{extra_vlr, find_fields};
pub use values::get_extra;
pub use writing::put_extra;
pub use written::write_fields;
