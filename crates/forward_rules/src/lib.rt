//! What stands around the points of a written LAS file: the options of a writer, and what it takes over from the files
//! that are read below it.
#![tactic(auto)]

mod fields;
mod form;
mod forwarding;
mod given;
mod lists;
mod names;
mod options;
mod values;

pub use form::LasForm;
pub use forwarding::Forwarding;
pub use names::NameList;
pub use options::LasOpts;
pub use values::default_scale;
