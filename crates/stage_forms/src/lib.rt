//! What stands below the stages of a tree, the fields that its readers take, the forms of the files that its writers write, and its works
//! at their start.
#![tactic(auto)]

mod below;
mod fields;
mod forms;
mod starts;

pub use below::{Below, next_below};
pub use fields::{add_fields, take_fields};
pub use forms::{las_form, text_form};
pub use starts::stage_form;
