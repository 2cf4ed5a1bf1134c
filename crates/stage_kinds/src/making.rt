//! What stages make of whole views.

use crate::Writing;
use whole_filters::Gathering;

/// What a stage that needs whole views makes of them.
#[derive(Drop)]
pub enum Making {
    /// Other views.
    Gathers(Gathering),

    /// A file of each, once the run has ended. It gives the views on.
    WritesEach(Writing),
}
