//! What a stage gives on.

use cloud_points::StageFault;
use whole_filters::Views;

/// What a stage gave on, and its fault.
#[derive(Drop)]
pub(crate) struct StageOutput {
    /// What it made of the points that it took, or of those before the one at which it stopped.
    pub views: Views,

    /// The fault of the point at which it stopped, or of its device.
    pub fault: Option<StageFault>,
}
