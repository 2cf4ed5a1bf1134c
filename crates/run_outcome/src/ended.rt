//! What the stages of a run came to.

use arrayvec::ArrayVec;
use cloud_points::StageFault;
use run_report::Report;

/// The fault of each stage of a run, in the order of the stages, which are at most 64.
pub type StageFaults = ArrayVec<Option<StageFault>, 64>;

/// What the stages of a run came to.
#[derive(Drop)]
pub struct Ended {
    /// What each stage gave on.
    pub report: Report,

    /// The fault of each stage, where it has one.
    pub faults: StageFaults,
}
