//! A stage with its options.

use crate::options::Options;
use pipeline_json::StageList;

/// A stage of a pipeline, with its typed options. These tell its type.
#[derive(Drop)]
pub struct StageSpec {
    /// The numbers of the stages that it takes, in the order in which it takes them.
    pub ins: StageList,

    /// Its options, with their defaults.
    pub options: Options,
}
