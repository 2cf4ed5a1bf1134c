//! A stage of a pipeline.

ghost use Rattle.std.specs.Prelude.{◌≡◌, ℕ, List};

use file_devices::Name;
use serde_json::{Map, Value};
use stage_names::KindName;
use std::marker::Model;

/// A list of the numbers of stages, which contracts see as that list.
#[derive(Drop)]
pub struct StageList {
    numbers: Vec<u32>,
}

impl Model for StageList {
    ghost Value = { List ℕ };

    ghost view = { λ l. l.numbers.items };
}

impl StageList {
    /// The list with these numbers. It takes no memory.
    pub fn new(numbers: Vec<u32>) -> Self
        ensures { result ≡ numbers.items }
    {
        StageList { numbers }
    }

    /// The numbers, in their order.
    pub fn as_slice(&self) -> &[u32]
        ensures { result.now ≡ self.now }
    {
        self.numbers.as_slice()
    }

    /// Gives the numbers back. It takes no memory.
    pub fn into_vec(self) -> Vec<u32>
        ensures { result.items ≡ self }
    {
        self.numbers
    }
}

/// A stage of a pipeline, with options that no one has looked at yet.
#[derive(Drop)]
pub struct RawStage {
    /// Its type.
    pub kind: KindName,

    /// Its tag, by which later stages name it.
    pub tag: Option<Name>,

    /// The numbers of the stages that it takes, in the order in which it takes them.
    pub ins: StageList,

    /// The name of its file.
    pub filename: Option<Name>,

    /// Its object without the members `type`, `tag`, `inputs` and `filename`; empty for a text.
    pub options: Map<String, Value>,
}
