//! Why a pipeline is refused.

ghost use Rattle.std.specs.Prelude.{◌≡◌};
ghost use Rattle.stage_names.specs.declared.faults.PipeErr.TheVariants.{Fault, Memory};

use file_devices::Name;
use std::alloc::AllocError;

/// What is wrong with a pipeline. A stage is named by its number, from 0 on. Of several faults the first is told: those of
/// the whole text, then those of the stages, stage by stage and in this order, then `Loose`, then those of options.
#[derive(Drop)]
pub enum PipeFault {
    /// The text has more than 1,048,576 bytes.
    TextTooLong,

    /// The text is no JSON (RFC 8259).
    NotJson,

    /// The text is neither an array nor an object whose member `pipeline` is one.
    NotAPipeline,

    /// There is no stage.
    Empty,

    /// There are more than 64 stages.
    TooManyStages,

    /// The element is malformed.
    BadStage(u32),

    /// No type has this name.
    TypeUnknown(u32),

    /// The name of the file stands for no type.
    CannotInfer(u32),

    /// An earlier stage has the tag.
    TagTwice(u32),

    /// An input is no earlier stage's tag.
    TagUnknown(u32),

    /// A reader has inputs.
    InputOfReader(u32),

    /// A stage that is no reader takes nothing.
    NoInput(u32),

    /// An input was taken before.
    UsedTwice(u32),

    /// What the stage gives isn't taken.
    Loose(u32),

    /// The type has no option of this name.
    OptionUnknown(u32, Name),

    /// An option that the type wants isn't there.
    OptionMissing(u32, Name),

    /// An option's value is no such value.
    OptionValue(u32, Name),

    /// An earlier writer names the same file.
    SameOutput(u32),

    /// No filter or tally of this name was handed in.
    PlugUnknown(u32, Name),

    /// A stage before it names the same one.
    PlugTaken(u32, Name),

    /// No dimension of the stage has this name.
    DimUnknown(u32, Name),

    /// The dimension has no number.
    DimNotNumeric(u32, Name),

    /// There are more than 8 extra dimensions.
    TooManyDims(u32),
}

/// Why there is no pipeline.
#[derive(Drop)]
pub enum PipeErr {
    /// It has a fault.
    Fault(PipeFault),

    /// There was no memory.
    Memory,
}

impl From<AllocError> for PipeErr {
    ghost from_gives = { λ _ e. e ≡ Memory };

    fn from(_: AllocError) -> Self {
        PipeErr::Memory
    }
}

impl From<PipeFault> for PipeErr {
    ghost from_gives = { λ fault e. e ≡ Fault fault };

    fn from(fault: PipeFault) -> Self {
        PipeErr::Fault(fault)
    }
}
