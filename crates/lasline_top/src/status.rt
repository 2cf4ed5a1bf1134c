//! How a command ends.

ghost use Rattle.std.specs.Prelude.{◌≡◌};

use file_devices::Op;
use run_report::{Fault, Place, Refusal};
use stage_names::PipeFault;

/// How a command ends.
#[derive(Drop)]
pub enum Status {
    /// It kept its outputs and printed its report.
    Ok,

    /// The words are no command. The number is the place of the first one that is wrong or missing, from 0 on.
    Usage(usize),

    /// The pipeline has a fault.
    Pipeline(PipeFault),

    /// The data of the stage with this number have a fault.
    Data(u32, Fault),

    /// A device failed, or a file that is to be read isn't there.
    Device(Place, Op),

    /// There was no memory.
    Memory,
}

impl Status {
    ghost use Rattle.lasline_top.specs.Codes.{code_of};
    ghost use Rattle.lasline_top.specs.Refusals.{status_for};

    /// The status of a command that was refused.
    pub fn of(refusal: Refusal) -> Status
        ensures { result ≡ status_for refusal }
    {
        match refusal {
            Refusal::Usage(place) => Status::Usage(place),
            Refusal::Pipeline(fault) => Status::Pipeline(fault),
            Refusal::Data(stage, fault) => Status::Data(stage, fault),
            Refusal::Device(place, op) => Status::Device(place, op),
            Refusal::Memory => Status::Memory,
        }
    }

    /// The exit code of the program.
    pub fn code(&self) -> u8
        ensures { result ≡ code_of self.now }
    {
        match self {
            Status::Ok => 0,
            Status::Usage(_) => 1,
            Status::Pipeline(_) => 2,
            Status::Data(_, _) => 3,
            Status::Device(_, _) => 4,
            Status::Memory => 5,
        }
    }
}
