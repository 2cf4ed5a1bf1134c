//! Why a command ends without its outputs.

use cloud_points::PointFault;
use file_devices::Op;
use las_header::HeaderFault;
use las_vlr::VlrFault;
use stage_names::PipeFault;

/// Where a device stands.
#[derive(Clone, Copy, Debug, PartialEq, Eq)]
pub enum Place {
    /// The file of the pipeline.
    PipelineFile,

    /// The stage with this number.
    Stage(u32),

    /// The file that is made of generated points.
    Generated,

    /// The output of the program.
    Out,
}

/// A fault in the data of a stage.
#[derive(Clone, Copy, Debug, PartialEq, Eq)]
pub enum Fault {
    /// In the header block of its file.
    Header(HeaderFault),

    /// In the variable length records of its file.
    Vlr(VlrFault),

    /// At a point.
    Point(PointFault),
}

/// Why a command ends without its outputs.
#[derive(Drop)]
pub enum Refusal {
    /// The words are no command. The number is the place of the first one that is wrong or missing, from 0 on.
    Usage(usize),

    /// The pipeline has a fault.
    Pipeline(PipeFault),

    /// The data of the stage with this number have a fault.
    Data(u32, Fault),

    /// A device failed, or a file that is to be read isn't there.
    Device(Place, Op),

    /// There was no memory.
    Memory,
}
