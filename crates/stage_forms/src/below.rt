//! What stands below a stage.

ghost use Rattle.std.specs.Prelude.{◌≡◌, ◌<◌, ◌≤◌, All, IfOk, length};
ghost use Rattle.pipeline_json.specs.Trees.{IsTree};
ghost use Rattle.stage_options.specs.Shapes.{shapes};
ghost use Rattle.stage_forms.specs.Below.{AreReaders, AreBelow, AreInside, StandsBelow};
ghost use Rattle.stage_forms.specs.Joined.{IsOwn, IsJoined, IsFound};

use cloud_points::Layout;
use file_devices::Source;
use las_header::Format;
use las_reader::LasReader;
use point_formats::dims;
use stage_options::StageSpec;
use std::alloc::{AllocError, Global};

/// What stands below a stage, or behind it.
#[derive(Drop)]
pub struct Below {
    /// The numbers of the readers from which its points come, in the order in which they come.
    pub readers: Vec<u32>,

    /// The dimensions of the points that it takes; behind it, of those that it gives on.
    pub layout: Layout,
}

/// What stands below a reader with this number, whose file has records of this format: itself.
fn below_reader(alloc: Global, number: u32, format: Format) -> Result<Below, AllocError>
    ensures { IfOk result (IsOwn number format) }
{
    let mut readers = Vec::new(alloc);
    readers.push(number)?;
    Ok(Below {
        readers,
        layout: dims(format),
    })
}

/// What stands below a stage that takes these earlier ones: what stands below each of them, in their order.
fn below_inputs(alloc: Global, inputs: &[u32], belows: &[Below]) -> Result<Below, AllocError>
    requires { All (λ j. j < length belows.now) inputs.now }
    ensures { IfOk result (IsJoined belows.now inputs.now) }
{
    let mut readers = Vec::new(alloc);
    let mut layout = Layout::none();
    for j in inputs {
        let below = &belows[*j as usize];
        readers.extend_from_slice(below.readers.as_slice())?;
        layout.join(&below.layout);
    }
    Ok(Below { readers, layout })
}

/// What stands below the stage with this number, whose reader is this one where it has one, and which takes these earlier
/// ones where it has none.
fn find_below<S: Source>(
    alloc: Global,
    number: u32,
    reader: &Option<LasReader<S>>,
    inputs: &[u32],
    belows: &[Below],
) -> Result<Below, AllocError>
    requires { All (λ j. j < length belows.now) inputs.now }
    ensures { IfOk result (IsFound reader.now number belows.now inputs.now) }
{
    match reader {
        Some(reader) => below_reader(alloc, number, reader.header().format),
        None => below_inputs(alloc, inputs, belows),
    }
}

/// What stands below the next stage of a tree, at whose numbers these readers stand, where this stands behind the stages before
/// it. Refused only where memory is wanting.
pub fn next_below<S: Source>(
    alloc: Global,
    stages: &[StageSpec],
    readers: &[Option<LasReader<S>>],
    belows: &[Below],
) -> Result<Below, AllocError>
    requires tree { IsTree (shapes stages.now) }
    requires few { length stages.now ≤ 64 }
    requires count { length readers.now ≡ length stages.now }
    requires fit { AreReaders stages.now readers.now }
    requires next { length belows.now < length stages.now }
    requires behind { AreBelow stages.now readers.now belows.now }
    requires inside { AreInside (length readers.now) belows.now }
    ensures below { IfOk result (StandsBelow stages.now readers.now (length belows.now)) }
    ensures inside { IfOk result (λ b. All (λ j. j < length readers.now) b.readers.items) }
{
    let number = belows.len();
    let inputs = stages[number].ins.as_slice();
    find_below(alloc, number as u32, &readers[number], inputs, belows)
}
