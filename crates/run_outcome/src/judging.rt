//! Which fault of its stages is that of a run.

ghost use Rattle.std.specs.Prelude.{◌≡◌, ◌<◌, ◌≤◌, length, Some, None, IfErr, OnOk};
ghost use Rattle.run_outcome.specs.Outcomes.{device_op, point_fault, first_failed, first_faulty, refusal_for};

use cloud_points::{PointFault, StageFault};
use file_devices::Op;
use run_report::{Fault, Place, Refusal};

/// The operation in which a device failed.
fn device_op(fault: Option<StageFault>) -> Option<Op>
    ensures { result ≡ device_op fault }
{
    match fault {
        Some(StageFault::Device(op)) => Some(op),
        _ => None,
    }
}

/// The first stage whose device failed, and in what.
fn first_failed(faults: &[Option<StageFault>]) -> Option<(u32, Op)>
    requires few { length faults.now ≤ 64 }
    ensures { result ≡ first_failed faults.now }
{
    for i in 0..faults.len() {
        let fault = faults[i];
        if let Some(op) = device_op(fault) {
            return Some((i as u32, op));
        }
    }
    None
}

/// The fault of a point.
fn point_fault(fault: Option<StageFault>) -> Option<PointFault>
    ensures { result ≡ point_fault fault }
{
    match fault {
        Some(StageFault::Point(fault)) => Some(fault),
        _ => None,
    }
}

/// The first stage of which a point has a fault, and that fault.
fn first_faulty(faults: &[Option<StageFault>]) -> Option<(u32, PointFault)>
    requires few { length faults.now ≤ 64 }
    ensures { result ≡ first_faulty faults.now }
{
    for i in 0..faults.len() {
        let fault = faults[i];
        if let Some(reason) = point_fault(fault) {
            return Some((i as u32, reason));
        }
    }
    None
}

/// What a run comes to whose stages have these faults, in their order. It is refused exactly where a stage has one: for the device
/// of the first stage whose device failed, and where none did, for the fault of the first stage of which a point has one.
pub fn outcome(faults: &[Option<StageFault>]) -> Result<(), Refusal>
    requires few { length faults.now ≤ 64 }
    ensures ok { OnOk result (refusal_for faults.now ≡ None) }
    ensures err { IfErr result (λ refusal. refusal_for faults.now ≡ Some refusal) }
{
    if let Some((stage, op)) = first_failed(faults) {
        return Err(Refusal::Device(Place::Stage(stage), op));
    }
    if let Some((stage, fault)) = first_faulty(faults) {
        return Err(Refusal::Data(stage, Fault::Point(fault)));
    }
    Ok(())
}
