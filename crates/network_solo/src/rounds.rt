//! Rounds of turns.

ghost use Rattle.std.specs.Prelude.{◌≡◌, ◌<◌, [], Some, length, slice_get};
ghost use Rattle.network_core.specs.Nets.{ins_of, nodes_of, IsNewNet};
ghost use Rattle.network_core.specs.Shown.{shown};
ghost use Rattle.network_core.specs.declared.node.Node.{Node as NodeValue};
ghost use Rattle.network_core.specs.declared.stop.Stop.TheVariants.{Last};
ghost use Rattle.network_solo.specs.Runs.{HadCounted, IsWithinDue, EndsInRest};
ghost use Rattle.network_solo.specs.Stopping.{stops_at, CameToEnd, IsOver, HadInTime, FaultsToCome};
ghost use Rattle.network_solo.specs.Trees.{IsRanTree};

use cloud_points::Work;
use network_core::{Net, Steps, Stop};
use std::sync::ledger::Ledger;

/// Whether turns end behind one of node `i`.
fn ends_behind<W: Work>(net: &Net<W>, i: u32, stop: Stop) -> bool
    requires { i < length (nodes_of net.now) }
    ensures { (x : NodeValue W) → slice_get (nodes_of net.now) i ≡ Some x
        → result ≡ stops_at stop (shown W.Work [] x).machine.fault }
{
    match stop {
        Stop::Last => false,
        Stop::First => net.node(i).fault().is_some(),
    }
}

/// Lets the nodes of a new net take turns, one after the other in the order of their numbers, until all are
/// done, or as `stop` says one has a fault.
pub(crate) fn take_rounds<W: Work, L: Ledger>(net: &mut Net<W>, steps: &mut Steps<L>, stop: Stop)
    requires new { IsNewNet W.Work net.old }
    ensures over { IsOver W.Work stop net.new }
    ensures in_time { HadInTime W.Work stop net.old net.new }
    ensures counted { HadCounted W.Work net.old net.new steps.old steps.new }
    ensures bounded { IsWithinDue W.Work net.old steps.old steps.new }
    ensures faults { FaultsToCome W.Work net.old net.new }
    ensures ends { stop ≡ Last → EndsInRest W.Work net.old net.new }
    ensures ran { CameToEnd W.Work stop (nodes_of net.new)
        → IsRanTree W.Work (ins_of net.old) (nodes_of net.old) (nodes_of net.new) }
{
    let count = net.count();
    let mut working = true;
    'rounds: while working {
        working = false;
        'nodes: for i in 0..count {
            let worked = net.step(i).did_work();
            steps.count(worked);
            if ends_behind(net, i, stop) {
                return;
            }
            working |= worked;
        }
    }
}
