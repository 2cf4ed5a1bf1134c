//! Trees of nodes that are run to their end, or up to a fault.

ghost use Rattle.std.specs.Prelude.{◌≡◌, ◌<◌, ◌+◌, ◌-◌, ◌^◌, length};
ghost use Rattle.network_theory.specs.Forest.{IsForest};
ghost use Rattle.network_core.specs.Nets.{ins_of, nodes_of, capacity_of, IsNewNet};
ghost use Rattle.network_core.specs.declared.stop.Stop.TheVariants.{First};
ghost use Rattle.network_solo.specs.Ahead.{IsReadAhead};
ghost use Rattle.network_solo.specs.Runs.{IsRanOver};
ghost use Rattle.network_solo.specs.Stopping.{CameToEnd, IsStoppedTree};
ghost use Rattle.network_solo.specs.Trees.{AreFresh, IsRanTree};

use crate::solo::Solo;
use cloud_points::Work;
use network_core::{InsList, Net, NodeList, Queues, Steps, Stop};
use std::marker::Brand;
use std::sync::ledger::{Blank, Ledger};

/// A new net that was run to its end, or as `stop` says up to a fault.
fn ran<W: Work, L: Ledger>(net: Net<W>, stop: Stop, blank: Blank) -> Net<W>
    requires new { IsNewNet W.Work net }
    requires name { blank.name ≡ L.name }
    requires parts { blank.parts ≡ L.parts }
    requires some { 0 < blank.parts }
    ensures ran { CameToEnd W.Work stop (nodes_of result)
        → IsRanTree W.Work (ins_of net) (nodes_of net) (nodes_of result) }
    ensures over { CameToEnd W.Work stop (nodes_of result)
        → IsRanOver W.Work (ins_of net) (capacity_of net) (nodes_of net) (nodes_of result) }
    ensures stopped { stop ≡ First → IsStoppedTree W.Work (ins_of net) (nodes_of net) (nodes_of result) }
    ensures ahead { stop ≡ First
        → IsReadAhead W.Work (ins_of net) (capacity_of net) (nodes_of net) (nodes_of result) }
{
    let mut steps = Steps::<L>::new(blank);
    let mut solo = Solo::new(net);
    match stop {
        Stop::Last => {
            solo.run(&mut steps);
            solo.into_net()
        }
        Stop::First => {
            solo.run_first(&mut steps);
            solo.into_net()
        }
    }
}

/// Lets new nodes take turns until all are done, or as `stop` says one has a fault, over these queues, one for each node but the root,
/// and hands the nodes back. `ins` has the numbers of each node's children in the order of its inputs, and the last
/// node is the root. It takes no memory.
pub fn run_tree<W: Work>(
    nodes: NodeList<W>,
    ins: InsList,
    queues: Queues,
    stop: Stop,
) -> NodeList<W>
    requires some { 0 < length nodes }
    requires most { length nodes < 2 ^ 32 }
    requires fresh { AreFresh W.Work ins nodes }
    requires forest { IsForest ins (length nodes - 1) }
    requires queues { length queues.edges.items + 1 ≡ length nodes }
    ensures ran { CameToEnd W.Work stop result → IsRanTree W.Work ins nodes result }
    ensures over { CameToEnd W.Work stop result → IsRanOver W.Work ins queues.capacity nodes result }
    ensures stopped { stop ≡ First → IsStoppedTree W.Work ins nodes result }
    ensures ahead { stop ≡ First → IsReadAhead W.Work ins queues.capacity nodes result }
{
    let net = Net::over(nodes, ins, queues);
    ran::<W, Brand>(net, stop, Blank::new(1)).into_nodes()
}
