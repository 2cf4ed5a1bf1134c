//! The parts of a tree of stages take turns, each as a net of its own.

ghost use Rattle.std.specs.Prelude.{◌≡◌, ◌-◌, ◌<◌, ◌≤◌, ◌↔◌, true, length, slice_get, Some, Err, OnOk};
ghost use Rattle.network_core.specs.declared.node.Node as node_type;
ghost use Rattle.network_core.specs.declared.stop.Stop.TheVariants.{First};
ghost use Rattle.network_theory.specs.Forest.{IsForest};
ghost use Rattle.stage_runs.specs.Parts.{AreFreshBefore, AreSameOrLater, AreSoundOwn, CollectsAt, HasWaitingRoot};
ghost use Rattle.stage_runs.specs.Parts.{is_own, IsExchanged, IsGatheredAt, IsLeafRun, IsLeafStopped, IsNewLeafAt};
ghost use Rattle.stage_runs.specs.Parts.{IsPartRun, IsPartStopped, IsRenewed};
ghost use Rattle.stage_runs.specs.Rooms.{IsRoom, part_of};
ghost use Rattle.stage_runs.specs.Short.{RanShort};

use crate::halt::Halt;
use crate::nets::{Alone, RanNet, let_go, run_alone, run_net, stand_in};
use crate::plan::Plan;
use crate::rooms::PartRoom;
use crate::sizes::Sizes;
use cloud_points::Work;
use file_devices::{FileSink, Source};
use network_core::Node;
use network_solo::Scheduler;
use plug_stages::{PlugFilter, PlugTally};
use stage_kinds::StageWork;
use std::alloc::{AllocError, Global};
use std::mem;

/// Exchanges the nodes of a part for those that stand at their places in its net, whose last one is the root.
fn exchange<T>(nodes: &mut [T], net: &mut [T], homes: &[u32], home: u32)
    requires net { length net.old ≤ length nodes.old }
    requires homes { length homes.now ≡ length nodes.old }
    ensures { IsExchanged (is_own homes.now home (length net.old - 1)) (length net.old)
        nodes.old net.old nodes.new net.new }
{
    let count = net.len();
    for k in 0..count {
        if k + 1 == count || homes[k] == home {
            mem::swap(&mut nodes[k], &mut net[k]);
        }
    }
}

/// Lends the nodes of a part to its net, or takes them back.
fn lend<T>(nodes: &mut [T], net: &mut Vec<T>, homes: &[u32], home: u32)
    requires net { length net.old.items ≤ length nodes.old }
    requires homes { length homes.now ≡ length nodes.old }
    ensures { IsExchanged (is_own homes.now home (length net.old.items - 1)) (length net.old.items)
        nodes.old net.old.items nodes.new net.new.items }
{
    exchange(nodes, net.as_mut_slice(), homes, home);
}

/// Makes the root of a net new over its work, with so many inputs.
fn renew_root<W: Work>(net: &mut Vec<Node<W>>, inputs: u32, chunk: usize)
    requires leaf { (n : node_type.Node W) → slice_get net.old.items (length net.old.items - 1) ≡ Some n
        → (W.leaf n.work ≡ true) ↔ (inputs ≡ 0) }
    requires some { 0 < chunk }
    requires most { chunk ≤ 64 }
    ensures renewed { IsRenewed W.Work inputs net.old.items net.new.items }
    ensures cut { (n : node_type.Node W) → slice_get net.new.items (length net.old.items - 1) ≡ Some n
        → n.chunk ≡ chunk }
{
    if let Some(root) = net.pop() {
        net.push_reserved(Node::new(root.into_work(), inputs, chunk));
    }
}

/// Lets the nodes of the part of a home take turns until all are done, in its memory. Each node stays at its place. Refuses only where
/// memory is wanting at a node that takes whole views, or as the scheduler has it one has a fault.
pub(crate) fn run_part<
    S: Source,
    K: FileSink,
    P: PlugFilter,
    Q: PlugTally,
    T: Scheduler<StageWork<S, K, P, Q>>,
>(
    scheduler: &T,
    nodes: &mut [Node<StageWork<S, K, P, Q>>],
    plan: &Plan,
    room: PartRoom<S, K, P, Q, T::Edges>,
    home: u32,
    root: usize,
    sizes: Sizes,
) -> Result<(), Halt>
    requires sound { T.sound scheduler.now }
    requires root { root < length nodes.old }
    requires few { length nodes.old ≤ 64 }
    requires homes { length plan.now.homes.items ≡ length nodes.old }
    requires room { IsRoom S.Source K.Sink P.PlugFilter Q.PlugTally T.fits
        (part_of plan.now home root) root sizes.queue room }
    requires forest { IsForest (part_of plan.now home root) root }
    requires fresh { AreFreshBefore S.Source K.Sink P.PlugFilter Q.PlugTally
        (part_of plan.now home root) plan.now.homes.items home root nodes.old }
    requires waits { HasWaitingRoot S.Source K.Sink P.PlugFilter Q.PlugTally
        (part_of plan.now home root) root nodes.old }
    ensures later { AreSameOrLater S.Source K.Sink P.PlugFilter Q.PlugTally nodes.old nodes.new }
    ensures run { OnOk result (IsPartRun S.Source K.Sink P.PlugFilter Q.PlugTally (T.besides sizes.queue)
        (part_of plan.now home root) plan.now.homes.items home root nodes.old nodes.new) }
    ensures short { result ≡ Err Halt.Memory → RanShort nodes.old nodes.new }
    ensures stopped { result ≡ Err Halt.Fault → IsPartStopped S.Source K.Sink P.PlugFilter Q.PlugTally
        (T.bounded scheduler.now) sizes.queue sizes.chunk (part_of plan.now home root) plan.now.homes.items home root nodes.old nodes.new }
    ensures stops { result ≡ Err Halt.Fault → T.stop scheduler.now ≡ First }
    ensures sound { OnOk result (T.stop scheduler.now ≡ First
        → AreSoundOwn plan.now.homes.items home root nodes.new) }
{
    let PartRoom {
        ins,
        mut net,
        edges,
    } = room;
    let homes = plan.homes.as_slice();
    lend(nodes, &mut net, homes, home);
    renew_root(&mut net, ins.children(root).len() as u32, sizes.chunk);
    let RanNet {
        nodes: mut net,
        ended,
    } = run_net(scheduler, net, ins, edges);
    lend(nodes, &mut net, homes, home);
    let_go(net);
    ended
}

/// Lets a leaf give all that it has, to no one. Refuses only where memory is wanting, or as the scheduler has it the leaf has a fault.
pub(crate) fn run_leaf<
    S: Source,
    K: FileSink,
    P: PlugFilter,
    Q: PlugTally,
    T: Scheduler<StageWork<S, K, P, Q>>,
>(
    alloc: Global,
    scheduler: &T,
    nodes: &mut [Node<StageWork<S, K, P, Q>>],
    at: usize,
    sizes: Sizes,
) -> Result<(), Halt>
    requires sound { T.sound scheduler.now }
    requires inside { at < length nodes.old }
    requires leaf { IsNewLeafAt S.Source K.Sink P.PlugFilter Q.PlugTally at nodes.old }
    ensures later { AreSameOrLater S.Source K.Sink P.PlugFilter Q.PlugTally nodes.old nodes.new }
    ensures run { OnOk result
        (IsLeafRun S.Source K.Sink P.PlugFilter Q.PlugTally (T.besides sizes.queue) at nodes.old nodes.new) }
    ensures stopped { result ≡ Err Halt.Fault
        → IsLeafStopped S.Source K.Sink P.PlugFilter Q.PlugTally (T.bounded scheduler.now) sizes.queue at
        nodes.old nodes.new }
    ensures stops { result ≡ Err Halt.Fault → T.stop scheduler.now ≡ First }
{
    let empty = stand_in(alloc, sizes.chunk);
    let node = mem::replace(&mut nodes[at], empty);
    let Alone { node, ended } = run_alone(alloc, scheduler, node, sizes.queue);
    mem::replace(&mut nodes[at], node).into_work().let_go();
    ended
}

/// Has the stage at a place make of the views that it took what it is to make: it is a leaf then that gives that. Refuses where memory
/// is wanting.
pub(crate) fn gather_at<S: Source, K: FileSink, P: PlugFilter, Q: PlugTally>(
    alloc: Global,
    nodes: &mut [Node<StageWork<S, K, P, Q>>],
    at: usize,
    sizes: Sizes,
) -> Result<(), AllocError>
    requires inside { at < length nodes.old }
    requires collects { CollectsAt S.Source K.Sink P.PlugFilter Q.PlugTally at nodes.old }
    ensures later { AreSameOrLater S.Source K.Sink P.PlugFilter Q.PlugTally nodes.old nodes.new }
    ensures gathered { OnOk result
        (IsGatheredAt S.Source K.Sink P.PlugFilter Q.PlugTally at nodes.old nodes.new) }
{
    let empty = stand_in(alloc, sizes.chunk);
    let work = mem::replace(&mut nodes[at], empty).into_work();
    let made = Node::new(work.gather(alloc)?, 0, sizes.chunk);
    mem::replace(&mut nodes[at], made).into_work().let_go();
    Ok(())
}
