//! Nets of nodes that take turns until all are done, or one has a fault.

ghost use Rattle.std.specs.Prelude.{◌≡◌, [], ◌∷◌, ◌-◌, ◌<◌, ◌≤◌, ℕ, true, false, length, is_some, Err, None, IfOk, OnOk};
ghost use Rattle.cloud_points.specs.Flows.{empty_flow};
ghost use Rattle.network_theory.specs.Forest.{IsForest};
ghost use Rattle.network_core.specs.declared.stop.Stop.TheVariants.{First};
ghost use Rattle.network_solo.specs.Stopping.{CameToEnd, NoneFaulty, SomeFault};
ghost use Rattle.network_solo.specs.Trees.{AreFresh};
ghost use Rattle.stage_kinds.specs.Stages.{is_short};
ghost use Rattle.stage_runs.specs.Works.{as_works};
ghost use Rattle.stage_runs.specs.Parts.{AreLaterNodes, AreStandIns, Gives, HoldNothing, IsLaterNode, IsNewLeaf};
ghost use Rattle.stage_runs.specs.Parts.{Ran, Stopped};
ghost use Rattle.stage_runs.specs.Short.{NoneShort, RanShort, SomeShort};

use crate::halt::Halt;
use cloud_points::Layout;
use file_devices::{FileSink, Source};
use network_core::{InsList, Node, NodeList, Stop};
use network_solo::Scheduler;
use plug_stages::{PlugFilter, PlugTally};
use stage_kinds::StageWork;
use std::alloc::{AllocError, Global};
use view_works::HeldViews;
use whole_filters::Views;

/// A leaf without a device that gives nothing.
pub(crate) fn stand_in<S: Source, K: FileSink, P: PlugFilter, Q: PlugTally>(
    alloc: Global,
    chunk: usize,
) -> Node<StageWork<S, K, P, Q>>
    requires some { 0 < chunk }
    requires most { chunk ≤ 64 }
    ensures leaf { IsNewLeaf S.Source K.Sink P.PlugFilter Q.PlugTally result }
    ensures gives { Gives S.Source K.Sink P.PlugFilter Q.PlugTally empty_flow None result }
{
    let views = HeldViews::new(Views::none(alloc, &Layout::none()));
    Node::new(StageWork::Views(views), 0, chunk)
}

/// So many leaves that give nothing.
pub(crate) fn stand_ins<S: Source, K: FileSink, P: PlugFilter, Q: PlugTally>(
    alloc: Global,
    count: usize,
    chunk: usize,
) -> Result<Vec<Node<StageWork<S, K, P, Q>>>, AllocError>
    requires some { 0 < chunk }
    requires most { chunk ≤ 64 }
    ensures { IfOk result (λ nodes. AreStandIns S.Source K.Sink P.PlugFilter Q.PlugTally count nodes.items) }
{
    let mut nodes = Vec::with_capacity(alloc, count)?;
    for _place in 0..count {
        nodes.push_reserved(stand_in(alloc, chunk));
    }
    Ok(nodes)
}

/// Whether memory was wanting at one of these nodes.
fn any_short<S: Source, K: FileSink, P: PlugFilter, Q: PlugTally>(
    nodes: &[Node<StageWork<S, K, P, Q>>],
) -> bool
    ensures short { result ≡ true → SomeShort nodes.now }
    ensures enough { result ≡ false → NoneShort nodes.now }
{
    nodes.iter().any(
        |node|
            ensures { result ≡ is_short node.now.work }
        { node.work().is_short() },
    )
}

/// Whether one of these nodes has a fault.
pub fn any_fault<S: Source, K: FileSink, P: PlugFilter, Q: PlugTally>(
    nodes: &[Node<StageWork<S, K, P, Q>>],
) -> bool
    ensures some { result ≡ true → SomeFault (as_works S.Source K.Sink P.PlugFilter Q.PlugTally) nodes.now }
    ensures none { result ≡ false → NoneFaulty (as_works S.Source K.Sink P.PlugFilter Q.PlugTally) nodes.now }
{
    nodes.iter().any(
        |node|
            ensures { result ≡ is_some node.now.fault }
        { node.fault().is_some() },
    )
}

/// How turns of these nodes ended: want of memory goes before a fault.
fn how_ended<
    S: Source,
    K: FileSink,
    P: PlugFilter,
    Q: PlugTally,
    T: Scheduler<StageWork<S, K, P, Q>>,
>(scheduler: &T, nodes: &[Node<StageWork<S, K, P, Q>>]) -> Result<(), Halt>
    ensures done { OnOk result
        (CameToEnd (as_works S.Source K.Sink P.PlugFilter Q.PlugTally) (T.stop scheduler.now) nodes.now) }
    ensures enough { OnOk result (NoneShort nodes.now) }
    ensures short { result ≡ Err Halt.Memory → SomeShort nodes.now }
    ensures stops { result ≡ Err Halt.Fault → T.stop scheduler.now ≡ First }
    ensures fault { result ≡ Err Halt.Fault
        → SomeFault (as_works S.Source K.Sink P.PlugFilter Q.PlugTally) nodes.now }
    ensures enough_then { result ≡ Err Halt.Fault → NoneShort nodes.now }
{
    if any_short(nodes) {
        return Err(Halt::Memory);
    }
    match scheduler.stop() {
        Stop::Last => Ok(()),
        Stop::First => {
            if any_fault(nodes) {
                Err(Halt::Fault)
            } else {
                Ok(())
            }
        }
    }
}

/// The nodes of a net that took turns, and how these ended.
pub(crate) struct RanNet<S, K: FileSink, P: PlugFilter, Q: PlugTally> {
    pub(crate) nodes: Vec<Node<StageWork<S, K, P, Q>>>,
    pub(crate) ended: Result<(), Halt>,
}

/// Ends nodes that hold nothing.
pub(crate) fn let_go<S: Source, K: FileSink, P: PlugFilter, Q: PlugTally>(
    nodes: Vec<Node<StageWork<S, K, P, Q>>>,
)
    requires { HoldNothing S.Source K.Sink P.PlugFilter Q.PlugTally nodes.items }
{
    let mut nodes = nodes;
    while let Some(node) = nodes.pop() {
        node.into_work().let_go();
    }
    nodes.destroy_empty();
}

/// Lets the new nodes of a net take turns until all are done, or as the scheduler has it one has a fault, over these edges. The last one
/// is the root.
pub(crate) fn run_net<
    S: Source,
    K: FileSink,
    P: PlugFilter,
    Q: PlugTally,
    T: Scheduler<StageWork<S, K, P, Q>>,
>(
    scheduler: &T,
    nodes: Vec<Node<StageWork<S, K, P, Q>>>,
    ins: InsList,
    edges: T::Edges,
) -> RanNet<S, K, P, Q>
    requires sound { T.sound scheduler.now }
    requires some { 0 < length nodes.items }
    requires few { length nodes.items ≤ 64 }
    requires fresh { AreFresh (as_works S.Source K.Sink P.PlugFilter Q.PlugTally) ins nodes.items }
    requires forest { IsForest ins (length nodes.items - 1) }
    requires edges { (queue : ℕ) × T.fits (length nodes.items) queue edges }
    ensures later { AreLaterNodes S.Source K.Sink P.PlugFilter Q.PlugTally nodes.items result.nodes.items }
    ensures ran { OnOk result.ended ((queue : ℕ) → T.fits (length nodes.items) queue edges
        → Ran S.Source K.Sink P.PlugFilter Q.PlugTally (T.besides queue) ins nodes.items result.nodes.items) }
    ensures enough { OnOk result.ended (NoneShort result.nodes.items) }
    ensures short { result.ended ≡ Err Halt.Memory → RanShort nodes.items result.nodes.items }
    ensures stopped { result.ended ≡ Err Halt.Fault → (queue : ℕ) → T.fits (length nodes.items) queue edges
        → Stopped S.Source K.Sink P.PlugFilter Q.PlugTally (T.bounded scheduler.now) queue ins nodes.items
        result.nodes.items }
    ensures stops { result.ended ≡ Err Halt.Fault → T.stop scheduler.now ≡ First }
    ensures enough_then { result.ended ≡ Err Halt.Fault → NoneShort result.nodes.items }
    ensures sound { OnOk result.ended (CameToEnd (as_works S.Source K.Sink P.PlugFilter Q.PlugTally)
        (T.stop scheduler.now) result.nodes.items) }
{
    let nodes = scheduler.run(NodeList::new(nodes), ins, edges).into_vec();
    let ended = how_ended(scheduler, &nodes);
    RanNet { nodes, ended }
}

/// A node that took turns alone, and how these ended.
pub(crate) struct Alone<S, K: FileSink, P: PlugFilter, Q: PlugTally> {
    pub(crate) node: Node<StageWork<S, K, P, Q>>,
    pub(crate) ended: Result<(), Halt>,
}

/// Lets a leaf give all that it has, or as the scheduler has it up to its fault, to no one.
pub(crate) fn run_alone<
    S: Source,
    K: FileSink,
    P: PlugFilter,
    Q: PlugTally,
    T: Scheduler<StageWork<S, K, P, Q>>,
>(
    alloc: Global,
    scheduler: &T,
    node: Node<StageWork<S, K, P, Q>>,
    queue: usize,
) -> Alone<S, K, P, Q>
    requires sound { T.sound scheduler.now }
    requires leaf { IsNewLeaf S.Source K.Sink P.PlugFilter Q.PlugTally node }
    requires room { 0 < queue }
    requires small { queue ≤ 64 }
    ensures later { IsLaterNode S.Source K.Sink P.PlugFilter Q.PlugTally node result.node }
    ensures ran { OnOk result.ended (Ran S.Source K.Sink P.PlugFilter Q.PlugTally (T.besides queue)
        ([] ∷ []) (node ∷ []) (result.node ∷ [])) }
    ensures enough { OnOk result.ended (is_short result.node.work ≡ false) }
    ensures stopped { result.ended ≡ Err Halt.Fault
        → Stopped S.Source K.Sink P.PlugFilter Q.PlugTally (T.bounded scheduler.now) queue
        ([] ∷ []) (node ∷ []) (result.node ∷ []) }
    ensures stops { result.ended ≡ Err Halt.Fault → T.stop scheduler.now ≡ First }
    ensures enough_then { result.ended ≡ Err Halt.Fault → is_short result.node.work ≡ false }
{
    let ended = Err(Halt::Memory);
    let Ok(mut ins) = Vec::with_capacity(alloc, 1) else {
        return Alone { node, ended };
    };
    ins.push_reserved(Vec::new(alloc));
    let Ok(mut nodes) = Vec::with_capacity(alloc, 1) else {
        return Alone { node, ended };
    };
    let Ok(edges) = scheduler.edges(alloc, &[true], queue) else {
        nodes.destroy_empty();
        return Alone { node, ended };
    };
    nodes.push_reserved(node);
    let RanNet { mut nodes, ended } = run_net(scheduler, nodes, InsList::new(ins), edges);
    let Some(node) = nodes.pop() else {
        unreachable!()
    };
    nodes.destroy_empty();
    Alone { node, ended }
}
