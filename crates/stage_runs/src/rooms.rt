//! The memory in which the stages of a tree take turns.

ghost use Rattle.std.specs.Prelude.{◌≡◌, ◌-◌, ◌<◌, ◌≤◌, ℕ, List, length, IfOk};
ghost use Rattle.pipeline_json.specs.Trees.{IsTree};
ghost use Rattle.stage_options.specs.Shapes.{shapes};
ghost use Rattle.stage_parts.specs.Parts.{gathers_at};
ghost use Rattle.stage_runs.specs.Rooms.{IsRoom, IsLastRoom, IsStageRoom, own_of, part_of};

use crate::nets::{let_go, stand_ins};
use crate::plan::Plan;
use crate::sizes::Sizes;
use file_devices::{FileSink, Source};
use network_core::{InsList, Node};
use network_solo::Scheduler;
use plug_stages::{PlugFilter, PlugTally};
use stage_kinds::StageWork;
use stage_options::StageSpec;
use stage_parts::part_ins;
use std::alloc::{AllocError, Global};

/// The memory in which a part takes turns, with what lies between its nodes.
pub(crate) struct PartRoom<S, K: FileSink, P: PlugFilter, Q: PlugTally, E> {
    /// The children of its nodes.
    pub(crate) ins: InsList,

    /// Leaves that give nothing, in the places of its nodes.
    pub(crate) net: Vec<Node<StageWork<S, K, P, Q>>>,

    /// The queues between its nodes.
    pub(crate) edges: E,
}

/// Whether each node of a part's net is one of its own or its root; the others stand in for nodes of other parts.
fn own_of(alloc: Global, homes: &[u32], home: u32, root: usize) -> Result<Vec<bool>, AllocError>
    requires { root < length homes.now }
    ensures { IfOk result (λ own. own.items ≡ own_of homes.now home root) }
{
    let mut own = Vec::with_capacity(alloc, root + 1)?;
    for place in 0..root {
        own.push_reserved(homes[place] == home);
    }
    own.push_reserved(true);
    Ok(own)
}

impl<S: Source, K: FileSink, P: PlugFilter, Q: PlugTally, E> PartRoom<S, K, P, Q, E> {
    /// The memory of the part of a home with this root. Refuses where memory is wanting.
    pub(crate) fn new<T: Scheduler<StageWork<S, K, P, Q>, Edges = E>>(
        alloc: Global,
        scheduler: &T,
        plan: &Plan,
        home: u32,
        root: usize,
        sizes: Sizes,
    ) -> Result<PartRoom<S, K, P, Q, E>, AllocError>
        requires root { root < length plan.now.gathers.items }
        requires few { length plan.now.gathers.items ≤ 64 }
        requires ins { length plan.now.ins ≡ length plan.now.gathers.items }
        requires homes { length plan.now.homes.items ≡ length plan.now.gathers.items }
        ensures { IfOk result (IsRoom S.Source K.Sink P.PlugFilter Q.PlugTally T.fits
            (part_of plan.now home root) root sizes.queue) }
    {
        let gathers = plan.gathers.as_slice();
        let homes = plan.homes.as_slice();
        let ins = part_ins(alloc, &plan.ins, gathers, homes, home, root as u32)?;
        let own = own_of(alloc, homes, home, root)?;
        let net = stand_ins(alloc, root + 1, sizes.chunk)?;
        match scheduler.edges(alloc, own.as_slice(), sizes.queue) {
            Ok(edges) => Ok(PartRoom { ins, net, edges }),
            Err(error) => {
                let_go(net);
                Err(error)
            }
        }
    }

    /// Gives it back.
    pub(crate) fn let_go<T: Scheduler<StageWork<S, K, P, Q>, Edges = E>>(self)
        requires { (part : List (List ℕ)) × (root : ℕ) × (queue : ℕ)
            × IsRoom S.Source K.Sink P.PlugFilter Q.PlugTally T.fits part root queue self }
    {
        let PartRoom {
            net,
            ins: _ins,
            edges,
        } = self;
        let_go(net);
        T::let_go(edges);
    }
}

/// The memory of the last part of a tree of so many stages, unless its root needs whole views. Refuses where memory is wanting.
fn last_room<
    S: Source,
    K: FileSink,
    P: PlugFilter,
    Q: PlugTally,
    T: Scheduler<StageWork<S, K, P, Q>>,
>(
    alloc: Global,
    scheduler: &T,
    plan: &Plan,
    count: usize,
    sizes: Sizes,
) -> Result<Option<PartRoom<S, K, P, Q, T::Edges>>, AllocError>
    requires some { 0 < count }
    requires few { count ≤ 64 }
    requires gathers { length plan.now.gathers.items ≡ count }
    requires ins { length plan.now.ins ≡ count }
    requires homes { length plan.now.homes.items ≡ count }
    ensures { IfOk result (IsLastRoom S.Source K.Sink P.PlugFilter Q.PlugTally T.fits
        (part_of plan.now count (count - 1)) (count - 1) sizes.queue
        (gathers_at plan.now.gathers.items (count - 1))) }
{
    let last = count - 1;
    if plan.gathers[last] {
        Ok(None)
    } else {
        let room = PartRoom::new(alloc, scheduler, plan, count as u32, last, sizes)?;
        Ok(Some(room))
    }
}

/// The memory in which the stages of a tree take turns. Where none of them needs whole views that is all that their turns take;
/// else it is that of the last stage and of what stands below it up to those that need whole views.
pub struct StageRoom<S, K: FileSink, P: PlugFilter, Q: PlugTally, E> {
    pub(crate) plan: Plan,
    pub(crate) sizes: Sizes,
    pub(crate) last: Option<PartRoom<S, K, P, Q, E>>,
}

impl<S: Source, K: FileSink, P: PlugFilter, Q: PlugTally, E> StageRoom<S, K, P, Q, E> {
    /// The memory of these stages, over queues of `queue` items; leaves make at most `chunk` points at once. Refuses where memory is
    /// wanting.
    pub fn new<T: Scheduler<StageWork<S, K, P, Q>, Edges = E>>(
        alloc: Global,
        scheduler: &T,
        stages: &[StageSpec],
        chunk: usize,
        queue: usize,
    ) -> Result<StageRoom<S, K, P, Q, E>, AllocError>
        requires tree { IsTree (shapes stages.now) }
        requires some { 0 < chunk }
        requires most { chunk ≤ 64 }
        requires room { 0 < queue }
        requires small { queue ≤ 64 }
        ensures room { IfOk result (IsStageRoom S.Source K.Sink P.PlugFilter Q.PlugTally T.fits stages.now) }
        ensures chunk { IfOk result (λ room. room.sizes.chunk ≡ chunk) }
        ensures queue { IfOk result (λ room. room.sizes.queue ≡ queue) }
    {
        let plan = Plan::new(alloc, stages)?;
        let sizes = Sizes { chunk, queue };
        let last = last_room(alloc, scheduler, &plan, stages.len(), sizes)?;
        Ok(StageRoom { plan, sizes, last })
    }
}
