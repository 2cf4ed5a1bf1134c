//! The memory in which the stages of a run take turns.

ghost use Rattle.std.specs.Prelude.{IfOk};
ghost use Rattle.pipeline_json.specs.Trees.{IsTree};
ghost use Rattle.stage_options.specs.Shapes.{shapes};
ghost use Rattle.run_engine.specs.Jobs.{IsTurnRoom};

use crate::shape::Shape;
use file_devices::{FileSink, Source};
use network_core::Node;
use network_solo::Scheduler;
use plug_stages::{PlugFilter, PlugTally};
use stage_kinds::StageWork;
use stage_options::StageSpec;
use stage_runs::StageRoom;
use std::alloc::{AllocError, Global};

/// The memory in which the stages of a run take turns, in pieces of this shape.
pub(crate) struct TurnRoom<S, K: FileSink, P: PlugFilter, Q: PlugTally, E> {
    pub(crate) shape: Shape,

    /// Room for the nodes of the stages, and for the works that they leave.
    pub(crate) nodes: Vec<Node<StageWork<S, K, P, Q>>>,
    pub(crate) works: Vec<StageWork<S, K, P, Q>>,

    /// The memory of the nets that the nodes form.
    pub(crate) stages: StageRoom<S, K, P, Q, E>,
}

impl<S: Source, K: FileSink, P: PlugFilter, Q: PlugTally, E> TurnRoom<S, K, P, Q, E> {
    /// The memory for the turns of these stages. Refuses where memory is wanting.
    pub(crate) fn new<T: Scheduler<StageWork<S, K, P, Q>, Edges = E>>(
        alloc: Global,
        scheduler: &T,
        stages: &[StageSpec],
        shape: Shape,
    ) -> Result<TurnRoom<S, K, P, Q, E>, AllocError>
        requires tree { IsTree (shapes stages.now) }
        ensures { IfOk result (IsTurnRoom S.Source K.Sink P.PlugFilter Q.PlugTally T.fits shape stages.now) }
    {
        let nodes = Vec::with_capacity(alloc, stages.len())?;
        let Ok(works) = Vec::with_capacity(alloc, stages.len()) else {
            nodes.destroy_empty();
            return Err(AllocError);
        };
        match StageRoom::new(alloc, scheduler, stages, shape.chunk(), shape.queue()) {
            Ok(room) => Ok(TurnRoom {
                shape,
                nodes,
                works,
                stages: room,
            }),
            Err(error) => {
                nodes.destroy_empty();
                works.destroy_empty();
                Err(error)
            }
        }
    }
}
