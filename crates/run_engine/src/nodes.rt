//! Works as the nodes of a net, and back.

ghost use Rattle.std.specs.Prelude.{◌≡◌, ◌≤◌, ◌<◌, [], ℕ, map, length, slice_get, vec_capacity, Some};
ghost use Rattle.network_core.specs.declared.node.Node as node_type;
ghost use Rattle.network_core.specs.Shown.{shown, work_of};
ghost use Rattle.pipeline_json.specs.Trees.{IsTree};
ghost use Rattle.stage_options.specs.Shapes.{shapes};
ghost use Rattle.stage_kinds.specs.declared.stage_work.StageWork as work_type;
ghost use Rattle.answer_model.specs.Values.{stage_at};
ghost use Rattle.stage_runs.specs.Works.{as_works, AreNewStages};
ghost use Rattle.stage_forms.specs.Starts.{AreAtStart};

use cloud_points::Work;
use file_devices::{FileSink, Source};
use network_core::Node;
use plug_stages::{PlugFilter, PlugTally};
use stage_kinds::StageWork;
use stage_options::StageSpec;

/// How many stages a stage of a tree takes.
fn inputs_of(stages: &[StageSpec], number: usize) -> u32
    requires tree { IsTree (shapes stages.now) }
    requires inside { number < length stages.now }
    ensures { result ≡ length ((stage_at stages.now number).ins) }
{
    let ins = stages[number].ins.as_slice();
    ins.len() as u32
}

/// New nodes for the works of a tree's stages, each with as many inputs as its stage takes; leaves make at most `chunk` points
/// at once. There is room for them.
pub(crate) fn nodes_over<S: Source, K: FileSink, P: PlugFilter, Q: PlugTally>(
    works: Vec<StageWork<S, K, P, Q>>,
    stages: &[StageSpec],
    chunk: usize,
    room: Vec<Node<StageWork<S, K, P, Q>>>,
) -> Vec<Node<StageWork<S, K, P, Q>>>
    requires tree { IsTree (shapes stages.now) }
    requires few { length stages.now ≤ 64 }
    requires starts { AreAtStart K.bytes stages.now works.items }
    requires count { length works.items ≡ length stages.now }
    requires empty { room.items ≡ [] }
    requires room { length stages.now ≤ vec_capacity room }
    requires some { 0 < chunk }
    requires most { chunk ≤ 64 }
    ensures new { AreNewStages S.Source K.Sink P.PlugFilter Q.PlugTally stages.now result.items }
    ensures works { map work_of result.items ≡ works.items }
    ensures chunk { (i : ℕ) (n : node_type.Node (work_type.StageWork S K P Q))
        → slice_get result.items i ≡ Some n
        → (shown (as_works S.Source K.Sink P.PlugFilter Q.PlugTally) [] n).chunk ≡ chunk }
{
    let mut works = works;
    works.reverse();
    let mut nodes = room;
    let mut at = 0;
    while let Some(work) = works.pop() {
        nodes.push_reserved(Node::new(work, inputs_of(stages, at), chunk));
        at += 1;
    }
    works.destroy_empty();
    nodes
}

/// The works of nodes, in their order. There is room for them.
pub(crate) fn works_in<W: Work>(nodes: Vec<Node<W>>, room: Vec<W>) -> Vec<W>
    requires empty { room.items ≡ [] }
    requires room { length nodes.items ≤ vec_capacity room }
    ensures { result.items ≡ map work_of nodes.items }
{
    let mut nodes = nodes;
    nodes.reverse();
    let mut works = room;
    while let Some(node) = nodes.pop() {
        works.push_reserved(node.into_work());
    }
    nodes.destroy_empty();
    works
}
