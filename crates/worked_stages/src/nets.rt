//! Trees of nodes that are run to their end, or up to a fault.

ghost use Rattle.std.specs.Prelude.{◌≡◌, false};

use cloud_points::{Make, Point, Spread, StageFault, Work};
use file_devices::Op;
use network_core::{InsList, Node, NodeList, Queues, Stop};
use network_solo::run_tree;
use std::alloc::{AllocError, Global};

/// A leaf gives so many points and one view; any other counts what goes through, and behind so many good points its
/// device fails.
#[derive(Drop)]
struct Toy {
    leaf: bool,
    left: u64,
    viewed: bool,
    seen: u64,
    good: u64,
    failed: u64,
}

impl Work for Toy {
    ghost use Rattle.std.specs.Prelude.{◌≡◌, Bool, true, false, None, Some, cond, refl, [], ◌++◌};
    ghost use Rattle.file_devices.specs.declared.devices.Op.TheVariants.{Write};
    ghost use Rattle.worked_stages.specs.ToyMeaning.{passing, passing_keeps};

    type State = ();

    ghost state = { λ _. tt };

    ghost meaning = { λ _. passing };

    ghost leaf = { λ w. w.leaf };

    ghost short = { λ _. false };

    ghost faults = { λ w. w.failed };

    ghost op = { λ _. Some Write };

    ghost tells = { λ _. false };

    ghost told = { λ _. [] };

    ghost told_fault = { λ _. None };

    ghost points_left = { λ w. w.left };

    ghost views_left = { λ w. cond w.viewed 0 1 };

    ghost extent = { λ _. None };

    ghost ahead = { λ _. 0 };

    ghost holds = { λ _ _. true };

    ghost cutting = { λ _. passing_keeps };

    fn is_leaf(&self) -> bool {
        self.leaf
    }

    fn make(&mut self, _chunk: usize, into: &mut Spread) -> Make {
        into.clear();
        if self.left > 0 {
            self.left -= 1;
            into.push(Point::zero());
            return Make::Points;
        }
        if self.viewed {
            return Make::End(false, None);
        }
        self.viewed = true;
        Make::EndView
    }

    fn on_chunk(&mut self, points: &mut Spread) -> Option<StageFault> {
        self.seen = self.seen.saturating_add(points.len() as u64);
        if self.seen > self.good {
            self.failed = self.failed.saturating_add(1);
            points.clear();
            return Some(StageFault::Device(Op::Write));
        }
        None
    }

    fn on_end_view(&mut self) -> bool {
        true
    }

    fn on_end(&mut self, _cut: bool) -> bool {
        false
    }
}

fn make_toy(leaf: bool, left: u64) -> Toy
    ensures { result.leaf ≡ leaf }
{
    Toy {
        leaf,
        left,
        viewed: false,
        seen: 0,
        good: u64::MAX,
        failed: 0,
    }
}

/// A toy whose device fails behind so many points.
fn make_failing(good: u64) -> Toy
    ensures { result.leaf ≡ false }
{
    Toy {
        good,
        ..make_toy(false, 0)
    }
}

/// What a node came to: whether it is done, the points and views that it counted, and its fault.
fn came(nodes: &mut Vec<Node<Toy>>) -> Option<(bool, u64, u64, Option<StageFault>)> {
    let node = nodes.pop()?;
    Some((node.done(), node.points(), node.views(), node.fault()))
}

pub(crate) fn two_leaves_are_read_one_after_the_other(alloc: Global) -> Result<bool, AllocError> {
    let nodes = vec![in alloc;
        Node::new(make_toy(true, 7), 0, 64),
        Node::new(make_toy(true, 2), 0, 64),
        Node::new(make_toy(false, 0), 2, 64),
    ]?;
    let ins = vec![in alloc; Vec::new(alloc), Vec::new(alloc), vec![in alloc; 0u32, 1]?]?;
    let queues = Queues::new(alloc, 2, 1)?;
    let mut nodes = run_tree(
        NodeList::new(nodes),
        InsList::new(ins),
        queues,
        Stop::Last,
    ).into_vec();
    let mut right = true;
    for &(points, views) in &[(9, 2), (2, 1), (7, 1)] {
        right &= came(&mut nodes) == Some((true, points, views, None));
    }
    Ok(right & nodes.is_empty())
}

pub(crate) fn a_leaf_is_not_read_on_behind_a_fault(alloc: Global) -> Result<bool, AllocError> {
    let nodes = vec![in alloc;
        Node::new(make_toy(true, 100), 0, 1),
        Node::new(make_failing(5), 1, 64),
        Node::new(make_toy(false, 0), 1, 64),
    ]?;
    let ins = vec![in alloc;
        Vec::new(alloc),
        vec![in alloc; 0u32]?,
        vec![in alloc; 1u32]?,
    ]?;
    let queues = Queues::new(alloc, 2, 1)?;
    let mut nodes = run_tree(
        NodeList::new(nodes),
        InsList::new(ins),
        queues,
        Stop::First,
    ).into_vec();
    nodes.pop();
    let fault = Some(StageFault::Device(Op::Write));
    let right = came(&mut nodes) == Some((false, 5, 0, fault));
    match came(&mut nodes) {
        Some(leaf) => Ok(right & (leaf.1 < 10)),
        None => Ok(false),
    }
}
