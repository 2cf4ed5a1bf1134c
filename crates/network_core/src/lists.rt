//! Lists that a net is made of.

use crate::node::Node;
use std::marker::Model;

/// The nodes of a net, in the order of their numbers. A clause sees the list of them.
#[derive(Drop)]
pub struct NodeList<W> {
    pub(crate) nodes: Vec<Node<W>>,
}

impl<W> Model for NodeList<W> {
    ghost use Rattle.std.specs.Prelude.{List};
    ghost use Rattle.network_core.specs.declared.node.Node.{Node};

    ghost Value = { List (Node W) };

    ghost view = { λ l. l.nodes.items };
}

impl<W> NodeList<W> {
    ghost use Rattle.std.specs.Prelude.{◌≡◌};

    /// The list of these nodes.
    pub fn new(nodes: Vec<Node<W>>) -> NodeList<W>
        ensures { result ≡ nodes.items }
    {
        NodeList { nodes }
    }

    /// The nodes.
    pub fn into_vec(self) -> Vec<Node<W>>
        ensures { result.items ≡ self }
    {
        let NodeList { nodes } = self;
        nodes
    }
}

/// For each node of a net the numbers of its children, in the order of its inputs. A clause sees the list of
/// the lists.
#[derive(Drop)]
pub struct InsList {
    pub(crate) lists: Vec<Vec<u32>>,
}

impl Model for InsList {
    ghost use Rattle.std.specs.Prelude.{ℕ, List, map};

    ghost Value = { List (List ℕ) };

    ghost view = { λ l. map (λ v. v.items) l.lists.items };
}

impl InsList {
    ghost use Rattle.std.specs.Prelude.{◌≡◌, ◌<◌, length, map, slice_index_or};
    ghost use Rattle.network_theory.specs.Forest.{children};

    /// The list of these lists.
    pub fn new(lists: Vec<Vec<u32>>) -> InsList
        ensures { result ≡ map (λ v. v.items) lists.items }
    {
        InsList { lists }
    }

    /// The children of a node, in the order of its inputs.
    pub fn children(&self, node: usize) -> &[u32]
        requires { node < length self.now }
        ensures { result.now ≡ children self.now node }
    {
        self.lists[node].as_slice()
    }

    /// The child of a node at an input.
    pub(crate) fn child(&self, node: usize, input: u32) -> u32
        requires node { node < length self.now }
        requires input { input < length (children self.now node) }
        ensures { result ≡ slice_index_or (children self.now node) input 0 }
    {
        let list = &self.lists[node];
        list[input as usize]
    }
}
