//! The children of the nodes of a part.

ghost use Rattle.std.specs.Prelude.{◌≡◌, ◌<◌, ◌≤◌, ◌++◌, ◌&&◌, not, if◌then◌else◌, [], IfOk, length};
ghost use Rattle.network_theory.specs.Forest.{children};
ghost use Rattle.stage_parts.specs.Parts.{gathers_at, is_of, strangers, part_ins};

use network_core::InsList;
use std::alloc::{AllocError, Global};

/// The children of each of the nodes `0 ..= root` in the part of a home, whose root is `root`: the root has its own children
/// and then the nodes of other homes, which are leaves here, as those that gather are. `ins` has the children of each node in
/// the whole tree, and `gathers` says which nodes gather. Refuses where memory is wanting.
pub fn part_ins(
    alloc: Global,
    ins: &InsList,
    gathers: &[bool],
    homes: &[u32],
    home: u32,
    root: u32,
) -> Result<InsList, AllocError>
    requires root { root < length gathers.now }
    requires nodes { length ins.now ≡ length gathers.now }
    requires homes { length homes.now ≡ length gathers.now }
    ensures { IfOk result (λ part. part ≡ part_ins gathers.now ins.now homes.now home root) }
{
    let mut lists = Vec::with_capacity(alloc, root as usize + 1)?;
    for node in 0..root {
        let own = inner_children(ins, gathers, homes, home, node as usize);
        lists.push(Vec::from_slice(alloc, own)?)?;
    }
    lists.push(root_children(alloc, ins.children(root as usize), homes, home, root)?)?;
    Ok(InsList::new(lists))
}

/// The children of a node before the root.
fn inner_children<'a>(
    ins: &'a InsList,
    gathers: &[bool],
    homes: &[u32],
    home: u32,
    node: usize,
) -> &'a [u32]
    requires node { node < length gathers.now }
    requires nodes { length ins.now ≡ length gathers.now }
    requires homes { length homes.now ≡ length gathers.now }
    ensures { result.now ≡ (if is_of homes.now home node && not (gathers_at gathers.now node)
        then children ins.now node else []) }
{
    if homes[node] == home && !gathers[node] {
        ins.children(node)
    } else {
        &[]
    }
}

/// The root's own children and then the strangers.
fn root_children(
    alloc: Global,
    own: &[u32],
    homes: &[u32],
    home: u32,
    root: u32,
) -> Result<Vec<u32>, AllocError>
    requires { root ≤ length homes.now }
    ensures { IfOk result (λ all. all.items ≡ own.now ++ strangers homes.now home root) }
{
    let mut all = Vec::from_slice(alloc, own)?;
    for node in 0..root {
        if homes[node as usize] != home {
            all.push(node)?;
        }
    }
    Ok(all)
}
