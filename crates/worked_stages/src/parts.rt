//! The parts of a tree of six nodes, two of which gather.

ghost use Rattle.std.specs.Prelude.{◌≡◌, [], ◌∷◌, IfOk};

use network_core::InsList;
use stage_parts::{homes_of, part_ins};
use std::alloc::{AllocError, Global};

/// Nodes 1 and 4 gather.
const GATHERS: [bool; 6] = [false, true, false, false, true, false];

/// Node 1 takes 0, node 3 takes 1 and 2, node 4 takes 3, and node 5 takes 4.
fn tree(alloc: Global) -> Result<InsList, AllocError>
    ensures { IfOk result (λ ins. ins ≡ [] ∷ (0 ∷ []) ∷ [] ∷ (1 ∷ 2 ∷ []) ∷ (3 ∷ []) ∷ (4 ∷ []) ∷ []) }
{
    let lists = vec![in alloc;
        Vec::new(alloc),
        vec![in alloc; 0u32]?,
        Vec::new(alloc),
        vec![in alloc; 1u32, 2]?,
        vec![in alloc; 3u32]?,
        vec![in alloc; 4u32]?,
    ]?;
    Ok(InsList::new(lists))
}

type Checked = Result<bool, AllocError>;

pub(crate) fn each_node_has_the_first_gathering_node_above_it(alloc: Global) -> Checked {
    let homes = homes_of(alloc, &tree(alloc)?, &GATHERS)?;
    Ok(homes.as_slice() == [1, 4, 4, 4, 6, 6].as_slice())
}

pub(crate) fn strangers_stand_behind_what_the_root_takes(alloc: Global) -> Checked {
    let ins = tree(alloc)?;
    let part = part_ins(alloc, &ins, &GATHERS, &[1, 4, 4, 4, 6, 6], 4, 4)?;
    let mut right = true;
    for node in 0..3 {
        right &= part.children(node).is_empty();
    }
    right &= part.children(3) == [1, 2].as_slice();
    Ok(right && part.children(4) == [3, 0].as_slice())
}

pub(crate) fn a_node_that_gathers_is_a_leaf_of_the_last_part(alloc: Global) -> Checked {
    let ins = tree(alloc)?;
    let part = part_ins(alloc, &ins, &GATHERS, &[1, 4, 4, 4, 6, 6], 6, 5)?;
    let mut right = true;
    for node in 0..5 {
        right &= part.children(node).is_empty();
    }
    Ok(right && part.children(5) == [4, 0, 1, 2, 3].as_slice())
}

pub(crate) fn the_lowest_part_has_no_strangers(alloc: Global) -> Checked {
    let ins = tree(alloc)?;
    let part = part_ins(alloc, &ins, &GATHERS, &[1, 4, 4, 4, 6, 6], 1, 1)?;
    Ok(part.children(0).is_empty() && part.children(1) == [0].as_slice())
}
