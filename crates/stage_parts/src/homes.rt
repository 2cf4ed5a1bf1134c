//! The homes of nodes.

ghost use Rattle.std.specs.Prelude.{◌≡◌, ◌-◌, ◌^◌, ◌<◌, ℕ, IfOk, length};
ghost use Rattle.network_theory.specs.Shape.{Each, In};
ghost use Rattle.network_theory.specs.Forest.{IsForest};
ghost use Rattle.stage_parts.specs.Parts.{home_at, AreHomes};

use network_core::InsList;
use std::alloc::{AllocError, Global};

/// The home of each node: the number of the first node above it that gathers, or the number of nodes where none does. `ins`
/// has the children of each node, and `gathers` says which nodes gather. Refuses where memory is wanting.
pub fn homes_of(alloc: Global, ins: &InsList, gathers: &[bool]) -> Result<Vec<u32>, AllocError>
    requires most { length gathers.now < 2 ^ 32 }
    requires some { 0 < length gathers.now }
    requires forest { IsForest ins.now (length gathers.now - 1) }
    ensures { IfOk result (λ homes. AreHomes gathers.now ins.now homes.items) }
{
    let count = gathers.len();
    let mut homes = vec![in alloc; count as u32; count]?;
    for node in (0..count).rev() {
        let home = if gathers[node] {
            node as u32
        } else {
            homes[node]
        };
        lead_home(homes.as_mut_slice(), ins.children(node), home);
    }
    Ok(homes)
}

/// Gives these nodes this home.
fn lead_home(homes: &mut [u32], nodes: &[u32], home: u32)
    requires { Each (λ j. j < length homes.old) nodes.now }
    ensures led { (j : ℕ) → In j nodes.now → home_at homes.new j ≡ home }
    ensures others { (j : ℕ) → (In j nodes.now → ⊥) → home_at homes.new j ≡ home_at homes.old j }
{
    for node in nodes {
        homes[*node as usize] = home;
    }
}
