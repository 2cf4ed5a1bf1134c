//! Lists of variable length records that go over.

ghost use Rattle.std.specs.Prelude.{◌≡◌};
ghost use Rattle.forward_rules.specs.Lists.{without_extra_bytes};

use las_vlr::VlrList;

/// The list without the records that describe extra bytes. It takes no memory.
pub(crate) fn without_extra_bytes(vlrs: VlrList) -> VlrList
    ensures { result ≡ without_extra_bytes vlrs }
{
    let mut kept = vlrs.into_vec();
    kept.retain(|vlr| !vlr.is_extra_bytes());
    VlrList::new(kept)
}
