//! The ends of a queue are taken together.

ghost use Rattle.std.specs.Prelude.{◌≡◌};
ghost use Rattle.network_workers.specs.Gathered.{IsFirstPart};

use chunk_queue::{RuledIn, RuledOut, RuledQueue};

/// Takes the two ends of a queue together: what was got is a first part of what was sent, and all of it where an End was got.
pub fn settle_ends(out: RuledOut, inn: RuledIn)
    requires { out.queue ≡ inn.queue }
    ensures { IsFirstPart inn.got out.sent }
{
    let _all = RuledQueue::settle(out, inn);
}
