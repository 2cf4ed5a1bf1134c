//! The queue between two threads, on one.

ghost use Rattle.std.specs.Prelude.{◌≡◌};

use chunk_queue::{RuledIn, RuledQueue};
use cloud_points::{Body, Item};
use std::alloc::Global;
use std::sync::Wait;

/// The number of the item that is got, where one is.
fn got<R: Wait>(rt: &R, inn: &mut RuledIn) -> Option<u64>
    ensures { inn.new.queue ≡ inn.old.queue }
{
    let item = inn.pop(rt)?;
    Some(item.no)
}

/// What comes of it when one item is sent: whether it was sent, the numbers of what two calls get, and
/// whether all that was sent was got.
fn send_one<R: Wait>(rt: &R, alloc: Global) -> Option<(bool, Option<u64>, Option<u64>, bool)> {
    let mut queue = RuledQueue::new(alloc, 8).ok()?;
    let (mut out, mut inn) = queue.split();
    let item = Item {
        no: 0,
        body: Body::EndView,
    };
    let sent = out.push(rt, item).is_ok();
    let first = got(rt, &mut inn);
    let second = got(rt, &mut inn);
    Some((sent, first, second, RuledQueue::settle(out, inn)))
}

/// An item that waits in a queue is got: no clause refuses a queue that never gives one.
pub fn a_pop_of_a_waiting_queue_gives_its_item<R: Wait>(rt: &R, alloc: Global) -> bool {
    send_one(rt, alloc) == Some((true, Some(0), None, true))
}
