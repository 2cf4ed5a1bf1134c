//! A queue between two threads.

ghost use Rattle.std.specs.Prelude.{◌≡◌, ◌<◌, ◌≤◌, ◌+◌, ◌-◌, ◌^◌, ◌++◌, ◌||◌, ◌&&◌, ◌==◌, nat_lt, [], length};
ghost use Rattle.std.specs.Prelude.{true, IfOk, List};

use crate::ends::{Channel, RuledIn, RuledOut};
use crate::order::{Line, Settles, Whole, give_roles};
use crate::slots::new_slots;
use std::alloc::{AllocError, Global};
use std::marker::{Brand, Model};
use std::sync::Arc;

/// The slots that a queue has besides one for each item there is room for: at each end one that is in use there,
/// and one that the end lends.
const SPARE_SLOTS: usize = 4;

/// The two ends of a queue.
#[derive(Drop)]
struct BothEnds {
    out: RuledOut,
    inn: RuledIn,
}

/// A queue between one thread that sends and one that takes, with room for a stated number of items, from 1
/// to 64. A clause sees its capacity, and whether it is new. No call but `new` takes memory.
///
/// At each step of any thread it keeps the rule of a queue: what was got and what is held are what was sent,
/// in its order, with the numbers 0, 1, .. and an End only last.
#[derive(Drop)]
pub struct RuledQueue {
    capacity: usize,
    ends: Option<BothEnds>,
}

impl Model for RuledQueue {
    ghost use Rattle.std.specs.Prelude.{is_some};
    ghost use Rattle.chunk_queue.specs.Ends.{QueueSeen};
    ghost use Rattle.chunk_queue.specs.Fresh.{AreFresh};

    ghost Value = { QueueSeen };

    ghost view = { λ q. record { capacity = q.capacity; fresh = is_some q.ends } };

    ghost invariant = { λ q. AreFresh q.capacity q.ends };
}

/// A value that may go to another thread, as it is.
fn sendable<T: Send>(value: T) -> T
    ensures { result ≡ value }
{
    value
}

/// Whether as many items were taken as were sent, by counts that stand still at the greatest u64.
fn are_exact(got: u64, sent: u64) -> bool
    ensures { result ≡ (got == sent) && nat_lt sent (2 ^ 64 - 1) }
{
    got == sent && sent < u64::MAX
}

impl RuledQueue {
    ghost use Rattle.cloud_points.specs.declared.item.Item.{Item};
    ghost use Rattle.chunk_queue.specs.Ends.{ended, are_counts_equal};

    /// A new queue with this capacity.
    pub fn new(alloc: Global, capacity: usize) -> Result<RuledQueue, AllocError>
        requires some { 0 < capacity }
        requires most { capacity ≤ 64 }
        ensures { IfOk result (λ q. (q.capacity ≡ capacity) × (q.fresh ≡ true)) }
    {
        let slots = new_slots(alloc, capacity + SPARE_SLOTS)?;
        let (line, pass) = Line::ruled(alloc, capacity)?;
        let (out, inn) = give_roles::<Brand>(&line, pass, capacity);
        let channel = Arc::new(alloc, Channel { line, slots })?;
        let ends = BothEnds {
            inn: RuledIn {
                channel: Arc::try_clone(&channel)?,
                pass: inn,
                count: 0,
                ended: false,
                lent: false,
            },
            out: RuledOut {
                channel,
                pass: out,
                count: 0,
                lent: false,
            },
        };
        Ok(RuledQueue {
            capacity,
            ends: Some(ends),
        })
    }

    /// The two ends of a new queue.
    pub fn split(&mut self) -> (RuledOut, RuledIn)
        requires { self.old.fresh ≡ true }
        ensures queue { result.0.queue ≡ result.1.queue }
        ensures capacity { (result.0.capacity ≡ self.old.capacity) × (result.1.capacity ≡ self.old.capacity) }
        ensures nothing { (result.0.sent ≡ []) × (result.1.got ≡ []) }
    {
        let Some(ends) = self.ends.take() else {
            unreachable!()
        };
        (sendable(ends.out), sendable(ends.inn))
    }

    /// Whether an End was taken, or as many items were taken as were sent and fewer than the greatest u64.
    /// Then all that was sent was taken.
    pub fn settle(out: RuledOut, inn: RuledIn) -> bool
        requires { out.queue ≡ inn.queue }
        ensures exact { result ≡ ended inn.got || are_counts_equal inn.got out.sent }
        ensures part { (rest : List Item) × (inn.got ++ rest ≡ out.sent) }
        ensures whole { result ≡ true → inn.got ≡ out.sent }
    {
        let RuledOut {
            pass: theirs,
            count: sent,
            ..
        } = out;
        let RuledIn {
            channel,
            pass: mut whole,
            count: got,
            ended,
            ..
        } = inn;
        channel.line.absorb::<Whole>(&mut whole, theirs);
        channel.line.learn_as::<Settles>(&mut whole);
        ended | are_exact(got, sent)
    }
}
