//! Empty slots that two threads share.

ghost use Rattle.std.specs.Prelude.{◌≡◌, ◌<◌, IfSome};

use cloud_points::{Spread, put_points};
use crossbeam_queue::ArrayQueue;
use std::alloc::{AllocError, Global};
use std::sync::Wait;
use std::thread;

/// Slots in which no item lies.
pub(crate) type Slots = ArrayQueue<Box<Spread>>;

/// So many empty slots.
pub(crate) fn new_slots(alloc: Global, count: usize) -> Result<Slots, AllocError>
    requires { 0 < count }
{
    let mut slots = ArrayQueue::new(alloc, count)?;
    for _ in 0..count {
        let _ = slots.push_mut(Box::new(alloc, Spread::new())?);
    }
    Ok(slots)
}

/// An empty slot. It waits until there is one.
pub(crate) fn take_free<R: Wait>(rt: &R, slots: &Slots) -> Box<Spread> {
    for _ in rt.forever() {
        if let Some(slot) = slots.pop(rt) {
            return slot;
        }
        thread::yield_now();
    }
    unreachable!()
}

/// A free slot with these points; None where there is none at the moment.
pub(crate) fn fill_free<R: Wait>(rt: &R, slots: &Slots, points: &Spread) -> Option<Box<Spread>>
    ensures { IfSome result (λ slot. slot.value.items ≡ points.now.items) }
{
    let mut slot = slots.pop(rt)?;
    put_points(&mut slot, points.as_slice());
    Some(slot)
}

/// Puts a slot back.
pub(crate) fn put_free<R: Wait>(rt: &R, slots: &Slots, slot: Box<Spread>) {
    let _ = slots.push(rt, slot);
}
