//! Queues of each capacity.

use chunk_queue::{ItemKind, PlainQueue, Tag};
use cloud_points::{Body, Chunk, Item, Point, Spread};
use std::alloc::Global;

/// The numbers of items that go round three slots, and how many points each brings.
const COUNTS: [(u64, usize); 6] = [(0, 1), (1, 64), (2, 2), (3, 63), (4, 5), (5, 1)];

fn spread_of(count: usize) -> Spread {
    let mut spread = Spread::new();
    for _ in 0..count {
        let _ = spread.try_push(Point::zero());
    }
    spread
}

fn item(no: u64) -> Item {
    let body = match Chunk::of(&spread_of(3)) {
        Some(chunk) => Body::Points(chunk),
        None => Body::EndView,
    };
    Item { no, body }
}

/// The number of the item that a queue gives.
fn popped(queue: &mut PlainQueue) -> Option<u64> {
    let item = queue.pop()?;
    Some(item.no)
}

/// The number of an item that a queue hands back.
fn handed_back(queue: &mut PlainQueue, no: u64) -> Option<u64> {
    match queue.push(item(no)) {
        Ok(()) => None,
        Err(item) => Some(item.no),
    }
}

/// Whether a queue takes so many items, hands back one more, and gives them in their order.
fn is_filled(queue: &mut PlainQueue, capacity: u64) -> bool {
    let mut right = queue.is_empty();
    for no in 0..capacity {
        right &= handed_back(queue, no) == None;
    }
    right &= !queue.has_room();
    right &= handed_back(queue, 99) == Some(99);
    for no in 0..capacity {
        right &= popped(queue) == Some(no);
    }
    right & (popped(queue) == None)
}

pub(crate) fn items_come_out_in_order_and_a_full_queue_hands_back(alloc: Global) -> bool {
    let mut right = true;
    for &capacity in &[1, 2, 64] {
        right &= match PlainQueue::new(alloc, capacity) {
            Ok(mut queue) => is_filled(&mut queue, capacity as u64),
            Err(_) => false,
        };
    }
    right
}

/// Puts so many points in and an end of a view behind them; whether the end comes, what the points' tag is, and how many
/// points come out.
fn rounds(queue: &mut PlainQueue, no: u64, count: usize) -> Option<(bool, Tag, usize)> {
    let given = spread_of(count);
    let points = Tag {
        no,
        kind: ItemKind::Points,
    };
    let end = Tag {
        no,
        kind: ItemKind::EndView,
    };
    if given.is_empty()
        || !queue.push_from(points, given.as_slice())
        || !queue.push_from(end, &[])
    {
        return None;
    }
    let mut into = Spread::new();
    let tag = queue.pop_into(&mut into)?;
    let came = into.len();
    let last = queue.pop_into(&mut into)?;
    Some((last.kind == ItemKind::EndView, tag, came))
}

pub(crate) fn parts_go_round_the_slots(alloc: Global) -> bool {
    let Ok(mut queue) = PlainQueue::new(alloc, 3) else {
        return false;
    };
    let mut right = true;
    for &(no, count) in &COUNTS {
        let tag = Tag {
            no,
            kind: ItemKind::Points,
        };
        right &= rounds(&mut queue, no, count) == Some((true, tag, count));
    }
    right &= queue.is_empty();
    right & (queue.pop_into(&mut Spread::new()) == None)
}
