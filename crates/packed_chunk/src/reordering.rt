//! Rows that move to other places.

ghost use Rattle.std.specs.Prelude.{◌≡◌, ℕ, ◌+◌, ◌-◌, ◌<◌, ◌≤◌, length, map, get_or, set};
ghost use Rattle.std.specs.List.{range_with_len};
ghost use Rattle.std.specs.List.Sorted.{IsPermutation};
ghost use Rattle.cloud_points.specs.Points.{zero_point};
ghost use Rattle.packed_chunk.specs.Places.{ArePlaces, AreGoing, AreInHand, IsSettled, unsettled};
ghost use Rattle.packed_chunk.specs.Unpacked.{unpacked_at};

use crate::PackedRows;
use arrayvec::ArrayVec;

/// The most bytes of a row.
const MOST_BYTES: usize = 128;

/// So many rows are in hand at once. One row after the other would wait for memory at each step.
const HANDS: usize = 64;

/// Room for rows in hand, each at the front of room for the widest one.
type Room = [[u8; MOST_BYTES]; HANDS];

/// Rows in hand.
#[derive(Drop)]
struct Hands {
    // Those that stood at places before these were free.
    taken: Room,
    // Those that go to the places that are free now.
    going: Room,
}

impl PackedRows {
    /// Moves each point to its place: the sources say where the points stand that go to each place, and are used up. It
    /// allocates nothing, and takes time in proportion to the number of points.
    pub fn reorder(&mut self, sources: &mut [usize])
        requires { IsPermutation (range_with_len 0 (length self.old.points)) sources.old }
        ensures { self.new ≡ record self.old
            { points = map (λ k. get_or self.old.points k zero_point) sources.old } }
    {
        let mut hands = Hands {
            taken: [[0; MOST_BYTES]; HANDS],
            going: [[0; MOST_BYTES]; HANDS],
        };
        let mut start = 0;
        while start < self.len() {
            let end = self.len().min(start + HANDS);
            self.settle(start, end, sources, &mut hands);
            start = end;
        }
    }

    // Moves the points of the cycles of places that go through the places from one to another. All rows that stand there are
    // taken in hand. Then each free place takes the row of its source, in rounds: one in hand, or one whose place is free then.
    fn settle(&mut self, start: usize, end: usize, sources: &mut [usize], hands: &mut Hands)
        requires places { ArePlaces (length self.old.points) sources.old }
        requires ordered { start ≤ end }
        requires few { end ≤ start + 64 }
        requires inside { end ≤ length self.old.points }
        ensures layout { self.new.layout ≡ self.old.layout }
        ensures settled { IsSettled start end self.old.points sources.old self.new.points sources.new }
    {
        let mut free = self.take_in_hand(start, end, sources, &mut hands.taken);
        while !free.is_empty() {
            self.take_sources(
                free.as_slice(),
                start,
                end,
                sources,
                &hands.taken,
                &mut hands.going,
            );
            let mut next = ArrayVec::new();
            for turn in 0..free.len() {
                let place = free[turn];
                prove!(place < sources.len());
                let source = sources[place];
                sources[place] = place;
                self.put_row(place, &hands.going[turn]);
                if source < start || source >= end {
                    next.push(source);
                }
            }
            free = next;
        }
    }

    // Takes the rows in hand that stand at the places from one to another, but for those that are where they have to be, and
    // answers their places.
    fn take_in_hand(
        &self,
        start: usize,
        end: usize,
        sources: &[usize],
        taken: &mut Room,
    ) -> ArrayVec<usize, HANDS>
        requires each { length sources.now ≡ length self.now.points }
        requires ordered { start ≤ end }
        requires few { end ≤ start + 64 }
        requires inside { end ≤ length self.now.points }
        ensures free { result.items ≡ unsettled sources.now start (end - start) }
        ensures taken { AreInHand self.now.layout start end self.now.points sources.now taken.new }
    {
        let mut free = ArrayVec::new();
        for place in start..end {
            if sources[place] != place {
                self.take_row(place, &mut taken[place - start]);
                free.push(place);
            }
        }
        free
    }

    // Takes the rows in hand that go to some places: of each the row of its source, or that which is in hand for it. All are
    // asked for before one is taken, so that memory brings many of them at once, and so is where the next ones come from.
    fn take_sources(
        &self,
        free: &[usize],
        start: usize,
        end: usize,
        sources: &[usize],
        taken: &Room,
        going: &mut Room,
    )
        requires each { length sources.now ≡ length self.now.points }
        requires low { (k : ℕ) → k < length self.now.points → get_or sources.now k 0 < length self.now.points }
        requires inside { (i : ℕ) → i < length free.now → get_or free.now i 0 < length self.now.points }
        requires many { length free.now ≤ 64 }
        requires few { end ≤ start + 64 }
        ensures { AreGoing self.now.layout start end self.now.points sources.now taken.now free.now going.new }
    {
        self.ask_for(free, sources, going);
        for turn in 0..free.len() {
            let source = sources[free[turn]];
            if start <= source && source < end {
                going[turn] = taken[source - start];
            } else {
                self.take_row(source, &mut going[turn]);
            }
        }
    }

    // Asks memory for the rows that go to some places, and for where the rows after them come from: reads the two ends of each row
    // and the source of each source. The hands are but somewhere to put what was read.
    fn ask_for(&self, free: &[usize], sources: &[usize], hands: &mut Room)
        requires each { length sources.now ≡ length self.now.points }
        requires low { (k : ℕ) → k < length self.now.points → get_or sources.now k 0 < length self.now.points }
        requires inside { (i : ℕ) → i < length free.now → get_or free.now i 0 < length self.now.points }
        requires many { length free.now ≤ 64 }
    {
        for turn in 0..free.len() {
            let source = sources[free[turn]];
            let row = self.row(source);
            if let (Some(first), Some(last)) = (row.first(), row.last()) {
                hands[turn][0] = *first;
                hands[turn][1] = *last;
            }
            hands[turn][2] = (sources[source] % 256) as u8;
        }
    }

    // Takes the row at a place in hand.
    fn take_row(&self, place: usize, hand: &mut [u8; MOST_BYTES])
        requires { place < length self.now.points }
        ensures { unpacked_at self.now.layout 0 hand.new ≡ get_or self.now.points place zero_point }
    {
        let width = self.width();
        hand[..width].copy_from_slice(self.row(place));
    }

    // Puts a row in hand to a place.
    fn put_row(&mut self, place: usize, hand: &[u8; MOST_BYTES])
        requires { place < length self.old.points }
        ensures { self.new ≡ record self.old
            { points = set self.old.points place (unpacked_at self.old.layout 0 hand.now) } }
    {
        let width = self.width();
        self.put_over(place, &hand[..width]);
    }
}
