//! Keys and places of points in words of 64 bits. The key stands above the place, so words in order are points in order.

ghost use Rattle.std.specs.Prelude.{◌≡◌, ◌≤◌, ◌<◌, ◌%◌, ◌^◌, IfSome, length, map, true};
ghost use Rattle.whole_filters.specs.Places.{AreWords, FitWords, HasRoom};

/// How a key and its place share a word: the place takes so many bits, the lowest, and the key the others. Keys are counted from
/// the least one, without the low bits that are 0 in all of them then.
#[derive(Clone, Copy)]
pub(crate) struct WordForm {
    least: usize,
    zeros: u32,
    bits: u32,
}

impl WordForm {
    /// The form for some keys, where their words have room.
    pub(crate) fn of(keys: &[usize]) -> Option<WordForm>
        ensures { IfSome result (λ form. FitWords form.least form.zeros form.bits keys.now) }
    {
        let form = WordForm::narrowest(keys);
        if form.fits(keys) { Some(form) } else { None }
    }

    // The form with the most room for each key. Whether it is enough is looked up afterwards.
    fn narrowest(keys: &[usize]) -> WordForm
        ensures zeros { result.zeros < 64 }
        ensures bits { result.bits < 64 }
        ensures places { length keys.now ≤ 2 ^ result.bits }
    {
        let first = keys.first().copied().unwrap_or(0);
        let mut least = first;
        let mut differing = 0;
        for key in keys {
            least = least.min(*key);
            differing |= first ^ key;
        }
        WordForm {
            least,
            zeros: differing.trailing_zeros().min(63),
            bits: usize::BITS - keys.len().leading_zeros(),
        }
    }

    // Whether the words of all keys have room.
    fn fits(self, keys: &[usize]) -> bool
        requires zeros { self.zeros < 64 }
        requires bits { self.bits < 64 }
        requires places { length keys.now ≤ 2 ^ self.bits }
        ensures { result ≡ true → FitWords self.least self.zeros self.bits keys.now }
    {
        for key in keys {
            if !self.has_room(*key) {
                return false;
            }
        }
        true
    }

    // Whether the word of a key has room.
    #[inline(always)]
    fn has_room(self, key: usize) -> bool
        requires zeros { self.zeros < 64 }
        requires bits { self.bits < 64 }
        ensures { result ≡ true → HasRoom self.least self.zeros self.bits key }
    {
        if key < self.least {
            return false;
        }
        let above = key - self.least;
        let counted = above >> self.zeros;
        counted << self.zeros == above && counted <= usize::MAX >> self.bits
    }

    /// Makes each key into its word.
    pub(crate) fn join(self, keys: &mut [usize])
        requires { FitWords self.least self.zeros self.bits keys.old }
        ensures { AreWords self.least self.zeros self.bits keys.old keys.new }
    {
        for place in 0..keys.len() {
            keys[place] = ((keys[place] - self.least) >> self.zeros << self.bits) + place;
        }
    }

    /// Makes each word into its place.
    pub(crate) fn keep_places(self, words: &mut [usize])
        requires { self.bits < 64 }
        ensures { words.new ≡ map (λ w. w % 2 ^ self.bits) words.old }
    {
        let low = (1 << self.bits) - 1;
        for word in words.iter_mut() {
            *word &= low;
        }
    }
}
