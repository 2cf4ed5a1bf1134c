ghost use Rattle.std.specs.Prelude.{◌≡◌};
ghost use Rattle.ieee_words.specs.Order.{order_number, OrderKeepsValues};

/// A number that grows with the value of a finite word: the word and 2^63 where the sign bit is 0,
/// and `2^64 - 1` less the word where it is 1. The word of -0 comes right before that of 0.
pub fn word_order(w: u64) -> u64
    ensures { result ≡ order_number w }
{
    if w < 1 << 63 {
        w + (1 << 63)
    } else {
        u64::MAX - w
    }
}

/// The law that of two finite words the one of the smaller value has the smaller order number.
pub fn order_keeps_values()
    ensures { OrderKeepsValues }
{}
