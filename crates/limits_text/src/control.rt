//! The grammars: which word may follow which.

ghost use Rattle.std.specs.Prelude.{◌≡◌, option_map};
ghost use Rattle.limits_text.specs.Follows.{behind_sign, behind_name, behind_number, behind, keyword, wants_space, is_end};

/// What may come next in a text of limits.
#[derive(Clone, Copy, Debug, PartialEq, Eq)]
pub enum Control {
    /// A range: its name.
    Name,
    /// Behind the name: `!`, `[` or `(`.
    Named,
    /// Behind `!`: `[` or `(`.
    Negated,
    /// The low end, or `:`.
    Low,
    /// `:`.
    Colon,
    /// The high end, `]` or `)`.
    High,
    /// `]` or `)`.
    Close,
    /// `,` and a further range, or the end.
    Ranged,

    /// A box: `(`.
    Box,
    /// The `[` of a pair.
    Pair(PairAxis),
    /// The first decimal of a pair.
    PairLow(PairAxis),
    /// The `,` of a pair.
    PairComma(PairAxis),
    /// The second decimal of a pair.
    PairHigh(PairAxis),
    /// The `]` of a pair.
    PairClose(PairAxis),
    /// Behind a pair: `,` and a further pair, or `)`.
    Paired(PairAxis),

    /// The word POLYGON.
    Polygon,
    /// The first `(` of a polygon.
    Shape,
    /// The second `(` of a polygon.
    Ring,
    /// The first decimal of a corner.
    CornerX,
    /// The second decimal of a corner.
    CornerY,
    /// `,` and a further corner, or `)`.
    Corner,
    /// The last `)`.
    ShapeEnd,

    /// The word POINT.
    Point,
    /// The `(` of a point.
    PointOpen,
    /// The first decimal of a point.
    PointX,
    /// The second decimal of a point.
    PointY,
    /// The `)` of a point.
    PointClose,

    /// Nothing but spaces.
    End,
}

/// The axis of a pair's coordinates.
#[derive(Clone, Copy, Debug, PartialEq, Eq)]
pub enum PairAxis {
    /// The first pair's.
    X,
    /// The second pair's.
    Y,
    /// The third pair's.
    Z,
}

/// The sort of a word.
#[derive(Clone, Copy, Debug, PartialEq, Eq)]
pub enum WordKind {
    /// Letters, digits and `_`, no digit first.
    Name,
    /// The front of a decimal.
    Number,
    /// Any other byte.
    Sign(u8),
}

/// What may come behind a sign.
fn behind_sign(control: Control, sign: u8) -> Option<Control>
    ensures { result ≡ behind_sign control sign }
{
    match control {
        Control::Named => match sign {
            b'!' => Some(Control::Negated),
            b'[' | b'(' => Some(Control::Low),
            _ => None,
        },
        Control::Negated => (sign == b'[' || sign == b'(').then_some(Control::Low),
        Control::Low | Control::Colon => (sign == b':').then_some(Control::High),
        Control::High | Control::Close => (sign == b']' || sign == b')').then_some(Control::Ranged),
        Control::Ranged => (sign == b',').then_some(Control::Name),
        Control::Box => (sign == b'(').then_some(Control::Pair(PairAxis::X)),
        Control::Pair(axis) => (sign == b'[').then_some(Control::PairLow(axis)),
        Control::PairComma(axis) => (sign == b',').then_some(Control::PairHigh(axis)),
        Control::PairClose(axis) => (sign == b']').then_some(Control::Paired(axis)),
        Control::Paired(PairAxis::X) => (sign == b',').then_some(Control::Pair(PairAxis::Y)),
        Control::Paired(PairAxis::Y) => match sign {
            b',' => Some(Control::Pair(PairAxis::Z)),
            b')' => Some(Control::End),
            _ => None,
        },
        Control::Shape => (sign == b'(').then_some(Control::Ring),
        Control::Ring => (sign == b'(').then_some(Control::CornerX),
        Control::Corner => match sign {
            b',' => Some(Control::CornerX),
            b')' => Some(Control::ShapeEnd),
            _ => None,
        },
        Control::PointOpen => (sign == b'(').then_some(Control::PointX),
        Control::Paired(PairAxis::Z) | Control::ShapeEnd | Control::PointClose => {
            (sign == b')').then_some(Control::End)
        }
        _ => None,
    }
}

/// What may come behind a name.
fn behind_name(control: Control) -> Option<Control>
    ensures { result ≡ behind_name control }
{
    match control {
        Control::Name => Some(Control::Named),
        Control::Polygon => Some(Control::Shape),
        Control::Point => Some(Control::PointOpen),
        _ => None,
    }
}

/// What may come behind a number.
fn behind_number(control: Control) -> Option<Control>
    ensures { result ≡ behind_number control }
{
    match control {
        Control::Low => Some(Control::Colon),
        Control::High => Some(Control::Close),
        Control::PairLow(axis) => Some(Control::PairComma(axis)),
        Control::PairHigh(axis) => Some(Control::PairClose(axis)),
        Control::CornerX => Some(Control::CornerY),
        Control::CornerY => Some(Control::Corner),
        Control::PointX => Some(Control::PointY),
        Control::PointY => Some(Control::PointClose),
        _ => None,
    }
}

/// What may come behind a word of this sort.
pub(crate) fn behind(control: Control, kind: WordKind) -> Option<Control>
    ensures { result ≡ behind control kind }
{
    match kind {
        WordKind::Name => behind_name(control),
        WordKind::Number => behind_number(control),
        WordKind::Sign(sign) => behind_sign(control, sign),
    }
}

/// The one name that may stand here, in small letters.
pub(crate) fn keyword(control: Control) -> Option<&'static [u8]>
    ensures { option_map (λ k. k.now) result ≡ keyword control }
{
    match control {
        Control::Polygon => Some("polygon".as_bytes()),
        Control::Point => Some("point".as_bytes()),
        _ => None,
    }
}

/// Whether a decimal must have a space before it here.
pub(crate) fn wants_space(control: Control) -> bool
    ensures { result ≡ wants_space control }
{
    matches!(control, Control::CornerY | Control::PointY)
}

/// Whether the text may end here.
pub(crate) fn is_end(control: Control) -> bool
    ensures { result ≡ is_end control }
{
    matches!(control, Control::Ranged | Control::End)
}
