//! The dimensions of a point.

ghost use Rattle.std.specs.Prelude.{◌≡◌, ◌≤◌, ◌<◌, ◌+◌, [], ◌∷◌, ◌++◌, length, codes};
ghost use Rattle.cloud_points.specs.Dims.{extra_place, number_of, kind_of, greatest, low_of, high_of, name_of};

/// A dimension of a point: one of the 22 by their names in the ASPRS LAS Specification 1.4 R15 ("Point Data Records"), or
/// one of 8 extra ones.
#[derive(Clone, Copy, Debug, PartialEq, Eq)]
pub enum Dim {
    /// X coordinate.
    X,
    /// Y coordinate.
    Y,
    /// Z coordinate.
    Z,
    /// Pulse return magnitude.
    Intensity,
    /// Return number of a pulse.
    ReturnNumber,
    /// Number of returns of a pulse.
    NumberOfReturns,
    /// 1 where the mirror moved from left to right.
    ScanDirectionFlag,
    /// 1 at the end of a scan line.
    EdgeOfFlightLine,
    /// Class of a point.
    Classification,
    /// 1 where the point was made by other means than lidar.
    Synthetic,
    /// 1 where the point is a model key point.
    KeyPoint,
    /// 1 where the point is not to be used.
    Withheld,
    /// 1 where the point is in the overlap of swaths.
    Overlap,
    /// Channel of a multi-channel system.
    ScanChannel,
    /// Angle of the pulse in degrees.
    ScanAngleRank,
    /// For the user.
    UserData,
    /// The file that the point came from.
    PointSourceId,
    /// Time as a binary64 word.
    GpsTime,
    /// Red image channel.
    Red,
    /// Green image channel.
    Green,
    /// Blue image channel.
    Blue,
    /// Near infrared image channel.
    Infrared,
    /// An extra dimension, by its place among the extra names, 0 to 7. A number beyond them stands for the last.
    Extra(u8),
}

/// How many dimensions there are.
pub(crate) const COUNT: usize = 30;

/// The place of an extra dimension among the eight.
pub(crate) fn extra_place(place: u8) -> usize
    ensures { result ≡ extra_place place }
{
    place.min(7) as usize
}

/// The name of an extra dimension.
fn extra_name(place: u8) -> &'static str
    ensures name { result.now ≡ codes "Extra" ++ (48 + extra_place place) ∷ [] }
    ensures len { length result.now ≤ 6 }
{
    match place {
        0 => "Extra0",
        1 => "Extra1",
        2 => "Extra2",
        3 => "Extra3",
        4 => "Extra4",
        5 => "Extra5",
        6 => "Extra6",
        _ => "Extra7",
    }
}

/// How the values of a dimension are counted.
#[derive(Clone, Copy, Debug, PartialEq, Eq)]
pub enum Kind {
    /// In nanounits: coordinates in 10^-9 of the file's unit, angles in 10^-9 degree.
    Fixed,

    /// In whole numbers.
    Whole,

    /// As a binary64 word, which has no number.
    Word,
}

/// A value is outside the range of its dimension.
#[derive(Clone, Copy, Debug, PartialEq, Eq)]
pub struct OutOfRange;

impl Dim {
    // Its place among all, from 0.
    pub(crate) fn number(self) -> usize
        ensures number { result ≡ number_of self }
        ensures small { result < 30 }
    {
        match self {
            Dim::X => 0,
            Dim::Y => 1,
            Dim::Z => 2,
            Dim::Intensity => 3,
            Dim::ReturnNumber => 4,
            Dim::NumberOfReturns => 5,
            Dim::ScanDirectionFlag => 6,
            Dim::EdgeOfFlightLine => 7,
            Dim::Classification => 8,
            Dim::Synthetic => 9,
            Dim::KeyPoint => 10,
            Dim::Withheld => 11,
            Dim::Overlap => 12,
            Dim::ScanChannel => 13,
            Dim::ScanAngleRank => 14,
            Dim::UserData => 15,
            Dim::PointSourceId => 16,
            Dim::GpsTime => 17,
            Dim::Red => 18,
            Dim::Green => 19,
            Dim::Blue => 20,
            Dim::Infrared => 21,
            Dim::Extra(place) => 22 + extra_place(place),
        }
    }

    /// How its values are counted.
    pub fn kind(self) -> Kind
        ensures { result ≡ kind_of self }
    {
        match self {
            Dim::X | Dim::Y | Dim::Z | Dim::ScanAngleRank | Dim::Extra(_) => Kind::Fixed,
            Dim::GpsTime => Kind::Word,
            _ => Kind::Whole,
        }
    }

    /// The name, spelled as in the enum; that of an extra dimension is `Extra0` to `Extra7`.
    pub fn name(self) -> &'static str
        ensures name { result.now ≡ name_of self }
        ensures len { length result.now ≤ 17 }
    {
        match self {
            Dim::X => "X",
            Dim::Y => "Y",
            Dim::Z => "Z",
            Dim::Intensity => "Intensity",
            Dim::ReturnNumber => "ReturnNumber",
            Dim::NumberOfReturns => "NumberOfReturns",
            Dim::ScanDirectionFlag => "ScanDirectionFlag",
            Dim::EdgeOfFlightLine => "EdgeOfFlightLine",
            Dim::Classification => "Classification",
            Dim::Synthetic => "Synthetic",
            Dim::KeyPoint => "KeyPoint",
            Dim::Withheld => "Withheld",
            Dim::Overlap => "Overlap",
            Dim::ScanChannel => "ScanChannel",
            Dim::ScanAngleRank => "ScanAngleRank",
            Dim::UserData => "UserData",
            Dim::PointSourceId => "PointSourceId",
            Dim::GpsTime => "GpsTime",
            Dim::Red => "Red",
            Dim::Green => "Green",
            Dim::Blue => "Blue",
            Dim::Infrared => "Infrared",
            Dim::Extra(place) => extra_name(place),
        }
    }

    // The greatest value of a dimension of whole numbers, and 0 for the others.
    pub(crate) fn greatest(self) -> u16
        ensures { result ≡ greatest self }
    {
        match self {
            Dim::Intensity | Dim::PointSourceId => 65535,
            Dim::Red | Dim::Green | Dim::Blue | Dim::Infrared => 65535,
            Dim::ReturnNumber | Dim::NumberOfReturns => 15,
            Dim::Classification | Dim::UserData => 255,
            Dim::ScanDirectionFlag | Dim::EdgeOfFlightLine => 1,
            Dim::Synthetic | Dim::KeyPoint | Dim::Withheld | Dim::Overlap => 1,
            Dim::ScanChannel => 3,
            _ => 0,
        }
    }

    // The least value of a fixed dimension in nanounits, and 0 for the others.
    pub(crate) fn low(self) -> i64
        ensures { result ≡ low_of self }
    {
        match self {
            Dim::X | Dim::Y | Dim::Z | Dim::Extra(_) => -4_000_000_000_000_000_000,
            Dim::ScanAngleRank => -196_608_000_000,
            _ => 0,
        }
    }

    // The greatest value of a fixed dimension in nanounits, and 0 for the others.
    pub(crate) fn high(self) -> i64
        ensures { result ≡ high_of self }
    {
        match self {
            Dim::X | Dim::Y | Dim::Z | Dim::Extra(_) => 4_000_000_000_000_000_000,
            Dim::ScanAngleRank => 196_602_000_000,
            _ => 0,
        }
    }
}
