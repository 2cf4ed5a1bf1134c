//! The table of the options.

ghost use Rattle.std.specs.Prelude.{◌≡◌};
ghost use Rattle.stage_options.specs.Rules.{rules_of};
ghost use Rattle.stage_options.specs.Seen.{allowed_view, rule_view, rules_view};

use stage_names::KindName;

/// What an option may hold.
#[derive(Clone, Copy, Drop)]
pub enum Allowed {
    /// A whole number from the first to the second.
    Whole(u32, u32),

    /// A decimal from the first to the second, in nanounits.
    Decimal(i64, i64),

    /// The number of a point data record format.
    Format,

    /// A truth value.
    Truth,

    /// A text of at least so many bytes and at most so many.
    Sized(usize, usize),

    /// A text.
    Text,

    /// One of two texts.
    Either(&'static str, &'static str),

    /// This text.
    Exactly(&'static str),

    /// The columns of a text file.
    Columns,

    /// The names of what is forwarded.
    Forward,

    /// Ranges of the values of dimensions.
    Ranges,

    /// A box.
    Bounds,

    /// A ring of corners.
    Polygon,

    /// A point.
    Point,

    /// From which dimensions values go to which.
    Ferries,

    /// Groups of returns.
    Groups,

    /// The extra dimensions of a LAS file.
    ExtraDims,

    /// The text of a condition.
    Condition,

    /// The text of an assignment, or 1 to 64 such texts.
    Assignments,

    /// The name of a file that is read.
    Source,

    /// The name of a file that is written.
    Target,
}

/// One option of a type, by its name and what it may hold.
#[derive(Clone, Copy, Drop)]
pub enum Rule {
    /// It has to be there.
    Required(&'static str, Allowed),

    /// It may be there.
    Optional(&'static str, Allowed),

    /// Just one of several has to be there: of those before it, itself, and those behind it.
    OneOf(&'static str, Allowed, &'static [&'static str], &'static [&'static str]),

    /// It has to be there where the other one is, and may not be there else.
    AlongWith(&'static str, Allowed, &'static str),

    /// It may be there, but not with a value of the second kind where the other one has one of the third.
    Apart(&'static str, Allowed, Allowed, &'static str, Allowed),
}

impl Rule {
    /// Its name.
    pub fn name(&self) -> &'static str
        ensures { result.now ≡ (rule_view self.now).name }
    {
        match self {
            Rule::Required(name, _)
            | Rule::Optional(name, _)
            | Rule::OneOf(name, _, _, _)
            | Rule::AlongWith(name, _, _)
            | Rule::Apart(name, _, _, _, _) => name,
        }
    }

    /// What it may hold.
    pub fn allowed(&self) -> Allowed
        ensures { allowed_view result ≡ (rule_view self.now).allowed }
    {
        match self {
            Rule::Required(_, allowed)
            | Rule::Optional(_, allowed)
            | Rule::OneOf(_, allowed, _, _)
            | Rule::AlongWith(_, allowed, _)
            | Rule::Apart(_, allowed, _, _, _) => *allowed,
        }
    }
}

/// A scale factor, from 10^-9 to 1.
const SCALE: Allowed = Allowed::Decimal(1, 1_000_000_000);

/// An offset, below 10^9 in size.
const OFFSET: Allowed = Allowed::Decimal(-999_999_999_999_999_999, 999_999_999_999_999_999);

/// A radius, up to 4 * 10^9.
const DISTANCE: Allowed = Allowed::Decimal(0, 4_000_000_000_000_000_000);

/// The edge of a square or a voxel, from 10^-9 to 10^9.
const EDGE: Allowed = Allowed::Decimal(1, 1_000_000_000_000_000_000);

/// A coordinate, up to 4 * 10^9 in size.
const COORDINATE: Allowed = Allowed::Decimal(-4_000_000_000_000_000_000, 4_000_000_000_000_000_000);

/// A field of 16 bits.
const SHORT: Allowed = Allowed::Whole(0, 65_535);

/// The options of `readers.las`.
const READERS_LAS: &[Rule] = &[
    Rule::Required("filename", Allowed::Source),
    Rule::Optional("use_eb_vlr", Allowed::Truth),
];

/// Which points a stage judges, writes or shows.
const WHERE: Rule = Rule::Optional("where", Allowed::Condition);

/// The options of `filters.range`.
const FILTERS_RANGE: &[Rule] = &[Rule::Required("limits", Allowed::Ranges), WHERE];

/// The options of `filters.crop`.
const FILTERS_CROP: &[Rule] = &[
    Rule::OneOf("bounds", Allowed::Bounds, &[], &["polygon", "point"]),
    Rule::OneOf("polygon", Allowed::Polygon, &["bounds"], &["point"]),
    Rule::OneOf("point", Allowed::Point, &["bounds", "polygon"], &[]),
    Rule::AlongWith("distance", DISTANCE, "point"),
    Rule::Optional("outside", Allowed::Truth),
    WHERE,
];

/// The options of `filters.assign`.
const FILTERS_ASSIGN: &[Rule] = &[Rule::Required("value", Allowed::Assignments), WHERE];

/// The options of `filters.ferry`.
const FILTERS_FERRY: &[Rule] = &[Rule::Required("dimensions", Allowed::Ferries), WHERE];

/// The options of `filters.expression`.
const FILTERS_EXPRESSION: &[Rule] = &[Rule::Required("expression", Allowed::Condition), WHERE];

/// The options of `filters.decimation`.
const FILTERS_DECIMATION: &[Rule] = &[
    Rule::Optional("step", Allowed::Whole(1, 4_294_967_295)),
    Rule::Optional("offset", Allowed::Whole(0, 4_294_967_295)),
    Rule::Optional("limit", Allowed::Whole(0, 4_294_967_295)),
    WHERE,
];

/// The options of `filters.head`.
const FILTERS_HEAD: &[Rule] = &[
    Rule::Optional("count", Allowed::Whole(0, 4_294_967_295)),
    WHERE,
];

/// The options of `filters.returns`.
const FILTERS_RETURNS: &[Rule] = &[Rule::Optional("groups", Allowed::Groups), WHERE];

/// The options of `filters.plug`.
const FILTERS_PLUG: &[Rule] = &[Rule::Required("plug", Allowed::Text), WHERE];

/// The options of `filters.sort`.
const FILTERS_SORT: &[Rule] = &[
    Rule::Required("dimension", Allowed::Text),
    Rule::Optional("order", Allowed::Either("ASC", "DESC")),
    Rule::Optional("algorithm", Allowed::Either("normal", "stable")),
];

/// The options of `filters.tail`.
const FILTERS_TAIL: &[Rule] = &[Rule::Optional("count", Allowed::Whole(0, 4_294_967_295))];

/// The options of `filters.groupby`.
const FILTERS_GROUPBY: &[Rule] = &[Rule::Required("dimension", Allowed::Text)];

/// The options of `filters.splitter`.
const FILTERS_SPLITTER: &[Rule] = &[
    Rule::Required("length", EDGE),
    Rule::Optional("origin_x", COORDINATE),
    Rule::Optional("origin_y", COORDINATE),
];

/// The options of `filters.voxeldownsize`.
const FILTERS_VOXELDOWNSIZE: &[Rule] = &[
    Rule::Required("cell", EDGE),
    Rule::Optional("mode", Allowed::Exactly("first")),
];

/// The options of `writers.las`.
const WRITERS_LAS: &[Rule] = &[
    Rule::Required("filename", Allowed::Target),
    Rule::Optional("dataformat_id", Allowed::Format),
    Rule::Apart(
        "minor_version",
        Allowed::Whole(2, 4),
        Allowed::Whole(2, 3),
        "dataformat_id",
        Allowed::Whole(6, 8),
    ),
    Rule::Optional("scale_x", SCALE),
    Rule::Optional("scale_y", SCALE),
    Rule::Optional("scale_z", SCALE),
    Rule::Optional("offset_x", OFFSET),
    Rule::Optional("offset_y", OFFSET),
    Rule::Optional("offset_z", OFFSET),
    Rule::Optional("forward", Allowed::Forward),
    Rule::Optional("filesource_id", SHORT),
    Rule::Optional("global_encoding", SHORT),
    Rule::Optional("creation_doy", SHORT),
    Rule::Optional("creation_year", SHORT),
    Rule::Optional("system_id", Allowed::Sized(0, 32)),
    Rule::Optional("software_id", Allowed::Sized(0, 32)),
    Rule::Optional("extra_dims", Allowed::ExtraDims),
    WHERE,
];

/// The options of `writers.text`.
const WRITERS_TEXT: &[Rule] = &[
    Rule::Required("filename", Allowed::Target),
    Rule::Optional("order", Allowed::Columns),
    Rule::Optional("precision", Allowed::Whole(0, 9)),
    Rule::Optional("delimiter", Allowed::Sized(1, 8)),
    Rule::Optional("quote_header", Allowed::Truth),
    Rule::Optional("write_header", Allowed::Truth),
    WHERE,
];

/// The options of `writers.tally`.
const WRITERS_TALLY: &[Rule] = &[Rule::Required("tally", Allowed::Text), WHERE];

/// The options of a type, in the order in which they are looked at. A merge has none.
pub fn rules_of(kind: KindName) -> &'static [Rule]
    ensures { rules_view result.now ≡ rules_of kind }
{
    match kind {
        KindName::ReadersLas => READERS_LAS,
        KindName::FiltersRange => FILTERS_RANGE,
        KindName::FiltersCrop => FILTERS_CROP,
        KindName::FiltersAssign => FILTERS_ASSIGN,
        KindName::FiltersFerry => FILTERS_FERRY,
        KindName::FiltersExpression => FILTERS_EXPRESSION,
        KindName::FiltersDecimation => FILTERS_DECIMATION,
        KindName::FiltersHead => FILTERS_HEAD,
        KindName::FiltersReturns => FILTERS_RETURNS,
        KindName::FiltersPlug => FILTERS_PLUG,
        KindName::FiltersMerge => &[],
        KindName::FiltersSort => FILTERS_SORT,
        KindName::FiltersTail => FILTERS_TAIL,
        KindName::FiltersGroupby => FILTERS_GROUPBY,
        KindName::FiltersSplitter => FILTERS_SPLITTER,
        KindName::FiltersVoxeldownsize => FILTERS_VOXELDOWNSIZE,
        KindName::WritersLas => WRITERS_LAS,
        KindName::WritersText => WRITERS_TEXT,
        KindName::WritersTally => WRITERS_TALLY,
    }
}
