//! The options of a stage, by its type.

ghost use Rattle.std.specs.Prelude.{◌≡◌, option_map};
ghost use Rattle.option_texts.specs.Ferries.{AreFerries};
ghost use Rattle.stage_options.specs.Ferries.{ferries_in};
ghost use Rattle.stage_options.specs.Where.{only_of};
ghost use Rattle.stage_options.specs.Kinds.{kind_of};
ghost use Rattle.stage_options.specs.Roles.{plug_of, role_of, tally_of};
ghost use Rattle.stage_options.specs.Seen.{role_view};

use crate::assignments::AssignList;
use crate::bounded::{LasFields, Places};
use crate::names::{SourceName, TargetName};
use crate::role::Role;
use expr_lang::Expr;
use file_devices::Name;
use geo_tests::Shape;
use limits_text::RangeList;
use option_texts::{ExtraDims, Groups, NamedColumns, NamedFerries, NamedFerry};
use stage_names::KindName;
use text_writer::Separator;

/// The options of a stage, with their defaults put in.
#[derive(Drop)]
pub enum Options {
    /// Of `readers.las`.
    ReadersLas(LasReaderOptions),

    /// Of `filters.range`.
    FiltersRange(RangeOptions),

    /// Of `filters.crop`.
    FiltersCrop(CropOptions),

    /// Of `filters.assign`.
    FiltersAssign(AssignOptions),

    /// Of `filters.ferry`.
    FiltersFerry(FerryOptions),

    /// Of `filters.expression`.
    FiltersExpression(ExpressionOptions),

    /// Of `filters.head`.
    FiltersHead(HeadOptions),

    /// Of `filters.decimation`.
    FiltersDecimation(DecimationOptions),

    /// Of `filters.returns`.
    FiltersReturns(ReturnsOptions),

    /// Of `filters.plug`.
    FiltersPlug(PlugOptions),

    /// Of `filters.merge`.
    FiltersMerge(MergeOptions),

    /// Of `filters.sort`.
    FiltersSort(SortOptions),

    /// Of `filters.tail`.
    FiltersTail(TailOptions),

    /// Of `filters.groupby`.
    FiltersGroupby(GroupbyOptions),

    /// Of `filters.splitter`.
    FiltersSplitter(SplitterOptions),

    /// Of `filters.voxeldownsize`.
    FiltersVoxeldownsize(VoxeldownsizeOptions),

    /// Of `writers.las`.
    WritersLas(LasWriterOptions),

    /// Of `writers.text`.
    WritersText(TextOptions),

    /// Of `writers.tally`.
    WritersTally(TallyOptions),
}

/// The options of `readers.las`.
#[derive(Drop)]
pub struct LasReaderOptions {
    /// The name of the file.
    pub filename: SourceName,

    /// Whether the extra dimensions that its file describes are read.
    pub extra: bool,
}

/// The options of `filters.range`.
#[derive(Drop)]
pub struct RangeOptions {
    /// Ranges of the values of dimensions; of each dimension that is named one has to hold.
    pub limits: RangeList,

    /// The points that are judged, the others go on; None is all.
    pub only: Option<Expr>,
}

/// The options of `filters.crop`.
#[derive(Drop)]
pub struct CropOptions {
    /// The shape of the points that go on.
    pub shape: Shape,

    /// Whether the points outside go on in place of those inside.
    pub outside: bool,

    /// The points that are judged, the others go on; None is all.
    pub only: Option<Expr>,
}

/// The options of `filters.assign`.
#[derive(Drop)]
pub struct AssignOptions {
    /// The assignments, in the order in which they are made.
    pub assignments: AssignList,

    /// The points at which they are made; None is all.
    pub only: Option<Expr>,
}

/// The options of `filters.ferry`.
#[derive(Drop)]
pub struct FerryOptions {
    /// From which dimensions values go to which, one after the other.
    pub ferries: NamedFerries,

    /// The points whose values go; None is all.
    pub only: Option<Expr>,
}

/// The options of `filters.expression`.
#[derive(Drop)]
pub struct ExpressionOptions {
    /// The condition of points that go on.
    pub expression: Expr,

    /// The points that are judged, the others go on; None is all.
    pub only: Option<Expr>,
}

/// The options of `filters.head`.
#[derive(Drop)]
pub struct HeadOptions {
    /// How many points of a view pass.
    pub count: u32,

    /// The points that are counted, the others go on; None is all.
    pub only: Option<Expr>,
}

/// The options of `filters.decimation`.
#[derive(Drop)]
pub struct DecimationOptions {
    /// From one position that goes on to the next.
    pub step: u32,

    /// The first position that goes on.
    pub offset: u32,

    /// No position from here on goes on; None is no limit.
    pub limit: Option<u32>,

    /// The points that are counted, the others go on; None is all.
    pub only: Option<Expr>,
}

/// The options of `filters.returns`.
#[derive(Drop)]
pub struct ReturnsOptions {
    /// The groups of returns that go on.
    pub groups: Groups,

    /// The points that are judged, the others go on; None is all.
    pub only: Option<Expr>,
}

/// The options of `filters.plug`.
#[derive(Drop)]
pub struct PlugOptions {
    /// The name of the filter that the caller handed in.
    pub plug: Name,

    /// The points that it is shown, the others go on; None is all.
    pub only: Option<Expr>,
}

/// The options of `filters.merge`: it has none.
#[derive(Drop)]
pub struct MergeOptions {}

/// The options of `filters.sort`.
#[derive(Drop)]
pub struct SortOptions {
    /// The name of the dimension whose values are put in order.
    pub dimension: Name,

    /// Whether the greatest value comes first.
    pub down: bool,
}

/// The options of `filters.tail`.
#[derive(Drop)]
pub struct TailOptions {
    /// How many points of a view pass, its last ones.
    pub count: u32,
}

/// The options of `filters.groupby`.
#[derive(Drop)]
pub struct GroupbyOptions {
    /// The name of the dimension of whose values each gets a view.
    pub dimension: Name,
}

/// The options of `filters.splitter`.
#[derive(Drop)]
pub struct SplitterOptions {
    /// The length of the edge of a square, in nanounits, 1 to 10^18.
    pub length: i64,

    /// X of a corner of a square, in nanounits, at most 4 * 10^18 in size.
    pub origin_x: i64,

    /// Y of that corner, in nanounits, at most 4 * 10^18 in size.
    pub origin_y: i64,
}

/// The options of `filters.voxeldownsize`.
#[derive(Drop)]
pub struct VoxeldownsizeOptions {
    /// The length of the edge of a voxel, in nanounits, 1 to 10^18.
    pub cell: i64,
}

/// The options of `writers.las`.
#[derive(Drop)]
pub struct LasWriterOptions {
    /// The name of the file, or with a `#` of the files of the views.
    pub filename: TargetName,

    /// What its header block says, and what is forwarded.
    pub fields: LasFields,

    /// The extra dimensions that are written; None is none.
    pub extra: Option<ExtraDims>,

    /// The points that are written; None is all.
    pub only: Option<Expr>,
}

/// The options of `writers.text`.
#[derive(Drop)]
pub struct TextOptions {
    /// The name of the file, or with a `#` of the files of the views.
    pub filename: TargetName,

    /// The columns, in their order.
    pub columns: NamedColumns,

    /// The decimal places of a column that says none.
    pub precision: Places,

    /// What stands between two columns.
    pub delimiter: Separator,

    /// Whether the names of the columns stand in double quotes.
    pub quote_header: bool,

    /// Whether the file begins with a line of the names of the columns.
    pub write_header: bool,

    /// The points that are written; None is all.
    pub only: Option<Expr>,
}

/// The options of `writers.tally`.
#[derive(Drop)]
pub struct TallyOptions {
    /// The name of the tally that the caller handed in.
    pub tally: Name,

    /// The points that it is shown; None is all.
    pub only: Option<Expr>,
}

impl Options {
    /// The type of the stages that have such options.
    pub fn kind(&self) -> KindName
        ensures { result ≡ kind_of self.now }
    {
        match self {
            Options::ReadersLas(_) => KindName::ReadersLas,
            Options::FiltersRange(_) => KindName::FiltersRange,
            Options::FiltersCrop(_) => KindName::FiltersCrop,
            Options::FiltersAssign(_) => KindName::FiltersAssign,
            Options::FiltersFerry(_) => KindName::FiltersFerry,
            Options::FiltersExpression(_) => KindName::FiltersExpression,
            Options::FiltersDecimation(_) => KindName::FiltersDecimation,
            Options::FiltersHead(_) => KindName::FiltersHead,
            Options::FiltersReturns(_) => KindName::FiltersReturns,
            Options::FiltersPlug(_) => KindName::FiltersPlug,
            Options::FiltersMerge(_) => KindName::FiltersMerge,
            Options::FiltersSort(_) => KindName::FiltersSort,
            Options::FiltersTail(_) => KindName::FiltersTail,
            Options::FiltersGroupby(_) => KindName::FiltersGroupby,
            Options::FiltersSplitter(_) => KindName::FiltersSplitter,
            Options::FiltersVoxeldownsize(_) => KindName::FiltersVoxeldownsize,
            Options::WritersLas(_) => KindName::WritersLas,
            Options::WritersText(_) => KindName::WritersText,
            Options::WritersTally(_) => KindName::WritersTally,
        }
    }

    /// What a stage with these options does with files and views.
    pub fn role(&self) -> Role<'_>
        ensures { role_view result ≡ role_of self.now }
    {
        match self {
            Options::ReadersLas(options) => Role::Reads(options.filename.as_str()),
            Options::WritersLas(options) => Role::writing(options.filename.as_str()),
            Options::WritersText(options) => Role::writing(options.filename.as_str()),
            Options::FiltersSort(_)
            | Options::FiltersTail(_)
            | Options::FiltersGroupby(_)
            | Options::FiltersSplitter(_)
            | Options::FiltersVoxeldownsize(_) => Role::Gathers,
            Options::FiltersRange(_)
            | Options::FiltersCrop(_)
            | Options::FiltersAssign(_)
            | Options::FiltersFerry(_)
            | Options::FiltersExpression(_)
            | Options::FiltersDecimation(_)
            | Options::FiltersHead(_)
            | Options::FiltersReturns(_)
            | Options::FiltersPlug(_)
            | Options::FiltersMerge(_)
            | Options::WritersTally(_) => Role::Filters,
        }
    }

    /// The condition of the points that a stage with these options judges, writes or shows; None is all.
    pub fn only(&self) -> Option<&Expr>
        ensures { option_map (λ e. e.now) result ≡ only_of self.now }
    {
        match self {
            Options::FiltersRange(options) => options.only.as_ref(),
            Options::FiltersCrop(options) => options.only.as_ref(),
            Options::FiltersAssign(options) => options.only.as_ref(),
            Options::FiltersFerry(options) => options.only.as_ref(),
            Options::FiltersExpression(options) => options.only.as_ref(),
            Options::FiltersDecimation(options) => options.only.as_ref(),
            Options::FiltersHead(options) => options.only.as_ref(),
            Options::FiltersReturns(options) => options.only.as_ref(),
            Options::FiltersPlug(options) => options.only.as_ref(),
            Options::WritersLas(options) => options.only.as_ref(),
            Options::WritersText(options) => options.only.as_ref(),
            Options::WritersTally(options) => options.only.as_ref(),
            _ => None,
        }
    }

    /// The name of the caller's filter to which a stage with these options shows its points; None exactly where it shows them to none.
    pub fn plug(&self) -> Option<&str>
        ensures { option_map (λ s. s.now) result ≡ plug_of self.now }
    {
        match self {
            Options::FiltersPlug(options) => Some(options.plug.as_str()),
            _ => None,
        }
    }

    /// The name of the caller's tally to which a stage with these options shows its points; None exactly where it shows them to none.
    pub fn tally(&self) -> Option<&str>
        ensures { option_map (λ s. s.now) result ≡ tally_of self.now }
    {
        match self {
            Options::WritersTally(options) => Some(options.tally.as_str()),
            _ => None,
        }
    }

    /// The ferries of a stage with these options, in the order in which they go; only `filters.ferry` has some.
    pub fn ferries(&self) -> &[NamedFerry]
        ensures ferries { result.now ≡ ferries_in self.now }
        ensures named { AreFerries result.now }
    {
        match self {
            Options::FiltersFerry(options) => options.ferries.as_slice(),
            _ => &[],
        }
    }
}
