//! The types of stages.

ghost use Rattle.std.specs.Prelude.{◌≡◌, ◌≤◌, length};
ghost use Rattle.stage_names.specs.Kinds.{name_of, kind_named, is_reader, is_writer};

/// The type of a stage, by its name in a pipeline.
#[derive(Clone, Copy, Debug, PartialEq, Eq)]
pub enum KindName {
    /// `readers.las`: reads the points of a LAS file.
    ReadersLas,

    /// `filters.range`: keeps points whose values lie in ranges.
    FiltersRange,

    /// `filters.crop`: keeps points in a box, a disc or a polygon.
    FiltersCrop,

    /// `filters.assign`: gives points new values.
    FiltersAssign,

    /// `filters.ferry`: copies values from one dimension to another.
    FiltersFerry,

    /// `filters.expression`: keeps points for which a condition holds.
    FiltersExpression,

    /// `filters.decimation`: keeps every so manieth point.
    FiltersDecimation,

    /// `filters.head`: keeps the first points of a view.
    FiltersHead,

    /// `filters.returns`: keeps points by their place among the returns of a pulse.
    FiltersReturns,

    /// `filters.plug`: shows points to a filter that the caller handed in.
    FiltersPlug,

    /// `filters.merge`: makes one view of all.
    FiltersMerge,

    /// `filters.sort`: orders the points of a view.
    FiltersSort,

    /// `filters.tail`: keeps the last points of a view.
    FiltersTail,

    /// `filters.groupby`: makes a view for each value of a dimension.
    FiltersGroupby,

    /// `filters.splitter`: makes a view for each square of a grid.
    FiltersSplitter,

    /// `filters.voxeldownsize`: keeps the first point of each voxel.
    FiltersVoxeldownsize,

    /// `writers.las`: writes points as a LAS file.
    WritersLas,

    /// `writers.text`: writes points as lines of text.
    WritersText,

    /// `writers.tally`: shows points to a tally that the caller handed in.
    WritersTally,
}

impl KindName {
    /// The name in a pipeline and in a report.
    pub fn name(self) -> &'static str
        ensures name { result.now ≡ name_of self }
        ensures len { length result.now ≤ 21 }
    {
        match self {
            KindName::ReadersLas => "readers.las",
            KindName::FiltersRange => "filters.range",
            KindName::FiltersCrop => "filters.crop",
            KindName::FiltersAssign => "filters.assign",
            KindName::FiltersFerry => "filters.ferry",
            KindName::FiltersExpression => "filters.expression",
            KindName::FiltersDecimation => "filters.decimation",
            KindName::FiltersHead => "filters.head",
            KindName::FiltersReturns => "filters.returns",
            KindName::FiltersPlug => "filters.plug",
            KindName::FiltersMerge => "filters.merge",
            KindName::FiltersSort => "filters.sort",
            KindName::FiltersTail => "filters.tail",
            KindName::FiltersGroupby => "filters.groupby",
            KindName::FiltersSplitter => "filters.splitter",
            KindName::FiltersVoxeldownsize => "filters.voxeldownsize",
            KindName::WritersLas => "writers.las",
            KindName::WritersText => "writers.text",
            KindName::WritersTally => "writers.tally",
        }
    }

    /// The type with this name; `None` exactly where no type has it.
    #[tactic(auto, unfolding(crate::specs::Kinds::kind_named))]
    pub fn named(name: &str) -> Option<KindName>
        ensures { result ≡ kind_named name.now }
    {
        match name {
            "readers.las" => Some(KindName::ReadersLas),
            "filters.range" => Some(KindName::FiltersRange),
            "filters.crop" => Some(KindName::FiltersCrop),
            "filters.assign" => Some(KindName::FiltersAssign),
            "filters.ferry" => Some(KindName::FiltersFerry),
            "filters.expression" => Some(KindName::FiltersExpression),
            "filters.decimation" => Some(KindName::FiltersDecimation),
            "filters.head" => Some(KindName::FiltersHead),
            "filters.returns" => Some(KindName::FiltersReturns),
            "filters.plug" => Some(KindName::FiltersPlug),
            "filters.merge" => Some(KindName::FiltersMerge),
            "filters.sort" => Some(KindName::FiltersSort),
            "filters.tail" => Some(KindName::FiltersTail),
            "filters.groupby" => Some(KindName::FiltersGroupby),
            "filters.splitter" => Some(KindName::FiltersSplitter),
            "filters.voxeldownsize" => Some(KindName::FiltersVoxeldownsize),
            "writers.las" => Some(KindName::WritersLas),
            "writers.text" => Some(KindName::WritersText),
            "writers.tally" => Some(KindName::WritersTally),
            _ => None,
        }
    }

    /// Whether it reads a file.
    pub fn is_reader(self) -> bool
        ensures { result ≡ is_reader self }
    {
        matches!(self, KindName::ReadersLas)
    }

    /// Whether it writes a file.
    pub fn is_writer(self) -> bool
        ensures { result ≡ is_writer self }
    {
        matches!(self, KindName::WritersLas | KindName::WritersText)
    }
}
