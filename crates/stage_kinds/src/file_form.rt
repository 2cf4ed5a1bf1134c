//! The files that stages write, and what a stage is made of.

use crate::Making;
use cloud_points::FieldList;
use expr_eval::Bound;
use forward_rules::LasForm;
use stream_filters::Filter;
use text_writer::TextForm;

/// The form of a file that a stage writes.
#[derive(Drop)]
pub enum FileForm {
    /// Lines of text.
    Text(TextForm),

    /// A LAS file.
    Las(LasForm),
}

/// What a stage writes.
#[derive(Drop)]
pub struct Writing {
    /// The form of the file.
    pub form: FileForm,

    /// The points that stand in it are those for which this condition holds; None is all.
    pub only: Option<Bound>,
}

/// What a stage does, beside its device: its work is made of it.
#[derive(Drop)]
pub enum StageForm {
    /// It reads a file, with these extra dimensions of its points.
    Reads(FieldList),

    /// It is a filter.
    Filters(Filter),

    /// It shows the points for which this condition holds to a filter of the caller; None is all.
    Plugs(Option<Bound>),

    /// It shows the points for which this condition holds to a tally of the caller; None is all.
    Tallies(Option<Bound>),

    /// It needs whole views, and makes this of them.
    Gathers(Making),

    /// It writes a file.
    Writes(Writing),
}
