//! The squares and the voxels that options ask for.

ghost use Rattle.std.specs.Prelude.{◌≡◌};
ghost use Rattle.name_binding.specs.Binding.{edge_of, squares_of};

use stage_options::SplitterOptions;
use whole_filters::{EdgeLength, Squares};

/// So many nanounits as the length of an edge; less than 1 counts as 1.
pub(crate) fn edge_of(nano: i64) -> EdgeLength
    ensures { result ≡ edge_of nano }
{
    EdgeLength::new(nano.max(1))
}

/// The squares of a splitter.
pub(crate) fn squares_of(options: &SplitterOptions) -> Squares
    ensures { result ≡ squares_of options.now }
{
    Squares {
        length: edge_of(options.length),
        x: options.origin_x,
        y: options.origin_y,
    }
}
