//! Points, the items that carry them between stages, and what a stage does with them.
#![tactic(auto)]

mod chunk;
mod dims;
mod extra;
mod faults;
mod flow;
mod item;
mod layout;
mod names;
mod point;
mod spread;
mod work;

pub use chunk::Chunk;
pub use dims::{Dim, Kind, OutOfRange};
pub use extra::{ExtraField, ExtraKind, FieldList};
pub use faults::{Make, PointFault, StageFault};
pub use flow::flow_laws;
pub use item::{Body, Item};
pub use layout::Layout;
pub use names::{AddFault, ExtraNames, dim_of, name_of, standard_dim};
pub use point::{MOST_NANO, Point};
pub use spread::{MOST_POINTS, Spread, put_points};
pub use work::Work;
