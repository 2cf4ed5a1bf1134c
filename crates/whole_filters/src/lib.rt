//! Held views of points, and the filters that need whole views: sort, tail, groupby, and by any key of the points groups and the
//! first point of each.
#![tactic(auto)]

mod gathering;
mod grouping;
mod keys;
mod laws;
mod lengths;
mod ordering;
mod places;
mod points;
mod rows;
mod seeded;
mod tailing;
mod thinning;
mod views;
mod words;

pub use gathering::{Gathering, Squares};
pub use grouping::{group_by, groupby};
pub use keys::PointKey;
pub use laws::{first_of_each_laws, group_laws, sort_laws};
pub use lengths::EdgeLength;
pub use ordering::sort;
pub use rows::Rows;
pub use tailing::tail;
pub use thinning::first_of_each;
pub use views::Views;
