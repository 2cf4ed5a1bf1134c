//! What stages hand to each other.

ghost use Rattle.std.specs.Prelude.{◌≡◌};
ghost use Rattle.cloud_points.specs.Bodies.{body_ends};

use crate::chunk::Chunk;

/// What an item brings: points, the end of a view, or the end of all and whether it was cut.
#[derive(Debug, Drop)]
pub enum Body {
    Points(Chunk),
    EndView,
    End(bool),
}

/// One item of a queue. Its number is its place among all items of that queue, counted from 0.
#[derive(Debug, Drop)]
pub struct Item {
    pub no: u64,
    pub body: Body,
}

impl Item {
    /// Whether it is the end of all.
    pub fn is_end(&self) -> bool
        ensures { result ≡ body_ends self.now.body }
    {
        match &self.body {
            Body::Points(_) => false,
            Body::EndView => false,
            Body::End(_) => true,
        }
    }
}
