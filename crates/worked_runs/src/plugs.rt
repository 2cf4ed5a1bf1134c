//! A filter beside those that the program ships.

use cloud_points::Point;
use plug_stages::PlugFilter;
use std::alloc::{AllocError, Global};

/// A filter of any name, which keeps each point.
#[derive(Drop)]
pub(crate) struct KeepsAll {
    name: String,
}

impl PlugFilter for KeepsAll {
    ghost use Rattle.std.specs.Prelude.{[], Some, string_bytes};

    ghost called = { λ k. string_bytes k.name };

    ghost state = { λ _. [] };

    ghost opening = { λ _. [] };

    ghost step = { λ _ s p. (s, Some p) };

    fn name(&self) -> &str {
        self.name.as_str()
    }

    fn begin_view(&mut self) {}

    fn point(&mut self, _p: &mut Point) -> bool {
        true
    }
}

/// A boxed one, called `keep` and this number.
pub(crate) fn keeps(alloc: Global, number: u32) -> Result<Box<KeepsAll>, AllocError> {
    let name = format!(in alloc; "keep{number}")?;
    Ok(Box::new(alloc, KeepsAll { name })?)
}
