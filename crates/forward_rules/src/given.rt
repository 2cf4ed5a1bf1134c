//! The options that give a value.

ghost use Rattle.std.specs.Prelude.{◌≡◌, option_map};
ghost use Rattle.forward_rules.specs.Values.{filled};
ghost use Rattle.forward_rules.specs.States.{given_of};

use crate::LasOpts;
use crate::values::{TEXT_SIZE, filled};
use decimal_coords::Scale;
use file_devices::Name;
use las_header::Format;

/// The values that options give, those of texts as the header has them.
#[derive(Clone, Copy)]
pub(crate) struct GivenValues {
    pub(crate) format: Option<Format>,
    pub(crate) minor: Option<u8>,
    pub(crate) scale: [Option<Scale>; 3],
    pub(crate) offset: [Option<i64>; 3],
    pub(crate) source_id: Option<u16>,
    pub(crate) encoding: Option<u16>,
    pub(crate) day: Option<u16>,
    pub(crate) year: Option<u16>,
    pub(crate) system: Option<[u8; TEXT_SIZE]>,
    pub(crate) software: Option<[u8; TEXT_SIZE]>,
}

/// A given text, as the header has it.
fn filled_name(name: &Option<Name>) -> Option<[u8; TEXT_SIZE]>
    ensures { result ≡ option_map filled name.now }
{
    match name {
        Some(name) => Some(filled(name.as_str())),
        None => None,
    }
}

impl GivenValues {
    pub(crate) fn of(opts: &LasOpts) -> GivenValues
        ensures { result ≡ given_of opts.now }
    {
        GivenValues {
            format: opts.format,
            minor: opts.minor,
            scale: opts.scale,
            offset: opts.offset,
            source_id: opts.source_id,
            encoding: opts.encoding,
            day: opts.day,
            year: opts.year,
            system: filled_name(&opts.system),
            software: filled_name(&opts.software),
        }
    }
}
