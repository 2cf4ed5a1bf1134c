//! The options of a text file.

ghost use Rattle.std.specs.Prelude.{◌≡◌, IfOk};
ghost use Rattle.serde_json.specs.View.{members_view};
ghost use Rattle.stage_typing.specs.Typed.{columns_in, text_options_in};

use crate::members::{text_in, text_of, truth_or, where_in, whole_in};
use option_texts::{NamedColumns, columns_of};
use serde_json::{Map, Value};
use stage_options::{Places, TargetName, TextOptions, name_from};
use std::alloc::{AllocError, Global};
use text_writer::Separator;

/// The columns of a text file: by default X, Y and Z.
fn columns_in(alloc: Global, options: &Map<String, Value>) -> Result<NamedColumns, AllocError>
    ensures { IfOk result (λ columns. columns ≡ columns_in (members_view options.now.entries)) }
{
    let text = text_of(options, "order").unwrap_or("X,Y,Z");
    match columns_of(alloc, text)? {
        Some(columns) => Ok(columns),
        None => Ok(NamedColumns::none(alloc)),
    }
}

/// What a text writer is told of its file.
pub(crate) fn text_options(
    alloc: Global,
    filename: TargetName,
    options: &Map<String, Value>,
) -> Result<TextOptions, AllocError>
    ensures { IfOk result (λ text. text ≡ text_options_in filename (members_view options.now.entries)) }
{
    let columns = columns_in(alloc, options)?;
    let delimiter = name_from(alloc, text_in(options, 1, 8, "delimiter").unwrap_or(","))?;
    let precision = whole_in(options, 0, 9, "precision").unwrap_or(3);
    let only = where_in(alloc, options)?;
    Ok(TextOptions {
        filename,
        columns,
        precision: Places::new(precision),
        delimiter: Separator::new(delimiter),
        quote_header: truth_or(options, "quote_header", true),
        write_header: truth_or(options, "write_header", true),
        only,
    })
}
