//! The header line.

ghost use Rattle.std.specs.Prelude.{◌≡◌, ◌++◌, ◌∷◌, [], IfOk};
ghost use Rattle.text_writer.specs.TextOutput.{heading, header_line};

use crate::TextForm;
use std::alloc::{AllocError, Global};

/// Adds a name to the header line.
fn add_heading(name: &str, is_quoted: bool, line: &mut Vec<u8>) -> Result<(), AllocError>
    ensures { IfOk result (λ _. line.new.items ≡ line.old.items ++ heading is_quoted name.now) }
{
    if is_quoted {
        line.push(b'"')?;
    }
    line.extend_from_slice(name.as_bytes())?;
    if is_quoted {
        line.push(b'"')?;
    }
    Ok(())
}

/// The line with the names of the columns, where there is one. It is refused where there is no memory for it.
pub(crate) fn header_line(alloc: Global, form: &TextForm) -> Result<Vec<u8>, AllocError>
    ensures { IfOk result (λ line. line.items ≡ header_line form.now) }
{
    let mut line = Vec::new(alloc);
    if !form.write_header {
        return Ok(line);
    }
    let mut is_first = true;
    for column in form.columns.as_slice() {
        if !is_first {
            line.extend_from_slice(form.delimiter.as_str().as_bytes())?;
        }
        is_first = false;
        add_heading(column.name.as_str(), form.quote_header, &mut line)?;
    }
    line.push(b'\n')?;
    Ok(line)
}
