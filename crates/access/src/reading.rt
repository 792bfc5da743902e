// A look at a key, to read.
ghost use Rattle.rules.specs.Access.{RowPart};

use crate::place::row_span;
use rules::{Header, Key};

// The eight words of a live key's row where they lie in the row table; an empty part for any other key.
pub fn look<'a>(links: &[u32], rows: &'a [u32], header: Header, key: Key) -> &'a [u32]
    ensures { RowPart links.now rows.entry header key result }
{
    let span = row_span(links, rows, header, key);
    &rows[span.start..span.end]
}
