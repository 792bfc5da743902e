// A look at a key, to write through.
ghost use Rattle.rules.specs.Access.{RowPartMut};

use crate::place::row_span;
use rules::{Header, Key};

// The same part as look's, to write through. What the table holds afterwards is not in this promise: docs/EXCEPTIONS.md.
pub fn look_mut<'a>(links: &[u32], rows: &'a mut [u32], header: Header, key: Key) -> &'a mut [u32]
    ensures { RowPartMut links.now rows.entry header key result }
{
    let span = row_span(links, rows, header, key);
    &mut rows[span.start..span.end]
}
