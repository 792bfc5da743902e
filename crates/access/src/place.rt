// Where the part lies that a look at a key hands back. It takes both tables by `&`: nothing here can write.
ghost use Rattle.std.specs.Prelude.{◌≡◌, ◌+◌, length};
ghost use Rattle.rules.specs.Access.{look_rule, look_start};

use refusals::check_key;
use rules::{Header, Key, ROW_WORDS};
use std::ops::Range;

// The words of the row table that are the row of a live key; none for any other key.
pub fn row_span(links: &[u32], rows: &[u32], header: Header, key: Key) -> Range<usize>
    ensures start { result.start ≡ look_start links.now rows.now header key }
    ensures end { result.end ≡ look_start links.now rows.now header key + length (look_rule links.now rows.now header key) }
{
    if let Err(_) = check_key(links, rows, header, key) {
        return 0..0;
    }
    let start = key.index as usize * ROW_WORDS;
    start..start + ROW_WORDS
}
