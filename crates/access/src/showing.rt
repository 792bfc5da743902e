// A look at a key by value, for who cannot be handed a part: the replies of the stream, and C.
ghost use Rattle.std.specs.Prelude.{◌≡◌};
ghost use Rattle.rules.specs.Values.{of_key, handed_row};
ghost use Rattle.rules.specs.Access.{look_row_rule};

use refusals::check_key;
use rules::{HandedRow, Header, Key};
use slots::rows::row;

// The eight words of a live key's row; for any other key its number.
#[tactic(auto, unfolding(rules::specs::Access::look_row_rule), using(rules::proofs::Outcomes::outcomes))]
pub fn look_row(links: &[u32], rows: &[u32], header: Header, key: Key) -> HandedRow<Key>
    ensures { handed_row of_key result links.now rows.now ≡ look_row_rule links.now rows.now header key }
{
    if let Err(refusal) = check_key(links, rows, header, key) {
        return HandedRow::refused(refusal, header);
    }
    HandedRow {
        answer: Ok(key),
        row: row(rows, header.used, key.index),
        header,
    }
}
