// The row of a slot: copied in, copied out, cleared.
ghost use Rattle.std.specs.Prelude.{◌≡◌};
ghost use Rattle.rules.specs.Words.{zero_row, row_at, set_row};

use rules::{ROW_WORDS, Row};

// Row i becomes the side buffer.
#[tactic(auto, unfolding(rules::specs::Words::set_row), using(rules::proofs::Rows::copied_in))]
pub fn set_row(rows: &mut [u32], i: u32, side: &[u32])
    ensures { rows.new ≡ set_row rows.old i side.now }
{
    let at = i as usize * ROW_WORDS;
    let end = at + ROW_WORDS;
    if side.len() != ROW_WORDS {
        return;
    }
    if rows.len() < end {
        return;
    }
    rows[at..end].copy_from_slice(side);
}

// Row i becomes zero.
pub fn clear_row(rows: &mut [u32], i: u32)
    ensures { rows.new ≡ set_row rows.old i zero_row }
{
    set_row(rows, i, &[0; ROW_WORDS]);
}

// Row i by value.
#[tactic(auto, unfolding(rules::specs::Words::row_at))]
pub fn row(rows: &[u32], used: u32, i: u32) -> Row
    ensures { result ≡ row_at rows.now used i }
{
    let at = i as usize * ROW_WORDS;
    let mut words = [0; ROW_WORDS];
    if used <= i {
        return words;
    }
    if let Some(row) = rows.get(at..at + ROW_WORDS) {
        words.copy_from_slice(row);
    }
    words
}
