// Replace: a whole row written at once.
ghost use Rattle.std.specs.Prelude.{◌≡◌};
ghost use Rattle.rules.specs.Refusals.{number_in};
ghost use Rattle.rules.specs.Values.{of_done, handed};
ghost use Rattle.rules.specs.Access.{replace_number, replace_rule};

use refusals::{check_live, check_side_entry};
use rules::{Handed, Header, Key, ROW_WORDS, Refusal};
use slots::rows::set_row;

#[tactic(auto, unfolding(rules::specs::Access::replace_number, rules::specs::Refusals::live_number), using(rules::proofs::Chain::chain))]
fn check_replace(
    links: &[u32],
    rows: &[u32],
    header: Header,
    key: Key,
    side: &[u32],
) -> Result<(), Refusal>
    ensures { number_in result ≡ replace_number links.now rows.now header key side.now }
{
    check_side_entry(links, rows, header, side.len(), ROW_WORDS)?;
    check_live(links, header, key)
}

// The row of a live key becomes the side buffer: its part of the table is lent on, so no other row can change.
#[tactic(auto, unfolding(rules::specs::Access::replace_rule), using(rules::proofs::Outcomes::outcomes))]
pub fn replace(
    links: &[u32],
    rows: &mut [u32],
    header: Header,
    key: Key,
    side: &[u32],
) -> Handed<()>
    ensures { handed of_done result links.now rows.new ≡ replace_rule links.now rows.old header key side.now }
{
    if let Err(refusal) = check_replace(links, rows, header, key, side) {
        return Handed::refused(refusal, header);
    }
    let at = key.index as usize * ROW_WORDS;
    set_row(&mut rows[at..at + ROW_WORDS], 0, side);
    Handed {
        answer: Ok(()),
        header,
    }
}
