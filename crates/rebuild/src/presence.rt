// What refuses a rebuild: what is lent, then the presence bytes beside the versions.
ghost use Rattle.std.specs.Prelude.{◌≡◌};
ghost use Rattle.rules.specs.Choice.{some_below};
ghost use Rattle.rules.specs.Refusals.{number_in};
ghost use Rattle.rules.specs.Rebuild.{wrong_bit, wrong_byte, rebuild_number};

use refusals::check_lent;
use rules::{LINK_WORDS, Refusal};
use slots::words::version;

// A byte that is not 0 or 1, or is not the lowest bit of v, its slot's version.
fn wrong_bit(byte: u8, v: u32) -> bool
    ensures { result ≡ wrong_bit byte v }
{
    1 < byte || u32::from(byte) != v % 2
}

// The byte of slot i, of n, is wrong; one that is not there counts as 0.
#[tactic(auto, unfolding(rules::specs::Rebuild::wrong_byte))]
fn wrong_byte(links: &[u32], n: u32, presence: &[u8], i: u32) -> bool
    ensures { result ≡ wrong_byte links.now n presence.now i }
{
    let byte = presence.get(i as usize).copied().unwrap_or(0);
    wrong_bit(byte, version(links, n, i))
}

// The byte of some slot below n is wrong.
#[tactic(auto, unfolding(rules::specs::Choice::some_below))]
fn some_wrong(links: &[u32], presence: &[u8], n: u32) -> bool
    ensures { result ≡ some_below n (wrong_byte links.now n presence.now) }
{
    for i in 0..n {
        if wrong_byte(links, n, presence, i) {
            return true;
        }
    }
    false
}

// The tests of the bytes wait for those of their number, which then fits a word: no more bytes than slots are read.
#[tactic(auto, unfolding(rules::specs::Rebuild::rebuild_number), using(rules::proofs::Chain::chain, rules::proofs::Shape::lent))]
pub fn check_rebuild(links: &[u32], rows: &[u32], presence: &[u8]) -> Result<(), Refusal>
    ensures { number_in result ≡ rebuild_number links.now rows.now presence.now }
{
    check_lent(links.len(), rows.len())?;
    if presence.is_empty() || links.len() / LINK_WORDS < presence.len() {
        return Err(Refusal::Shape);
    }
    let n = presence.len() as u32;
    if some_wrong(links, presence, n) {
        return Err(Refusal::WrongPresence);
    }
    if version(links, n, 0) % 2 == 1 {
        return Err(Refusal::ZeroOccupied);
    }
    Ok(())
}
