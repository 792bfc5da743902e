// The soundness check, which hop.rs does not have: passes over the slots below used and one along the chain. Nothing is written.
#![tactic(auto)]

mod circle;
mod ends;

ghost use Rattle.std.specs.Prelude.{◌≡◌};
ghost use Rattle.rules.specs.Refusals.{passes, number_in, entry_number};
ghost use Rattle.rules.specs.Values.{of_done, handed};
ghost use Rattle.rules.specs.Check.{sound_test, sound_number, check_rule};

use circle::circle_closes;
use ends::ends_meet;
use parity::{odd_count, run_count};
use refusals::check_entry;
use rules::{Handed, Header, Refusal};
use slots::words::version;

// The table is sound.
#[tactic(auto, unfolding(rules::specs::Check::sound_test))]
fn is_sound(links: &[u32], header: Header) -> bool
    ensures { result ≡ sound_test links.now header }
{
    let used = header.used;
    version(links, used, 0) % 2 == 0
        && header.live == odd_count(links, used)
        && ends_meet(links, used)
        && circle_closes(links, used, run_count(links, used))
}

// The whole check. The header is of the right shape here, else used could be any number of slots to walk.
#[tactic(auto, unfolding(rules::specs::Check::sound_number), using(rules::proofs::Chain::chain))]
pub fn check_sound(links: &[u32], header: Header) -> Result<(), Refusal>
    ensures { number_in result ≡ sound_number passes links.now header }
{
    if !is_sound(links, header) {
        return Err(Refusal::Damaged);
    }
    Ok(())
}

// What clear and the soundness check itself test: the entry, then the whole table.
#[tactic(auto, unfolding(rules::specs::Check::sound_number), using(rules::proofs::Chain::chain))]
pub fn check_table(links: &[u32], rows: &[u32], header: Header) -> Result<(), Refusal>
    ensures { number_in result ≡ sound_number (entry_number links.now rows.now header) links.now header }
{
    check_entry(links, rows, header)?;
    check_sound(links, header)
}

// Accepts exactly the sound tables.
#[tactic(auto, unfolding(rules::specs::Check::check_rule), using(rules::proofs::Outcomes::outcomes))]
pub fn sound(links: &[u32], rows: &[u32], header: Header) -> Handed<()>
    ensures { handed of_done result links.now rows.now ≡ check_rule links.now rows.now header }
{
    Handed {
        answer: check_table(links, rows, header),
        header,
    }
}
