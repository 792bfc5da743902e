// Retain: the whole soundness check, then the scan. hop.rs 603-631
#![tactic(auto)]

ghost use Rattle.std.specs.Prelude.{◌≡◌};
ghost use Rattle.rules.specs.Refusals.{number_in};
ghost use Rattle.rules.specs.Values.{of_count, handed};
ghost use Rattle.rules.specs.Retain.{retain_number, retain_rule};

use refusals::check_side_entry;
use rules::{Handed, Header, Refusal};
use sound::check_sound;
use strike::scan;

#[tactic(auto, unfolding(rules::specs::Retain::retain_number, rules::specs::Check::sound_number), using(rules::proofs::Chain::chain))]
fn check_retain(links: &[u32], rows: &[u32], header: Header, bytes: &[u8]) -> Result<(), Refusal>
    ensures { number_in result ≡ retain_number links.now rows.now header bytes.now }
{
    check_side_entry(links, rows, header, bytes.len(), header.used as usize)?;
    check_sound(links, header)
}

// Keeps the live rows whose byte is not 0, and answers how many went.
#[tactic(auto, unfolding(rules::specs::Retain::retain_rule), using(rules::proofs::Outcomes::outcomes, runs::proofs::Scanned::retain_scans))]
pub fn retain(links: &mut [u32], rows: &mut [u32], header: Header, bytes: &[u8]) -> Handed<u32>
    ensures { handed of_count result links.new rows.new ≡ retain_rule links.old rows.old header bytes.now }
{
    if let Err(refusal) = check_retain(links, rows, header, bytes) {
        return Handed::refused(refusal, header);
    }
    let struck = scan(links, rows, header, bytes);
    Handed {
        answer: Ok(struck.count),
        header: struck.header,
    }
}
