// Rebuild: versions and rows that another hand put in place become a map. First every refusal, by reading alone (presence);
// then the rows of vacant slots are cleared and the slots linked anew (relink). hop.rs 1379-1404 and 1417-1472
#![tactic(auto)]

mod presence;

ghost use Rattle.std.specs.Prelude.{◌≡◌};
ghost use Rattle.rules.specs.Values.{of_done, handed};
ghost use Rattle.rules.specs.Rebuild.{rebuild_rule};

use presence::check_rebuild;
use relink::{clear_vacant_rows, relink};
use rules::{Handed, Header};

// One presence byte a slot says how many slots there are and which are live. The old header is not looked at: it comes
// back if the call is refused.
#[tactic(auto, unfolding(rules::specs::Rebuild::rebuild_rule), using(rules::proofs::Outcomes::outcomes, rules::proofs::Rebuild::rebuild_passed))]
pub fn rebuild(links: &mut [u32], rows: &mut [u32], header: Header, presence: &[u8]) -> Handed<()>
    ensures { handed of_done result links.new rows.new ≡ rebuild_rule links.old rows.old header presence.now }
{
    if let Err(refusal) = check_rebuild(links, rows, presence) {
        return Handed::refused(refusal, header);
    }
    let n = presence.len() as u32;
    clear_vacant_rows(links, rows, n);
    Handed {
        answer: Ok(()),
        header: relink(links, n),
    }
}
