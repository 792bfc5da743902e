// Start and room: the calls that take no key and follow no link.
#![tactic(auto)]

ghost use Rattle.std.specs.Prelude.{◌≡◌};
ghost use Rattle.rules.specs.Values.{of_done, of_count, handed};
ghost use Rattle.rules.specs.Start.{start_rule, room_rule};

use refusals::{check_entry, check_lent};
use rules::{Handed, Header, LINK_WORDS};
use slots::headers::fresh;
use slots::rows::clear_row;
use slots::words::new_slot;

// Makes an empty map of what is lent. The old header is not looked at: it comes back if the call is refused.
#[tactic(auto, unfolding(rules::specs::Start::start_rule), using(rules::proofs::Outcomes::outcomes))]
pub fn start(links: &mut [u32], rows: &mut [u32], header: Header) -> Handed<()>
    ensures { handed of_done result links.new rows.new ≡ start_rule links.old rows.old header }
{
    if let Err(refusal) = check_lent(links.len(), rows.len()) {
        return Handed::refused(refusal, header);
    }
    new_slot(links, 0, 0);
    clear_row(rows, 0);
    Handed {
        answer: Ok(()),
        header: fresh(),
    }
}

// How many slots are lent and not live.
#[tactic(auto, unfolding(rules::specs::Start::room_rule), using(rules::proofs::Outcomes::outcomes))]
pub fn room(links: &[u32], rows: &[u32], header: Header) -> Handed<u32>
    ensures { handed of_count result links.now rows.now ≡ room_rule links.now rows.now header }
{
    if let Err(refusal) = check_entry(links, rows, header) {
        return Handed::refused(refusal, header);
    }
    let lent = (links.len() / LINK_WORDS) as u32;
    Handed {
        answer: Ok(lent - header.live),
        header,
    }
}
