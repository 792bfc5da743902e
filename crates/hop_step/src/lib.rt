// The hop step: from a cursor to the next live slot. hop.rs 1199-1216, and 1227-1241 for the end at used
#![tactic(auto)]

ghost use Rattle.std.specs.Prelude.{◌≡◌, true, ◌<◌, eqb};
ghost use Rattle.rules.specs.Choice.{pick};
ghost use Rattle.rules.specs.Words.{vacant_at, occupied_at};
ghost use Rattle.rules.specs.Values.{found_by_hop, of_hop, done, refused, handed};
ghost use Rattle.rules.specs.Refusals.{damaged};
ghost use Rattle.rules.specs.Hop.{visit, hop_from, hop_rule};

use parity::past_front;
use refusals::check_entry;
use rules::{Cursor, Handed, Header, HopAnswer, Key, Refusal};
use slots::words::{occupied, other_end, vacant, version};

// The key of slot i, which is in use, and the cursor after it.
fn visit(links: &[u32], used: u32, i: u32) -> HopAnswer
    requires { i < used }
    ensures { found_by_hop result ≡ visit links.now used i }
{
    let key = Key {
        index: i,
        version: version(links, used, i),
    };
    HopAnswer::Visited(key, i + 1)
}

// The slot q after a run: the end at used, else its key.
#[tactic(auto, using(rules::proofs::Links::in_use))]
fn after_run(links: &[u32], used: u32, q: u32) -> Result<HopAnswer, Refusal>
    ensures { of_hop result ≡ pick (eqb q used) done (pick (occupied_at links.now used q) (visit links.now used q) (refused damaged)) }
{
    if q == used {
        return Ok(HopAnswer::Done);
    }
    if !occupied(links, used, q) {
        return Err(Refusal::Damaged);
    }
    Ok(visit(links, used, q))
}

// From the vacant slot c over its run.
#[tactic(auto, using(rules::proofs::HopSteps::hops, rules::proofs::Links::in_use))]
fn hop_over(links: &[u32], header: Header, c: Cursor) -> Result<HopAnswer, Refusal>
    requires { vacant_at links.now header.used c ≡ true }
    ensures { of_hop result ≡ hop_from links.now header c }
{
    let used = header.used;
    if past_front(links, used, c) {
        return Err(Refusal::StaleCursor);
    }
    let back = other_end(links, used, c);
    if !vacant(links, used, back) {
        return Err(Refusal::Damaged);
    }
    if back < c {
        return Err(Refusal::Damaged);
    }
    after_run(links, used, back + 1)
}

// The answer in a table of the right shape with slot 0 even.
#[tactic(auto, using(rules::proofs::HopSteps::hops, rules::proofs::Links::in_use))]
fn hop_from(links: &[u32], header: Header, cursor: Cursor) -> Result<HopAnswer, Refusal>
    ensures { of_hop result ≡ hop_from links.now header cursor }
{
    let used = header.used;
    if used <= cursor {
        return Ok(HopAnswer::Done);
    }
    if occupied(links, used, cursor) {
        return Ok(visit(links, used, cursor));
    }
    hop_over(links, header, cursor)
}

// The next live slot from the cursor on, and the cursor to go on from. A walk starts at 0.
#[tactic(auto, unfolding(rules::specs::Hop::hop_rule), using(rules::proofs::Outcomes::outcomes))]
pub fn hop_step(links: &[u32], rows: &[u32], header: Header, cursor: Cursor) -> Handed<HopAnswer>
    ensures { handed of_hop result links.now rows.now ≡ hop_rule links.now rows.now header cursor }
{
    if let Err(refusal) = check_entry(links, rows, header) {
        return Handed::refused(refusal, header);
    }
    Handed {
        answer: hop_from(links, header, cursor),
        header,
    }
}
