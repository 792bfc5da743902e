// Remove: first every refusal, by reading alone (followed); then the slot joins the chain of vacant runs (chain), its version rises
// and its row goes out. hop.rs 492-556 and 570-578
#![tactic(auto)]

ghost use Rattle.std.specs.Prelude.{◌≡◌, ◌<◌};
ghost use Rattle.rules.specs.Values.{of_key, handed_row};
ghost use Rattle.rules.specs.Remove.{beside, remove_step, remove_slot, remove_at, remove_rule};

use chain::free;
use followed::check_remove;
use refusals::check_key;
use rules::steps::Beside;
use rules::{HandedRow, Header, Key, Refusal};
use slots::headers::one_less;
use slots::rows::{clear_row, row};
use slots::words::{occupied, set_version, vacant, version};

// The slots beside slot i, which is in use.
fn beside(links: &[u32], used: u32, i: u32) -> Beside
    requires { i < used }
    ensures { result ≡ beside links.now used i }
{
    let left = i.saturating_sub(1);
    let right = i + 1;
    Beside {
        left,
        right,
        before: vacant(links, used, left),
        after: vacant(links, used, right),
    }
}

#[tactic(auto, unfolding(rules::specs::Remove::remove_step))]
fn remove_step(
    links: &mut [u32],
    rows: &mut [u32],
    header: Header,
    key: Key,
    x: Beside,
) -> HandedRow<Key>
    ensures { handed_row of_key result links.new rows.new ≡ remove_step links.old rows.old header key x }
{
    let risen = version(links, header.used, key.index).wrapping_add(1);
    free(links, header.used, key.index, x);
    set_version(links, key.index, risen);
    let words = row(rows, header.used, key.index);
    clear_row(rows, key.index);
    HandedRow {
        answer: Ok(key),
        row: words,
        header: one_less(header),
    }
}

// The removal of an occupied slot that is in use, under its key.
#[tactic(auto, unfolding(rules::specs::Remove::remove_slot, rules::specs::Remove::remove_by), using(rules::proofs::Outcomes::outcomes))]
fn remove_slot(links: &mut [u32], rows: &mut [u32], header: Header, key: Key) -> HandedRow<Key>
    requires { key.index < header.used }
    ensures { handed_row of_key result links.new rows.new ≡ remove_slot links.old rows.old header key }
{
    let x = beside(links, header.used, key.index);
    if let Err(refusal) = check_remove(links, header, x) {
        return HandedRow::refused(refusal, header);
    }
    remove_step(links, rows, header, key, x)
}

// The removal of slot q under the key that it has, in a table of the right shape: for callers that go by slots.
#[tactic(auto, using(rules::proofs::RemoveSteps::removes, rules::proofs::Links::in_use))]
pub fn remove_at(links: &mut [u32], rows: &mut [u32], header: Header, q: u32) -> HandedRow<Key>
    ensures { handed_row of_key result links.new rows.new ≡ remove_at links.old rows.old header q }
{
    if !occupied(links, header.used, q) {
        return HandedRow::refused(Refusal::Damaged, header);
    }
    let key = Key {
        index: q,
        version: version(links, header.used, q),
    };
    remove_slot(links, rows, header, key)
}

// Takes the row of a live key out and hands it back.
#[tactic(auto, unfolding(rules::specs::Remove::remove_rule), using(rules::proofs::Outcomes::outcomes, rules::proofs::Access::live_within))]
pub fn remove(links: &mut [u32], rows: &mut [u32], header: Header, key: Key) -> HandedRow<Key>
    ensures { handed_row of_key result links.new rows.new ≡ remove_rule links.old rows.old header key }
{
    if let Err(refusal) = check_key(links, rows, header, key) {
        return HandedRow::refused(refusal, header);
    }
    remove_slot(links, rows, header, key)
}
