// Insert: first every refusal, by reading alone (followed); then one of three steps. hop.rs 426-487
// The steps' counts grow by one in 32 bits: what they ask of their caller is that there is room.
#![tactic(auto)]

ghost use Rattle.std.specs.Prelude.{◌≡◌, ◌-◌, ◌<◌, ◌^◌};
ghost use Rattle.rules.specs.Words.{with_bit};
ghost use Rattle.rules.specs.Values.{of_key, handed};
ghost use Rattle.rules.specs.Insert.{take_new, take_slot, insert_step, insert_rule};

use chain::shorten;
use followed::{check_insert, insert_links};
use rules::steps::InsertLinks;
use rules::{Handed, Header, Key};
use slots::headers::{grown, one_more};
use slots::rows::set_row;
use slots::words::{new_slot, set_version, version};

// A version with its lowest bit set.
fn with_bit(v: u32) -> u32
    ensures { result ≡ with_bit v }
{
    v / 2 * 2 + 1
}

// No slot is vacant: the one past those in use is taken.
#[tactic(auto, unfolding(rules::specs::Insert::take_new))]
fn take_new(links: &mut [u32], rows: &mut [u32], header: Header, side: &[u32]) -> Handed<Key>
    requires used_bound { header.used < 2 ^ 32 - 1 }
    requires live_lt_used { header.live < header.used }
    ensures { handed of_key result links.new rows.new ≡ take_new links.old rows.old header side.now }
{
    let index = header.used;
    new_slot(links, index, 1);
    set_row(rows, index, side);
    Handed {
        answer: Ok(Key { index, version: 1 }),
        header: grown(header),
    }
}

// A vacant slot, out of its run, is taken.
#[tactic(auto, unfolding(rules::specs::Insert::take_slot))]
fn take_slot(
    links: &mut [u32],
    rows: &mut [u32],
    header: Header,
    side: &[u32],
    key: Key,
) -> Handed<Key>
    requires { header.live < 2 ^ 32 - 1 }
    ensures { handed of_key result links.new rows.new ≡ take_slot links.old rows.old header side.now key.index key.version }
{
    set_version(links, key.index, key.version);
    set_row(rows, key.index, side);
    Handed {
        answer: Ok(key),
        header: one_more(header),
    }
}

#[tactic(auto, unfolding(rules::specs::Insert::insert_step))]
fn insert_step(
    links: &mut [u32],
    rows: &mut [u32],
    header: Header,
    side: &[u32],
    x: InsertLinks,
) -> Handed<Key>
    requires used_bound { header.used < 2 ^ 32 - 1 }
    requires live_lt_used { header.live < header.used }
    ensures { handed of_key result links.new rows.new ≡ insert_step links.old rows.old header side.now x }
{
    if x.b == 0 {
        return take_new(links, rows, header, side);
    }
    let key = Key {
        index: x.b,
        version: with_bit(version(links, header.used, x.b)),
    };
    shorten(links, x);
    take_slot(links, rows, header, side, key)
}

// Takes a row in from the side buffer and answers with its key.
#[tactic(auto, unfolding(rules::specs::Insert::insert_rule, rules::specs::Insert::insert_by), using(rules::proofs::Outcomes::outcomes, rules::proofs::Links::insert_passed))]
pub fn insert(links: &mut [u32], rows: &mut [u32], header: Header, side: &[u32]) -> Handed<Key>
    ensures { handed of_key result links.new rows.new ≡ insert_rule links.old rows.old header side.now }
{
    let x = insert_links(links, header.used);
    if let Err(refusal) = check_insert(links, rows, header, side, x) {
        return Handed::refused(refusal, header);
    }
    insert_step(links, rows, header, side, x)
}
