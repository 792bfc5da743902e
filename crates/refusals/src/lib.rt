// The chains of refusals, segment by segment, as in rules/specs/Refusals: the first test that holds refuses. A segment that a rule gives the
// number so far stands here by itself, since its caller has gone with the refusal where there was one.
#![tactic(auto)]

ghost use Rattle.std.specs.Prelude.{◌≡◌};
ghost use Rattle.rules.specs.Refusals.{astray, passes, number_in, lent_number, header_number, shape_number, side_number, zero_number, live_key, live_number, entry_number, side_entry_number};
ghost use Rattle.rules.specs.Access.{key_number};

use rules::{Header, Key, LIMIT, LINK_WORDS, ROW_WORDS, Refusal};
use slots::words::{vacant, version};

// The lent tables alone, by their lengths.
#[tactic(auto, unfolding(rules::specs::Refusals::lent_number), using(rules::proofs::Chain::chain))]
pub fn check_lent(links: usize, rows: usize) -> Result<(), Refusal>
    ensures { number_in result ≡ lent_number links rows }
{
    let lent = links / LINK_WORDS;
    if links % LINK_WORDS != 0 || rows % ROW_WORDS != 0 || lent != rows / ROW_WORDS {
        return Err(Refusal::Shape);
    }
    if lent == 0 || LIMIT < lent {
        return Err(Refusal::Shape);
    }
    Ok(())
}

// The header, beside the lent count.
#[tactic(auto, unfolding(rules::specs::Refusals::header_number), using(rules::proofs::Chain::chain))]
fn check_header(lent: usize, header: Header) -> Result<(), Refusal>
    ensures { number_in result ≡ header_number passes lent header }
{
    if header.used == 0 || lent < header.used as usize || header.used - 1 < header.live {
        return Err(Refusal::Shape);
    }
    Ok(())
}

// What is lent, and the header.
#[tactic(auto, unfolding(rules::specs::Refusals::shape_number, rules::specs::Refusals::header_number), using(rules::proofs::Chain::chain))]
pub fn check_shape(links: &[u32], rows: &[u32], header: Header) -> Result<(), Refusal>
    ensures { number_in result ≡ shape_number links.now rows.now header }
{
    check_lent(links.len(), rows.len())?;
    check_header(links.len() / LINK_WORDS, header)
}

// A side buffer's length, beside the one that is asked for.
#[tactic(auto, unfolding(rules::specs::Refusals::side_number), using(rules::proofs::Chain::chain))]
fn check_side(side: usize, asked: usize) -> Result<(), Refusal>
    ensures { number_in result ≡ side_number passes side asked }
{
    if side != asked {
        return Err(Refusal::Shape);
    }
    Ok(())
}

// Slot 0 is vacant.
#[tactic(auto, unfolding(rules::specs::Refusals::zero_number), using(rules::proofs::Chain::chain))]
fn check_zero(links: &[u32], header: Header) -> Result<(), Refusal>
    ensures { number_in result ≡ zero_number passes links.now header }
{
    if version(links, header.used, 0) % 2 == 1 {
        return Err(Refusal::Damaged);
    }
    Ok(())
}

// What a call without a side buffer tests before anything else.
#[tactic(auto, unfolding(rules::specs::Refusals::entry_number, rules::specs::Refusals::zero_number), using(rules::proofs::Chain::chain))]
pub fn check_entry(links: &[u32], rows: &[u32], header: Header) -> Result<(), Refusal>
    ensures { number_in result ≡ entry_number links.now rows.now header }
{
    check_shape(links, rows, header)?;
    check_zero(links, header)
}

// What a call with a side buffer tests before anything else.
#[tactic(auto, unfolding(rules::specs::Refusals::side_entry_number, rules::specs::Refusals::zero_number, rules::specs::Refusals::side_number), using(rules::proofs::Chain::chain))]
pub fn check_side_entry(
    links: &[u32],
    rows: &[u32],
    header: Header,
    side: usize,
    asked: usize,
) -> Result<(), Refusal>
    ensures { number_in result ≡ side_entry_number links.now rows.now header side asked }
{
    check_shape(links, rows, header)?;
    check_side(side, asked)?;
    check_zero(links, header)
}

// A link that a case follows goes astray: it is not below used, or its slot is not vacant.
pub fn astray(links: &[u32], used: u32, i: u32) -> bool
    ensures { result ≡ astray links.now used i }
{
    !vacant(links, used, i)
}

#[tactic(auto, unfolding(rules::specs::Refusals::live_key))]
fn is_live(links: &[u32], header: Header, key: Key) -> bool
    ensures { result ≡ live_key links.now header key }
{
    key.index < header.used
        && key.version % 2 == 1
        && version(links, header.used, key.index) == key.version
}

// The key is live.
#[tactic(auto, unfolding(rules::specs::Refusals::live_number), using(rules::proofs::Chain::chain))]
pub fn check_live(links: &[u32], header: Header, key: Key) -> Result<(), Refusal>
    ensures { number_in result ≡ live_number passes links.now header key }
{
    if key.version % 2 == 0 {
        return Err(Refusal::EvenVersion);
    }
    if !is_live(links, header, key) {
        return Err(Refusal::NotLive);
    }
    Ok(())
}

// What a call on a key tests before anything else.
#[tactic(auto, unfolding(rules::specs::Access::key_number, rules::specs::Refusals::live_number), using(rules::proofs::Chain::chain))]
pub fn check_key(links: &[u32], rows: &[u32], header: Header, key: Key) -> Result<(), Refusal>
    ensures { number_in result ≡ key_number links.now rows.now header key }
{
    check_entry(links, rows, header)?;
    check_live(links, header, key)
}

// Key number: 0 for a live key, else the number that it is turned down with.
pub fn key_number(links: &[u32], rows: &[u32], header: Header, key: Key) -> u32
    ensures { result ≡ key_number links.now rows.now header key }
{
    match check_key(links, rows, header, key) {
        Ok(()) => 0,
        Err(refusal) => u32::from(refusal),
    }
}
