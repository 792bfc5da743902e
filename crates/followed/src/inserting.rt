// The links that insert follows, and the chain of its refusals: by reading alone.
ghost use Rattle.std.specs.Prelude.{◌≡◌};
ghost use Rattle.rules.specs.Refusals.{passes, number_in};
ghost use Rattle.rules.specs.Insert.{insert_links, run_number, take_number, insert_number};

use refusals::{astray, check_side_entry};
use rules::steps::InsertLinks;
use rules::{Header, LINK_WORDS, ROW_WORDS, Refusal};
use slots::words::{next, other_end, vacant};

pub fn insert_links(links: &[u32], used: u32) -> InsertLinks
    ensures { result ≡ insert_links links.now used }
{
    let h = next(links, used, 0);
    InsertLinks {
        h,
        b: other_end(links, used, h),
        n: next(links, used, h),
    }
}

// The run from h to b.
#[tactic(auto, unfolding(rules::specs::Insert::run_number), using(rules::proofs::Chain::chain))]
fn check_run(links: &[u32], header: Header, x: InsertLinks) -> Result<(), Refusal>
    ensures { number_in result ≡ run_number passes links.now header x }
{
    let used = header.used;
    if !vacant(links, used, x.h) || !vacant(links, used, x.b) || x.b < x.h {
        return Err(Refusal::Damaged);
    }
    if other_end(links, used, x.b) != x.h {
        return Err(Refusal::Damaged);
    }
    if x.b != 0 && used.saturating_sub(1) <= header.live {
        return Err(Refusal::Damaged);
    }
    Ok(())
}

// What taking slot b needs; a full table last.
#[tactic(auto, unfolding(rules::specs::Insert::take_number), using(rules::proofs::Chain::chain))]
fn check_take(links: &[u32], header: Header, x: InsertLinks) -> Result<(), Refusal>
    ensures { number_in result ≡ take_number passes links.now header x }
{
    let used = header.used;
    let last = x.h == x.b && x.b != 0;
    if last && (astray(links, used, x.n) || x.n == x.h) {
        return Err(Refusal::Damaged);
    }
    if x.h != x.b && astray(links, used, x.b.saturating_sub(1)) {
        return Err(Refusal::Damaged);
    }
    if x.b == 0 && used as usize == links.len() / LINK_WORDS {
        return Err(Refusal::Full);
    }
    Ok(())
}

#[tactic(auto, unfolding(rules::specs::Insert::insert_number, rules::specs::Insert::run_number, rules::specs::Insert::take_number), using(rules::proofs::Chain::chain))]
pub fn check_insert(
    links: &[u32],
    rows: &[u32],
    header: Header,
    side: &[u32],
    x: InsertLinks,
) -> Result<(), Refusal>
    ensures { number_in result ≡ insert_number links.now rows.now header side.now x }
{
    check_side_entry(links, rows, header, side.len(), ROW_WORDS)?;
    check_run(links, header, x)?;
    check_take(links, header, x)
}
