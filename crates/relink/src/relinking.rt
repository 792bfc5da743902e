// Relinking: the versions and n give next, prev, other_end and the header. Each pass goes once over the slots below n.
ghost use Rattle.std.specs.Prelude.{◌≡◌};
ghost use Rattle.rules.specs.Rebuild.{unlinked, chain_run, chain_slot, chain_slots, closed, relinked};

use parity::{is_back, is_front, odd_count};
use rules::Header;
use slots::headers::rebuilt;
use slots::words::{set_next, set_other_end, set_prev, zero_links};

// The front of the run at hand, and that of the last run chained.
#[derive(Clone, Copy)]
struct Fronts {
    front: u32,
    last: u32,
}

// Next, prev and other_end become zero in the slots below n.
#[tactic(auto, unfolding(rules::specs::Rebuild::unlinked))]
fn unlink(links: &mut [u32], n: u32)
    ensures { links.new ≡ unlinked n links.old }
{
    for i in 0..n {
        zero_links(links, i);
    }
}

// The run from f to b comes after the run whose front is p, the last so far.
#[tactic(auto, unfolding(rules::specs::Rebuild::chain_run))]
fn chain_run(links: &mut [u32], p: u32, f: u32, b: u32)
    ensures { links.new ≡ chain_run links.old p f b }
{
    set_other_end(links, b, f);
    set_next(links, p, f);
    set_next(links, f, 0);
    set_prev(links, f, p);
    set_other_end(links, f, b);
}

// A front is kept in mind, and at a back its run is chained.
#[tactic(auto, unfolding(rules::specs::Rebuild::chain_slot))]
fn chain_slot(links: &mut [u32], n: u32, i: u32, at: Fronts) -> Fronts
    ensures { record { links = links.new; front = result.front; last = result.last } ≡ chain_slot n i (record { links = links.old; front = at.front; last = at.last }) }
{
    let front = if is_front(links, n, i) { i } else { at.front };
    if !is_back(links, n, i) {
        return Fronts { front, ..at };
    }
    chain_run(links, at.last, front, i);
    Fronts { front, last: front }
}

// The runs in rising order, and prev(0) their last, which hop.rs leaves out.
#[tactic(auto, unfolding(rules::specs::Rebuild::chain_slots))]
fn chain_slots(links: &mut [u32], n: u32)
    ensures { links.new ≡ closed (chain_slots n n (record { links = links.old; front = 0; last = 0 })) }
{
    let mut at = Fronts { front: 0, last: 0 };
    for i in 0..n {
        at = chain_slot(links, n, i, at);
    }
    set_prev(links, 0, at.last);
}

// The links made anew, and the header that goes with them. The odd versions are counted before anything is written.
#[tactic(auto, unfolding(rules::specs::Rebuild::relinked))]
pub fn relink(links: &mut [u32], n: u32) -> Header
    ensures { record { links = links.new; header = result } ≡ relinked links.old n }
{
    let odds = odd_count(links, n);
    unlink(links, n);
    chain_slots(links, n);
    rebuilt(n, odds)
}
