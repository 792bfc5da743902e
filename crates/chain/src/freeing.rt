// A freed slot joins the chain of vacant runs: four cases, in each all links are read and then written.
ghost use Rattle.std.specs.Prelude.{◌≡◌};
ghost use Rattle.rules.specs.Remove.{set_apart, join_right, join_left, join_both, freed};

use rules::steps::Beside;
use slots::words::{next, other_end, prev, set_next, set_other_end, set_prev};

// Slot i becomes a run of its own, after the last.
#[tactic(auto, unfolding(rules::specs::Remove::set_apart))]
fn set_apart(links: &mut [u32], used: u32, i: u32)
    ensures { links.new ≡ set_apart links.old used i }
{
    let t = prev(links, used, 0);
    set_prev(links, 0, i);
    set_next(links, t, i);
    set_other_end(links, i, i);
    set_next(links, i, 0);
    set_prev(links, i, t);
}

// Slot i becomes the front of the run after it.
#[tactic(auto, unfolding(rules::specs::Remove::join_right))]
fn join_right(links: &mut [u32], used: u32, i: u32, right: u32)
    ensures { links.new ≡ join_right links.old used i right }
{
    let n = next(links, used, right);
    let p = prev(links, used, right);
    let e = other_end(links, used, right);
    set_other_end(links, e, i);
    set_next(links, p, i);
    set_prev(links, n, i);
    set_next(links, i, n);
    set_prev(links, i, p);
    set_other_end(links, i, e);
}

// Slot i becomes the back of the run before it.
#[tactic(auto, unfolding(rules::specs::Remove::join_left))]
fn join_left(links: &mut [u32], used: u32, i: u32, left: u32)
    ensures { links.new ≡ join_left links.old used i left }
{
    let f = other_end(links, used, left);
    set_other_end(links, i, f);
    set_other_end(links, f, i);
}

// The runs on both sides of the slot become one: the right one leaves the chain.
#[tactic(auto, unfolding(rules::specs::Remove::join_both))]
fn join_both(links: &mut [u32], used: u32, left: u32, right: u32)
    ensures { links.new ≡ join_both links.old used left right }
{
    let f = other_end(links, used, left);
    let n = next(links, used, right);
    let p = prev(links, used, right);
    let e = other_end(links, used, right);
    set_next(links, p, n);
    set_prev(links, n, p);
    set_other_end(links, f, e);
    set_other_end(links, e, f);
}

// Slot i joins the chain: by itself, or with the run on its left, on its right or on both sides.
#[tactic(auto, unfolding(rules::specs::Remove::freed))]
pub fn free(links: &mut [u32], used: u32, i: u32, x: Beside)
    ensures { links.new ≡ freed links.old used i x }
{
    match (x.before, x.after) {
        (true, true) => join_both(links, used, x.left, x.right),
        (true, false) => join_left(links, used, i, x.left),
        (false, true) => join_right(links, used, i, x.right),
        (false, false) => set_apart(links, used, i),
    }
}
