// The four link words of a slot, read and written.
ghost use Rattle.std.specs.Prelude.{◌≡◌};
ghost use Rattle.rules.specs.Words.{link_at, set_link, version_at, next_at, prev_at, other_end_at, set_version, set_next, set_prev, set_other_end, zero_links, new_slot, vacant_at, occupied_at};
ghost use Rattle.slots.specs.Places.{place_of};

use rules::LINK_WORDS;

// The words of a slot, in the order in which they stand.
#[derive(Clone, Copy)]
enum Word {
    Version,
    Next,
    Prev,
    OtherEnd,
}

// A word of slot i.
#[tactic(auto, unfolding(rules::specs::Words::link_at))]
fn link(links: &[u32], used: u32, i: u32, word: Word) -> u32
    ensures { result ≡ link_at links.now used i (place_of word) }
{
    let at = i as usize * LINK_WORDS + word as usize;
    if i < used {
        links.get(at).copied().unwrap_or(0)
    } else {
        0
    }
}

// A word of slot i becomes x.
#[tactic(auto, unfolding(rules::specs::Words::set_link))]
fn set_link(links: &mut [u32], i: u32, word: Word, x: u32)
    ensures { links.new ≡ set_link links.old i (place_of word) x }
{
    let at = i as usize * LINK_WORDS + word as usize;
    if at < links.len() {
        links[at] = x;
    }
}

pub fn version(links: &[u32], used: u32, i: u32) -> u32
    ensures { result ≡ version_at links.now used i }
{
    link(links, used, i, Word::Version)
}

pub fn next(links: &[u32], used: u32, i: u32) -> u32
    ensures { result ≡ next_at links.now used i }
{
    link(links, used, i, Word::Next)
}

pub fn prev(links: &[u32], used: u32, i: u32) -> u32
    ensures { result ≡ prev_at links.now used i }
{
    link(links, used, i, Word::Prev)
}

pub fn other_end(links: &[u32], used: u32, i: u32) -> u32
    ensures { result ≡ other_end_at links.now used i }
{
    link(links, used, i, Word::OtherEnd)
}

pub fn set_version(links: &mut [u32], i: u32, x: u32)
    ensures { links.new ≡ set_version links.old i x }
{
    set_link(links, i, Word::Version, x);
}

pub fn set_next(links: &mut [u32], i: u32, x: u32)
    ensures { links.new ≡ set_next links.old i x }
{
    set_link(links, i, Word::Next, x);
}

pub fn set_prev(links: &mut [u32], i: u32, x: u32)
    ensures { links.new ≡ set_prev links.old i x }
{
    set_link(links, i, Word::Prev, x);
}

pub fn set_other_end(links: &mut [u32], i: u32, x: u32)
    ensures { links.new ≡ set_other_end links.old i x }
{
    set_link(links, i, Word::OtherEnd, x);
}

// Slot i gets zero links.
pub fn zero_links(links: &mut [u32], i: u32)
    ensures { links.new ≡ zero_links links.old i }
{
    set_next(links, i, 0);
    set_prev(links, i, 0);
    set_other_end(links, i, 0);
}

// Slot i gets a version and zero links.
#[tactic(auto, unfolding(rules::specs::Words::new_slot))]
pub fn new_slot(links: &mut [u32], i: u32, version: u32)
    ensures { links.new ≡ new_slot links.old i version }
{
    set_version(links, i, version);
    zero_links(links, i);
}

// Slot i is in use, and vacant.
#[tactic(auto, unfolding(rules::specs::Words::vacant_at))]
pub fn vacant(links: &[u32], used: u32, i: u32) -> bool
    ensures { result ≡ vacant_at links.now used i }
{
    i < used && version(links, used, i) % 2 == 0
}

// Slot i is in use, and occupied.
#[tactic(auto, unfolding(rules::specs::Words::occupied_at))]
pub fn occupied(links: &[u32], used: u32, i: u32) -> bool
    ensures { result ≡ occupied_at links.now used i }
{
    i < used && version(links, used, i) % 2 == 1
}
