// What the parity of the versions tells: where a run of vacant slots starts, where it ends, how many runs there are, and how many
// slots are occupied.
#![tactic(auto)]

ghost use Rattle.std.specs.Prelude.{◌≡◌, ℕ, Bool};
ghost use Rattle.rules.specs.Choice.{count_below};
ghost use Rattle.rules.specs.Words.{version_at};
ghost use Rattle.rules.specs.Runs.{past_front, is_front, is_back, run_count, odd_count};

use slots::words::{vacant, version};

// Slot i is vacant, and so is the one before it; before slot 0 the number wraps, and no such slot is in use. Here and in is_front `&` asks both without
// a branch: which slots are vacant is no pattern that a processor could guess.
#[tactic(auto, unfolding(rules::specs::Runs::past_front, rules::specs::Words::vacant_at))]
pub fn past_front(links: &[u32], used: u32, i: u32) -> bool
    ensures { result ≡ past_front (version_at links.now used) used i }
{
    vacant(links, used, i) & vacant(links, used, i.wrapping_sub(1))
}

// Slot i is a run's front.
#[tactic(auto, unfolding(rules::specs::Runs::is_front, rules::specs::Words::vacant_at))]
pub fn is_front(links: &[u32], used: u32, i: u32) -> bool
    ensures { result ≡ is_front (version_at links.now used) used i }
{
    vacant(links, used, i) & !past_front(links, used, i)
}

// Slot i is a run's back.
#[tactic(auto, unfolding(rules::specs::Runs::is_back, rules::specs::Words::vacant_at))]
pub fn is_back(links: &[u32], used: u32, i: u32) -> bool
    ensures { result ≡ is_back (version_at links.now used) used i }
{
    vacant(links, used, i) && !vacant(links, used, i + 1)
}

// How many numbers below n pass a test.
fn count_where<F: Fn(u32) -> bool>(n: u32, test: F) -> u32
    requires { F.IsAlwaysCallable test }
    ensures { (p : ℕ → Bool) → ((i : ℕ) (b : Bool) → F.post test i b → b ≡ p i) → result ≡ count_below n p }
{
    let mut count = 0;
    for i in 0..n {
        count += u32::from(test(i));
    }
    count
}

// How many runs there are.
pub fn run_count(links: &[u32], used: u32) -> u32
    ensures { result ≡ run_count (version_at links.now used) used }
{
    count_where(used, |i| is_front(links, used, i))
}

// How many versions below used are odd.
pub fn odd_count(links: &[u32], used: u32) -> u32
    ensures { result ≡ odd_count (version_at links.now used) used }
{
    count_where(used, |i| version(links, used, i) % 2 == 1)
}
