// The ends of the runs: at each run's front other_end is its back, and at its back other_end is its front.
ghost use Rattle.std.specs.Prelude.{◌≡◌, ◌+◌, ◌<◌};
ghost use Rattle.rules.specs.Choice.{pick};
ghost use Rattle.rules.specs.Words.{version_at, vacant_by};
ghost use Rattle.rules.specs.Check.{meet_at, ends_test};

use parity::is_back;
use slots::words::{other_end, vacant};

// Where slot i is a run's back, it and the run's front lead to each other.
fn meet_at(links: &[u32], used: u32, front: u32, i: u32) -> bool
    ensures { result ≡ meet_at links.now used front i }
{
    if !is_back(links, used, i) {
        return true;
    }
    other_end(links, used, front) == i && other_end(links, used, i) == front
}

// The front of the run that slot i + 1 is in if it is vacant, from that of slot i.
#[tactic(auto, unfolding(rules::specs::Words::vacant_at))]
fn front_after(links: &[u32], used: u32, front: u32, i: u32) -> u32
    requires { i < used }
    ensures { result ≡ pick (vacant_by (version_at links.now used) used i) front (i + 1) }
{
    if vacant(links, used, i) { front } else { i + 1 }
}

pub fn ends_meet(links: &[u32], used: u32) -> bool
    ensures { result ≡ ends_test links.now used }
{
    let mut front = 0;
    for i in 0..used {
        if !meet_at(links, used, front, i) {
            return false;
        }
        front = front_after(links, used, front, i);
    }
    true
}
