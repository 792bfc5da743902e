// The chain is one circle: from slot 0 over the front of every run, and back.
ghost use Rattle.std.specs.Prelude.{◌≡◌};
ghost use Rattle.rules.specs.Check.{may_follow, circle_test};

use parity::is_front;
use slots::words::{next, prev};

// From slot x the chain may go on to slot y: a front, whose prev undoes the step.
fn may_follow(links: &[u32], used: u32, x: u32, y: u32) -> bool
    ensures { result ≡ may_follow links.now used x y }
{
    is_front(links, used, y) && prev(links, used, y) == x
}

// From slot 0 next comes back to 0 in as many steps as told, and no sooner. A chain that never does runs out of steps.
pub fn circle_closes(links: &[u32], used: u32, steps: u32) -> bool
    ensures { result ≡ circle_test links.now used steps 0 }
{
    let mut x = 0;
    for step in 0..steps {
        let y = next(links, used, x);
        if !may_follow(links, used, x, y) {
            return false;
        }
        if y == 0 {
            return step == steps - 1;
        }
        x = y;
    }
    false
}
