// A run loses its back slot, which an insert takes.
ghost use Rattle.std.specs.Prelude.{◌≡◌};
ghost use Rattle.rules.specs.Insert.{take_last, take_back, shortened};

use rules::steps::InsertLinks;
use slots::words::{set_next, set_other_end, set_prev};

// The run is slot b alone, which leaves the chain; n comes first from now on.
#[tactic(auto, unfolding(rules::specs::Insert::take_last))]
fn take_last(links: &mut [u32], n: u32)
    ensures { links.new ≡ take_last links.old n }
{
    set_next(links, 0, n);
    set_prev(links, n, 0);
}

// The run from h to b ends at b - 1 from now on.
#[tactic(auto, unfolding(rules::specs::Insert::take_back))]
fn take_back(links: &mut [u32], h: u32, b: u32)
    ensures { links.new ≡ take_back links.old h b }
{
    let back = b.saturating_sub(1);
    set_other_end(links, back, h);
    set_other_end(links, h, back);
}

// The run loses its back slot.
#[tactic(auto, unfolding(rules::specs::Insert::shortened))]
pub fn shorten(links: &mut [u32], x: InsertLinks)
    ensures { links.new ≡ shortened links.old x }
{
    if x.h == x.b {
        take_last(links, x.n);
    } else {
        take_back(links, x.h, x.b);
    }
}
