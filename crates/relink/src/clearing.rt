// The rows of vacant slots become zero.
ghost use Rattle.std.specs.Prelude.{◌≡◌};
ghost use Rattle.rules.specs.Choice.{pick};
ghost use Rattle.rules.specs.Words.{zero_row, set_row, vacant_at};
ghost use Rattle.rules.specs.Rebuild.{cleared_rows};

use slots::rows::clear_row;
use slots::words::vacant;

// The row of slot i, if that is vacant.
fn clear_if_vacant(links: &[u32], rows: &mut [u32], n: u32, i: u32)
    ensures { rows.new ≡ pick (vacant_at links.now n i) (set_row rows.old i zero_row) rows.old }
{
    if vacant(links, n, i) {
        clear_row(rows, i);
    }
}

// The rows of the vacant slots below n.
#[tactic(auto, unfolding(rules::specs::Rebuild::cleared_rows))]
pub fn clear_vacant_rows(links: &[u32], rows: &mut [u32], n: u32)
    ensures { rows.new ≡ cleared_rows links.now n n rows.old }
{
    for i in 0..n {
        clear_if_vacant(links, rows, n, i);
    }
}
