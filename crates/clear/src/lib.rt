// Clear: the whole soundness check, then the drain step to the end. hop.rs 647-649 and 1157-1161
#![tactic(auto)]

ghost use Rattle.std.specs.Prelude.{◌≡◌, ◌+◌};
ghost use Rattle.rules.specs.Values.{plain, done, of_done, of_drain, handed, handed_row};
ghost use Rattle.rules.specs.Clear.{drain_times, clear_rule};

use drain_step::drain_step;
use rules::{DrainAnswer, Handed, HandedRow, Header};
use sound::check_table;

// Takes every live row out of a sound table.
#[tactic(auto, unfolding(rules::specs::Clear::clear_rule), using(rules::proofs::Outcomes::outcomes, runs::proofs::Chosen::clear_ends))]
pub fn clear(links: &mut [u32], rows: &mut [u32], header: Header) -> Handed<()>
    ensures { handed of_done result links.new rows.new ≡ clear_rule links.old rows.old header }
{
    if let Err(refusal) = check_table(links, rows, header) {
        return Handed::refused(refusal, header);
    }
    // Its answer is not looked at: past the check the last step is done (clear_ends in runs/proofs/Chosen).
    let last = drain_all(links, rows, header);
    Handed {
        answer: Ok(()),
        header: last.header,
    }
}

// One step for each live row, and one more.
#[tactic(auto, unfolding(rules::specs::Clear::drain_times))]
fn drain_all(links: &mut [u32], rows: &mut [u32], header: Header) -> HandedRow<DrainAnswer>
    ensures { handed_row of_drain result links.new rows.new ≡ drain_times (header.live + 1) (plain done header links.old rows.old) }
{
    let mut last = drain_step(links, rows, header);
    for _ in 0..header.live {
        last = drain_step(links, rows, last.header);
    }
    last
}
