// The drain step: removes the slot after the run of slot 0, in a sound table the lowest live one. hop.rs 669-674 and 1131-1150
#![tactic(auto)]

ghost use Rattle.std.specs.Prelude.{◌≡◌};
ghost use Rattle.rules.specs.Values.{of_drain, handed_row};
ghost use Rattle.rules.specs.Remove.{remove_at};
ghost use Rattle.rules.specs.Drain.{drain_rule};

use refusals::check_entry;
use remove::remove_at;
use rules::{DrainAnswer, HandedRow, Header, ROW_WORDS, Refusal};
use slots::words::other_end;

// Slot q goes.
fn drain_at(links: &mut [u32], rows: &mut [u32], header: Header, q: u32) -> HandedRow<DrainAnswer>
    ensures { handed_row of_drain result links.new rows.new ≡ remove_at links.old rows.old header q }
{
    let HandedRow {
        answer,
        row,
        header,
    } = remove_at(links, rows, header, q);
    HandedRow {
        answer: answer.map(DrainAnswer::Keyed),
        row,
        header,
    }
}

// Takes one live row out and hands it back with its key; done when none is live.
#[tactic(auto, unfolding(rules::specs::Drain::drain_rule), using(rules::proofs::Outcomes::outcomes, rules::proofs::RemoveSteps::removes))]
pub fn drain_step(links: &mut [u32], rows: &mut [u32], header: Header) -> HandedRow<DrainAnswer>
    ensures { handed_row of_drain result links.new rows.new ≡ drain_rule links.old rows.old header }
{
    if let Err(refusal) = check_entry(links, rows, header) {
        return HandedRow::refused(refusal, header);
    }
    if header.live == 0 {
        return HandedRow {
            answer: Ok(DrainAnswer::Done),
            row: [0; ROW_WORDS],
            header,
        };
    }
    let back = other_end(links, header.used, 0);
    if header.used <= back {
        return HandedRow::refused(Refusal::Damaged, header);
    }
    drain_at(links, rows, header, back + 1)
}
