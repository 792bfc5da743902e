// The scan of retain: from live slot to live slot, and the ones whose byte is 0 go. hop.rs 603-631
#![tactic(auto)]

ghost use Rattle.std.specs.Prelude.{◌≡◌, ◌-◌, ◌^◌, ◌<◌};
ghost use Rattle.rules.specs.Values.{plain, counted};
ghost use Rattle.rules.specs.Retain.{struck_by};
ghost use Rattle.runs.specs.Scans.{next_slot, strike_out, scan_start, scans};

use remove::remove_at;
use rules::Header;
use slots::words::{other_end, vacant};

// What has been done so far: how many rows went, and the header that this left.
#[derive(Clone, Copy)]
pub struct Struck {
    pub count: u32,
    pub header: Header,
}

// The slot to look at after slot i: the one after it, or, where that is vacant, the one after its run.
#[tactic(auto, unfolding(runs::specs::Scans::next_slot))]
fn next_slot(links: &[u32], used: u32, i: u32) -> u32
    ensures { result ≡ next_slot links.now used i }
{
    let after = i.wrapping_add(1);
    if vacant(links, used, after) {
        return other_end(links, used, after).wrapping_add(1);
    }
    after
}

// Slot i goes if its byte is 0, and the count grows by 1: what is asked is that there is room for it.
#[tactic(auto, unfolding(runs::specs::Scans::strike_out))]
fn strike_out(links: &mut [u32], rows: &mut [u32], struck: Struck, bytes: &[u8], i: u32) -> Struck
    requires { struck.count < 2 ^ 32 - 1 }
    ensures { plain (counted result.count) result.header links.new rows.new ≡ strike_out (struck_by bytes.now) i (plain (counted struck.count) struck.header links.old rows.old) }
{
    if bytes.get(i as usize).copied().unwrap_or(0) != 0 {
        return struck;
    }
    // Its answer is not looked at: past retain's check no removal is refused (retain_removes in runs/proofs/Chosen).
    let gone = remove_at(links, rows, struck.header, i);
    Struck {
        count: struck.count + 1,
        header: gone.header,
    }
}

// Every live slot is looked at once, from the one after slot 0's run on.
#[tactic(auto, unfolding(runs::specs::Scans::scans, runs::specs::Scans::scan_one))]
pub fn scan(links: &mut [u32], rows: &mut [u32], header: Header, bytes: &[u8]) -> Struck
    ensures { plain (counted result.count) result.header links.new rows.new ≡ (scans (struck_by bytes.now) header.live (scan_start links.old rows.old header)).outcome }
{
    let mut cur = other_end(links, header.used, 0).wrapping_add(1);
    let mut struck = Struck { count: 0, header };
    for seen in 0..header.live {
        let slot = cur;
        // This must come before the removal, which moves the ends of the runs beside the slot.
        cur = next_slot(links, struck.header.used, slot);
        struck = strike_out(links, rows, struck, bytes, slot);
    }
    struck
}
