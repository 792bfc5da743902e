// The tables that the lines of the list set and the calls change, and how they are shown.
ghost use Rattle.std.specs.Prelude.{◌≡◌, ◌≢◌, ◌≤◌, length, slice_index};
ghost use Rattle.replay.specs.declared.language.Setting.{Setting};
ghost use Rattle.replay.specs.declared.table.TheConstants.{LINKS, ROWS};

use crate::calling::Lent;
use crate::language::{Call, Setting};
use crate::numbers::Numbers;
use crate::outcome::{Outcome, Spaced, Told};
use crate::words::{count_from, part, word_at};
use hop::{Header, LINK_WORDS, ROW_WORDS};
use std::fmt;

// The words of both tables, one slot more than may be lent.
const LINKS: usize = 16388;

const ROWS: usize = 32776;

// What every word of both tables is at the start of a history.
const NEVER_SET: u32 = 3735928559;

const EMPTY: Header = Header { used: 0, live: 0 };

// Both tables whole, how many words of each are lent, and the header last set or answered.
#[derive(Drop)]
pub(crate) struct Table {
    links: [u32; LINKS],
    rows: [u32; ROWS],
    lent_links: usize,
    lent_rows: usize,
    header: Header,
    ghost links_within: { lent_links ≤ LINKS },
    ghost rows_within: { lent_rows ≤ ROWS },
}

impl Table {
    pub(crate) fn new() -> Table
        ensures { result.header ≡ record { used = 0; live = 0 } }
    {
        Table {
            links: [0; LINKS],
            rows: [0; ROWS],
            lent_links: 0,
            lent_rows: 0,
            header: EMPTY,
        }
    }

    // A setting reaches the whole tables.
    pub(crate) fn set(&mut self, setting: Setting, numbers: &Numbers)
        ensures lent { setting ≢ Setting.Lend → self.new.lent_links ≡ self.old.lent_links }
        ensures header { setting ≡ Setting.Header → self.new.header ≡ record { used = slice_index numbers.now.words.items 0; live = slice_index numbers.now.words.items 1 } }
    {
        match setting {
            Setting::Lend => self.lend(numbers),
            Setting::Header => {
                self.header = Header {
                    used: numbers.at(0),
                    live: numbers.at(1),
                }
            }
            Setting::Links => self.set_links(numbers),
            Setting::Row => set_row(&mut self.rows, numbers.at(0), numbers.at(1)),
        }
    }

    fn lend(&mut self, numbers: &Numbers) {
        self.links.fill(NEVER_SET);
        self.rows.fill(NEVER_SET);
        self.lent_links = (numbers.at(0) as usize).min(LINKS);
        self.lent_rows = (numbers.at(1) as usize).min(ROWS);
        self.header = EMPTY;
    }

    // Where not all four words are there, or there is no such slot, nothing.
    fn set_links(&mut self, numbers: &Numbers)
        ensures { self.new.lent_links ≡ self.old.lent_links }
    {
        let at = numbers.at(0) as usize * LINK_WORDS;
        let words = part(numbers.as_slice(), 1, LINK_WORDS);
        if let Some(links) = self.links.get_mut(at..at + words.len()) {
            links.copy_from_slice(words);
        }
    }

    pub(crate) fn call(&mut self, call: Call, numbers: &Numbers) -> Told
        ensures { self.new.header ≡ result.header }
    {
        match call {
            Call::LookMut => self.watch(numbers),
            _ => self.call_on_lent(call, numbers),
        }
    }

    // A call reaches what is lent. The header that it hands back is the next one's.
    fn call_on_lent(&mut self, call: Call, numbers: &Numbers) -> Told
        ensures { self.new.header ≡ result.header }
    {
        let Table {
            links,
            rows,
            lent_links,
            lent_rows,
            header,
        } = self;
        let lent = Lent {
            links: &mut links[..*lent_links],
            rows: &mut rows[..*lent_rows],
            header: *header,
        };
        let told = lent.call(call, numbers);
        *header = told.header;
        told
    }

    // A look to write through. Where it leaves other rows than there were, with that row written where it is not refused, an answer that no list
    // has: what the table holds after look_mut is in no contract (docs/EXCEPTIONS.md). The links are lent to read.
    fn watch(&mut self, numbers: &Numbers) -> Told
        ensures { self.new.header ≡ result.header }
    {
        let mut wanted = self.rows;
        let told = self.call_on_lent(Call::LookMut, numbers);
        if told.outcome == Outcome::Done {
            set_row(&mut wanted, numbers.at(0), numbers.at(2));
        }
        if self.rows == wanted {
            return told;
        }
        Told::new(Outcome::WroteElsewhere, told.header)
    }

    fn version(&self, slot: u32) -> u32 {
        word_at(&self.links, slot as usize * LINK_WORDS)
    }

    // An odd version.
    fn is_occupied(&self, slot: u32) -> bool {
        self.version(slot) % 2 == 1
    }

    // What means something of one slot, after its version.
    fn meaning(&self, slot: u32) -> &[u32] {
        let first = slot as usize * LINK_WORDS;
        if self.is_occupied(slot) {
            return part(&self.rows, slot as usize * ROW_WORDS, ROW_WORDS);
        }
        if slot == 0 || self.is_occupied(slot.wrapping_sub(1)) {
            return part(&self.links, first + 1, 3);
        }
        let next = slot.wrapping_add(1);
        if next == self.header.used || self.is_occupied(next) {
            return part(&self.links, first + 3, 1);
        }
        &[]
    }
}

// The table as far as it means something.
impl fmt::Display for Table {
    fn fmt<W: fmt::Write>(&self, f: &mut fmt::Formatter<W>) -> fmt::Result {
        let slots = (LINKS / LINK_WORDS) as u32;
        for slot in 0..self.header.used.min(slots) {
            if slot != 0 {
                f.write_str(" ; ")?;
            }
            write!(f, "{}{}", self.version(slot), Spaced(self.meaning(slot)))?;
        }
        Ok(())
    }
}

// The row of a slot becomes the word and those after it; where there is no such slot, nothing.
fn set_row(rows: &mut [u32], slot: u32, word: u32)
    ensures { length rows.new ≡ length rows.old }
{
    let at = slot as usize * ROW_WORDS;
    if let Some(row) = rows.get_mut(at..at + ROW_WORDS) {
        count_from(word, row);
    }
}
