// The calls of the face `hop`, each on what is lent.
ghost use Rattle.std.specs.Prelude.{◌≡◌};
ghost use Rattle.replay.specs.declared.language.Call.{Call};

use crate::language::Call;
use crate::numbers::{Numbers, side};
use crate::outcome::{Outcome, Told};
use crate::words::count_from;
use hop::{Header, Key, Row};

// What is lent of both tables, and the header.
#[derive(Drop)]
pub(crate) struct Lent<'a> {
    pub(crate) links: &'a mut [u32],
    pub(crate) rows: &'a mut [u32],
    pub(crate) header: Header,
}

impl Lent<'_> {
    // Key number and the looks hand no header back: it stays as it was.
    pub(crate) fn call(self, call: Call, numbers: &Numbers) -> Told
        ensures number { call ≡ Call.KeyNumber → result.header ≡ self.entry.header }
        ensures look { call ≡ Call.Look → result.header ≡ self.entry.header }
        ensures look_mut { call ≡ Call.LookMut → result.header ≡ self.entry.header }
    {
        let Lent {
            links,
            rows,
            header,
        } = self;
        let key = numbers.key();
        match call {
            Call::Start => Told::from(hop::start(links, rows, header)),
            Call::Room => Told::from(hop::room(links, rows, header)),
            Call::KeyNumber => Told::new(key_number(links, rows, header, key), header),
            Call::Look => Told::new(look(links, rows, header, key), header),
            Call::LookMut => {
                Told::new(look_mut(links, rows, header, key, numbers.at(2)), header)
            }
            Call::Replace => {
                let side = side(numbers.at(2), numbers.at(3));
                Told::from(hop::replace(links, rows, header, key, side.as_slice()))
            }
            Call::Insert => {
                let side = side(numbers.at(0), numbers.at(1));
                Told::from(hop::insert(links, rows, header, side.as_slice()))
            }
            Call::Remove => Told::from(hop::remove(links, rows, header, key)),
            Call::HopStep => Told::from(hop::hop_step(links, rows, header, numbers.at(0))),
            Call::DrainStep => Told::from(hop::drain_step(links, rows, header)),
            Call::Clear => Told::from(hop::clear(links, rows, header)),
            Call::Retain => {
                Told::from(hop::retain(links, rows, header, numbers.low_bytes().as_slice()))
            }
            Call::Rebuild => {
                Told::from(hop::rebuild(links, rows, header, numbers.low_bytes().as_slice()))
            }
            Call::Sound => Told::from(hop::sound(links, rows, header)),
        }
    }
}

// Done for a live key, else refused with its number.
fn key_number(links: &[u32], rows: &[u32], header: Header, key: Key) -> Outcome {
    match hop::key_number(links, rows, header, key) {
        0 => Outcome::Done,
        number => Outcome::Refused(number),
    }
}

// An empty part is told with the number of the key.
fn look(links: &[u32], rows: &[u32], header: Header, key: Key) -> Outcome {
    match Row::try_from(hop::look(links, rows, header, key)) {
        Ok(row) => Outcome::Row(key, row),
        Err(_) => key_number(links, rows, header, key),
    }
}

// A look to write through: the row becomes the word and those after it. An empty part is told with the number of the key.
fn look_mut(links: &[u32], rows: &mut [u32], header: Header, key: Key, word: u32) -> Outcome {
    let told = key_number(links, rows, header, key);
    let part = hop::look_mut(links, rows, header, key);
    if part.is_empty() {
        return told;
    }
    count_from(word, part);
    Outcome::Done
}
