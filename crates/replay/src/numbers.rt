// The numbers of a line, after its first word, and what they stand for in a call.
ghost use Rattle.std.specs.Prelude.{◌≡◌, min, slice_index};
ghost use Rattle.arrayvec.specs.ArrayVec.{array_vec_len};
ghost use Rattle.replay.specs.declared.numbers.TheConstants.{SIDE};

use crate::words::{count_from, word_at};
use arrayvec::ArrayVec;
use hop::Key;

// The most numbers that are read of a line.
const NUMBERS: usize = 64;

// The most words of a side buffer.
const SIDE: usize = 16;

#[derive(Drop)]
pub(crate) struct Numbers {
    words: ArrayVec<u32, NUMBERS>,
}

impl From<&[u8]> for Numbers {
    // Each number stands after a space. Those for which there is no room are dropped.
    fn from(line: &[u8]) -> Numbers {
        let mut words = ArrayVec::new();
        let texts = line.split(|byte| *byte == b' ').skip(1);
        let _ = words.extend(texts.map(number_in));
        Numbers { words }
    }
}

impl Numbers {
    pub(crate) fn as_slice(&self) -> &[u32]
        ensures { result.now ≡ self.now.words.items }
    {
        self.words.as_slice()
    }

    // A number that the line does not have counts as 0.
    pub(crate) fn at(&self, place: usize) -> u32
        ensures { result ≡ slice_index self.now.words.items place }
    {
        word_at(self.as_slice(), place)
    }

    // The first two are the key of a call.
    pub(crate) fn key(&self) -> Key
        ensures { result ≡ record { index = slice_index self.now.words.items 0; version = slice_index self.now.words.items 1 } }
    {
        Key {
            index: self.at(0),
            version: self.at(1),
        }
    }

    // The low byte of each.
    pub(crate) fn low_bytes(&self) -> ArrayVec<u8, NUMBERS>
        ensures { array_vec_len result ≡ array_vec_len self.now.words }
    {
        let mut bytes = ArrayVec::new();
        for word in self.words.as_slice() {
            bytes.push((*word % 256) as u8);
        }
        bytes
    }
}

// A side buffer: the first word, those after it, and how many there are.
pub(crate) fn side(first: u32, count: u32) -> ArrayVec<u32, SIDE>
    ensures { array_vec_len result ≡ min count SIDE }
{
    let mut words = [0; SIDE];
    count_from(first, &mut words);
    let mut side = ArrayVec::from(words);
    side.truncate(count as usize);
    side
}

// What is no digit, or too large a number, gives some number all the same.
fn number_in(digits: &[u8]) -> u32 {
    digits.iter().fold(0u32, |number, digit| {
        number
            .wrapping_mul(10)
            .wrapping_add(u32::from(digit.wrapping_sub(b'0')))
    })
}
