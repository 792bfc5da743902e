// The answered line, in fixed memory.
ghost use Rattle.std.specs.Prelude.{◌≡◌, ◌-◌, ◌≤◌, ◌<◌, [], ◌++◌, length};
ghost use Rattle.arrayvec.specs.ArrayVec.{array_vec_len};
ghost use Rattle.replay.specs.declared.line.TheConstants.{LINE};

use arrayvec::ArrayVec;
use std::fmt;

// The most bytes of one answered line.
const LINE: usize = 65536;

// Takes piece by piece; a piece that does not fit is dropped, whole.
#[derive(Drop)]
pub(crate) struct Line {
    bytes: ArrayVec<u8, LINE>,
}

impl Line {
    pub(crate) fn new() -> Line
        ensures { result.bytes.items ≡ [] }
    {
        Line {
            bytes: ArrayVec::new(),
        }
    }

    pub(crate) fn clear(&mut self)
        ensures { self.new.bytes.items ≡ [] }
    {
        self.bytes.clear();
    }

    pub(crate) fn as_bytes(&self) -> &[u8]
        ensures { result.now ≡ self.now.bytes.items }
    {
        self.bytes.as_slice()
    }

    // One piece.
    pub(crate) fn put(&mut self, piece: &[u8])
        ensures dropped { LINE - array_vec_len self.old.bytes < length piece.now → self.new ≡ self.old }
        ensures taken { length piece.now ≤ LINE - array_vec_len self.old.bytes → self.new.bytes.items ≡ self.old.bytes.items ++ piece.now }
    {
        let _ = self.bytes.try_extend_from_slice(piece);
    }
}

// No piece fails.
impl fmt::Write for Line {
    fn write_str(&mut self, piece: &str) -> fmt::Result {
        self.put(piece.as_bytes());
        Ok(())
    }
}
