// The replies, written to the output from a byte on. Each is written whole or not at all.
#![tactic(auto)]

ghost use Rattle.std.specs.Prelude.{◌≡◌, ◌+◌, ◌*◌, ◌≤◌, length};
ghost use Rattle.std.proofs.lemmas.List.Edits.{sets};
ghost use Rattle.wire.specs.Words.{words_bytes};
ghost use Rattle.wire.specs.Replies.{saying_bytes, fits, replied, replied_to};

use rules::Row;
use wire::{LONGEST, ReplyKind, Saying};

// Whether any reply fits into an output of so many bytes from byte at on.
#[tactic(auto, unfolding(wire::specs::Replies::fits))]
pub fn fits(room: usize, at: usize) -> bool
    ensures { result ≡ fits room at }
{
    LONGEST <= room && at <= room - LONGEST
}

// Bytes, from byte at on; answers the byte after them.
#[tactic(auto, using(wire::proofs::Sets::copied))]
fn put(out: &mut [u8], at: usize, bytes: &[u8]) -> usize
    requires { at + length bytes.now ≤ length out.old }
    ensures value { result ≡ at + length bytes.now }
    ensures out_after { out.new ≡ sets out.old at bytes.now }
{
    let end = at + bytes.len();
    out[at..end].copy_from_slice(bytes);
    end
}

// Words, each low byte first.
#[tactic(auto, unfolding(wire::specs::Words::words_bytes, wire::specs::Words::bytes_of), using(wire::proofs::Sets::sets_words_more))]
fn put_words(out: &mut [u8], at: usize, words: &[u32]) -> usize
    requires { at + length words.now * 4 ≤ length out.old }
    ensures value { result ≡ at + length words.now * 4 }
    ensures out_after { out.new ≡ sets out.old at (words_bytes words.now) }
{
    let mut end = at;
    for word in words {
        end = put(out, end, &word.to_le_bytes());
    }
    end
}

// What is said, from byte at on, where any reply fits there; answers the byte after it. A key is written index first.
#[tactic(auto, unfolding(wire::specs::Words::words_bytes, wire::specs::Words::key_bytes, wire::specs::Replies::saying_bytes, wire::specs::Replies::replied, wire::specs::Replies::replied_to, wire::specs::Replies::fits), using(wire::proofs::Sets::stores))]
pub fn put_reply(out: &mut [u8], at: usize, saying: Saying, row: &Row) -> usize
    ensures value { result ≡ replied_to out.old at (saying_bytes saying row.now) }
    ensures out_after { out.new ≡ replied out.old at (saying_bytes saying row.now) }
{
    if !fits(out.len(), at) {
        return at;
    }
    match saying {
        Saying::Silent => at,
        Saying::WithKey(key) => {
            let end = put(out, at, &[ReplyKind::Key as u8]);
            put_words(out, end, &[key.index, key.version])
        }
        Saying::WithRow(key) => {
            let end = put(out, at, &[ReplyKind::Row as u8]);
            let end = put_words(out, end, &[key.index, key.version]);
            put_words(out, end, row)
        }
        Saying::Done => put(out, at, &[ReplyKind::Done as u8]),
        Saying::Refused(number) => {
            put(out, at, &[ReplyKind::Refused as u8, (number % 256) as u8])
        }
    }
}
