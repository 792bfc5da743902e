// A piece of the input, turn after turn.
ghost use Rattle.std.specs.Prelude.{◌≡◌, true, ◌<◌, length};
ghost use Rattle.rules.specs.Choice.{both};
ghost use Rattle.wire.specs.Replies.{saying_bytes, fits, replied, replied_to};
ghost use Rattle.commands.specs.Turns.{run_of};
ghost use Rattle.stream.specs.Feeding.{feeding, heard_once, fed_once, waiting, fed, begun, fed_whole, feed_rule, finish_rule};

use crate::Fed;
use crate::refusing::check_feed;
use commands::{Phase, Stream, Turn, walk_turn};
use hearing::{ended, heard};
use hop::Refusal;
use replies::{fits, put_reply};

// How far a piece is: the state, the bytes taken of the input and written to the output.
#[derive(Clone, Copy)]
pub struct Progress {
    pub stream: Stream,
    pub taken: usize,
    pub written: usize,
}

// The reply of a turn follows what is written.
fn spoken(out: &mut [u8], taken: usize, written: usize, t: Turn) -> Progress
    ensures value { result ≡ record { stream = t.stream; taken = taken; written = replied_to out.old written (saying_bytes t.saying t.row) } }
    ensures out_after { out.new ≡ replied out.old written (saying_bytes t.saying t.row) }
{
    Progress {
        stream: t.stream,
        taken,
        written: put_reply(out, written, t.saying, &t.row),
    }
}

// The next byte of the input is heard.
fn heard_once(
    links: &mut [u32],
    rows: &mut [u32],
    input: &[u8],
    out: &mut [u8],
    f: Progress,
) -> Progress
    requires { f.taken < length input.now }
    ensures { feeding result links.new rows.new out.new ≡ heard_once input.now (feeding f links.old rows.old out.old) }
{
    let t = heard(links, rows, f.stream, input[f.taken]);
    spoken(out, f.taken + 1, f.written, t)
}

// One turn, where one is to come: a step of the walk that is under way, else the next byte.
#[tactic(auto, unfolding(crate::specs::Feeding::fed_once))]
fn fed_once(
    links: &mut [u32],
    rows: &mut [u32],
    input: &[u8],
    out: &mut [u8],
    f: Progress,
) -> Progress
    requires { waiting (length input.now) f ≡ true }
    ensures { feeding result links.new rows.new out.new ≡ fed_once input.now (feeding f links.old rows.old out.old) }
{
    match f.stream.phase {
        Phase::Walking(cursor) => {
            let t = walk_turn(links, rows, f.stream, cursor);
            spoken(out, f.taken, f.written, t)
        }
        Phase::Between | Phase::Gathering(_, _) | Phase::Ended => {
            heard_once(links, rows, input, out, f)
        }
    }
}

// Whether something is to be done with so many bytes of input: a byte to hear, or a walk to go on with.
fn waits(f: Progress, n: usize) -> bool
    ensures { result ≡ waiting n f }
{
    match f.stream.phase {
        Phase::Between | Phase::Gathering(_, _) => f.taken < n,
        Phase::Walking(_) => true,
        Phase::Ended => false,
    }
}

// Whether a turn is to come, and any reply has room.
fn going(f: Progress, n: usize, room: usize) -> bool
    ensures { result ≡ both (fits room f.written) (waiting n f) }
{
    fits(room, f.written) && waits(f, n)
}

// Turn after turn.
fn fed_whole(
    links: &mut [u32],
    rows: &mut [u32],
    s: Stream,
    input: &[u8],
    out: &mut [u8],
) -> Progress
    ensures { feeding result links.new rows.new out.new ≡ fed_whole input.now (begun (run_of links.old rows.old s) out.old) }
{
    let mut f = Progress {
        stream: s,
        taken: 0,
        written: 0,
    };
    while going(f, input.len(), out.len()) {
        f = fed_once(links, rows, input, out, f);
    }
    f
}

// What a piece of so many bytes hands back.
fn piece(f: Progress, n: usize) -> Fed
    ensures { result ≡ record { taken = f.taken; written = f.written; waits = waiting n f; stream = f.stream } }
{
    Fed {
        taken: f.taken,
        written: f.written,
        waits: waits(f, n),
        stream: f.stream,
    }
}

// Feeds a piece of the input: hears its bytes and writes the replies, until the piece is heard, the output is full or the run is at its end. Refused
// with 1 for tables or a header of the wrong shape, an output of fewer than LONGEST bytes, or a state that no bytes could have left; then nothing is
// done, and the state is the one that was given.
#[tactic(auto, unfolding(crate::specs::Feeding::feed_rule, crate::specs::Feeding::waits), using(crate::proofs::Numbered::pieces))]
pub fn feed(
    links: &mut [u32],
    rows: &mut [u32],
    s: Stream,
    input: &[u8],
    out: &mut [u8],
) -> Result<Fed, Refusal>
    ensures { fed s result links.new rows.new out.new ≡ feed_rule (run_of links.old rows.old s) input.now out.old }
{
    check_feed(links, rows, s, out.len())?;
    let f = fed_whole(links, rows, s, input, out);
    Ok(piece(f, input.len()))
}

// The end of the input, when every byte is heard and every walk at its end: a cut body is answered with 9. Refused as a piece is.
#[tactic(auto, unfolding(crate::specs::Feeding::finish_rule, crate::specs::Feeding::waits), using(crate::proofs::Numbered::pieces))]
pub fn finish(links: &[u32], rows: &[u32], s: Stream, out: &mut [u8]) -> Result<Fed, Refusal>
    ensures { fed s result links.now rows.now out.new ≡ finish_rule (run_of links.now rows.now s) out.old }
{
    check_feed(links, rows, s, out.len())?;
    let f = spoken(out, 0, 0, ended(s));
    Ok(piece(f, 0))
}
