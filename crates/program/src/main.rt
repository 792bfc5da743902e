// The command program: a command stream of any length from standard input, its replies to standard output. The map is `hop`, the stream is
// `stream`; here is only what reads and writes. What fails is said on standard error, and the exit status is 0 all the same.
#![tactic(auto)]

mod failure;

ghost use Rattle.std.specs.Prelude.{◌≡◌, ◌+◌, ◌≤◌, ◌<◌, ◌^◌, Ok, IfOk, min, length};
ghost use Rattle.rules.specs.Start.{start_rule};
ghost use Rattle.history.specs.Histories.{left};
ghost use Rattle.commands.specs.Turns.{run_of};
ghost use Rattle.stream.specs.Feeding.{feed_rule};
ghost use Rattle.course.specs.Pieces.{Reached};
ghost use Rattle.program.specs.Places.{opening, InBuffer, rest_of, next_after, FedTo};
ghost use Rattle.program.specs.declared.Next.{Next};

use failure::Failure;
use hop::Header;
use std::io::{Print, Read};
use stream::{Fed, Phase, Stream};

// The words of both tables, 1,024 slots, and the bytes of each buffer.
const LINKS: usize = 4096;

const ROWS: usize = 8192;

const BUFFER: usize = 65536;

// What the next round does. Of a piece the bytes from `at` up to `end` of the input buffer are left; with none left it may wait all the same: for
// room, to go on with its last walk.
#[derive(Clone, Copy)]
enum Next {
    Feed { at: usize, end: usize },
    Read,
    Finish,
    Stop,
}

// An empty map of the tables, and the stream before its first byte. Start looks at no old header: any will do.
fn start_map(links: &mut [u32; LINKS], rows: &mut [u32; ROWS]) -> Result<Stream, Failure>
    ensures value { result ≡ Ok opening }
    ensures header_after { IfOk result (λ stream. record { links = links.new; rows = rows.new; header = stream.header } ≡ left (start_rule links.old rows.old (record { used = 0; live = 0 }))) }
{
    let made = hop::start(links, rows, Header { used: 0, live: 0 });
    made.answer.map_err(|_| Failure::Start)?;
    Ok(stream::opened(made.header))
}

// Writes what was replied.
fn write_reply(rt: HostRuntime, reply: &[u8]) -> Result<(), Failure> {
    rt.stdout().write_all(reply).map_err(|_| Failure::Write)
}

// What comes after a piece: what was taken of it is past, and after the end of the stream nothing is read any more.
fn next_after(at: usize, end: usize, fed: Fed) -> Next
    requires { at + fed.taken < 2 ^ 64 }
    ensures { result ≡ next_after at end fed.taken fed.waits fed.stream.phase }
{
    match fed.stream.phase {
        Phase::Ended => Next::Stop,
        Phase::Between | Phase::Gathering(_, _) | Phase::Walking(_) => {
            if fed.waits {
                Next::Feed {
                    at: at + fed.taken,
                    end,
                }
            } else {
                Next::Read
            }
        }
    }
}

// Feeds what is left of the piece, and writes what was replied.
fn feed_rest(
    rt: HostRuntime,
    links: &mut [u32],
    rows: &mut [u32],
    input: &[u8],
    out: &mut [u8],
    stream: &mut Stream,
    at: usize,
    end: usize,
) -> Result<Next, Failure>
    requires start { at ≤ end }
    requires stop { end ≤ length input.now }
    ensures in_buffer { IfOk result (λ next. InBuffer next (length input.now)) }
    ensures fed { FedTo (feed_rule (run_of links.old rows.old stream.old) (rest_of at end input.now) out.old) at end links.new rows.new stream.new out.new result }
{
    let fed = stream::feed(links, rows, *stream, &input[at..end], out).map_err(
        |_| Failure::Refused,
    )?;
    *stream = fed.stream;
    write_reply(rt, &out[..fed.written])?;
    Ok(next_after(at, end, fed))
}

// The piece that was read: as many bytes as `read` said, from the buffer's first on; none at the end of the input.
fn piece_read(got: usize, input: &[u8]) -> Next
    ensures { result ≡ Next.Feed 0 (min got (length input.now)) }
{
    Next::Feed {
        at: 0,
        end: got.min(input.len()),
    }
}

// Reads the next piece. What was replied so far is written by now.
fn read_piece(rt: HostRuntime, input: &mut [u8]) -> Result<Next, Failure>
    ensures { IfOk result (λ next. InBuffer next (length input.old)) }
{
    match rt.stdin().read(input) {
        Ok(0) => Ok(Next::Finish),
        Ok(got) => Ok(piece_read(got, input)),
        Err(_) => Err(Failure::Read),
    }
}

// At the end of the input a body cut short is answered.
fn finish(
    rt: HostRuntime,
    links: &[u32],
    rows: &[u32],
    out: &mut [u8],
    stream: Stream,
) -> Result<(), Failure> {
    let fed = stream::finish(links, rows, stream, out).map_err(|_| Failure::Refused)?;
    write_reply(rt, &out[..fed.written])
}

// Round after round. A proved loop has to end, and nothing says that the input does: no run uses up so many rounds.
fn serve(
    rt: HostRuntime,
    links: &mut [u32],
    rows: &mut [u32],
    input: &mut [u8],
    out: &mut [u8],
    stream: &mut Stream,
) -> Result<(), Failure>
    ensures { Reached (run_of links.old rows.old stream.old) (run_of links.new rows.new stream.new) }
{
    let mut next = Next::Read;
    for round in 0..u64::MAX {
        next = match next {
            Next::Feed { at, end } => feed_rest(rt, links, rows, input, out, stream, at, end)?,
            Next::Read => read_piece(rt, input)?,
            Next::Finish => return finish(rt, links, rows, out, *stream),
            Next::Stop => return Ok(()),
        };
    }
    Ok(())
}

fn run(rt: HostRuntime) -> Result<(), Failure> {
    let mut links = [0; LINKS];
    let mut rows = [0; ROWS];
    let mut input = [0; BUFFER];
    let mut out = [0; BUFFER];
    let mut stream = start_map(&mut links, &mut rows)?;
    serve(rt, &mut links, &mut rows, &mut input, &mut out, &mut stream)
}

fn main(rt: HostRuntime) {
    if let Err(failure) = run(rt) {
        // Where that fails too, nobody is left to be told.
        let _ = rt.eprintln(failure);
    }
}
