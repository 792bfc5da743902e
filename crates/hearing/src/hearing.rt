// What one byte of the input does, and its end.
ghost use Rattle.std.specs.Prelude.{◌≡◌, ◌+◌, set};
ghost use Rattle.wire.specs.Commands.{command_of};
ghost use Rattle.commands.specs.Turns.{run_of, turned};
ghost use Rattle.hearing.specs.Heard.{gathered, with_byte, heard, ended_in};

use commands::{Phase, Stream, Turn, calm, command_turn};
use hop::Refusal;
use wire::{Body, Command, Saying};

// The body with its byte i.
fn with_byte(body: Body, i: u32, b: u8) -> Body
    ensures { result ≡ set body i b }
{
    let mut bytes = body;
    let at = i as usize;
    if at < bytes.len() {
        bytes[at] = b;
    }
    bytes
}

// A kind: the command is whole if it has no body.
fn kind_heard(links: &mut [u32], rows: &mut [u32], s: Stream, b: u8) -> Turn
    ensures { turned result links.new rows.new ≡ gathered (command_of b) 0 (run_of links.old rows.old s) }
{
    let command = Command::from(b);
    if 0 < command.body_length() {
        return calm(s, Phase::Gathering(command, 0), Saying::Silent);
    }
    command_turn(links, rows, s, command)
}

// A byte of a body of which so many have come: the command is whole if it is the last.
fn body_heard(
    links: &mut [u32],
    rows: &mut [u32],
    s: Stream,
    command: Command,
    got: u32,
    b: u8,
) -> Turn
    ensures { turned result links.new rows.new ≡ gathered command (got + 1) (with_byte (run_of links.old rows.old s) got b) }
{
    let body = with_byte(s.body, got, b);
    let t = Stream { body, ..s };
    if got < command.body_length().saturating_sub(1) {
        return calm(t, Phase::Gathering(command, got + 1), Saying::Silent);
    }
    command_turn(links, rows, t, command)
}

#[tactic(auto, unfolding(crate::specs::Heard::heard))]
pub fn heard(links: &mut [u32], rows: &mut [u32], s: Stream, b: u8) -> Turn
    ensures { turned result links.new rows.new ≡ heard (run_of links.old rows.old s) b }
{
    match s.phase {
        Phase::Between => kind_heard(links, rows, s, b),
        Phase::Gathering(command, got) => body_heard(links, rows, s, command, got, b),
        Phase::Walking(_) | Phase::Ended => calm(s, s.phase, Saying::Silent),
    }
}

// The end of the input: a cut body ends the run with 9.
pub fn ended(s: Stream) -> Turn
    ensures { result ≡ ended_in s.phase s }
{
    match s.phase {
        Phase::Gathering(_, _) => calm(s, Phase::Ended, Saying::from(Refusal::BrokenStream)),
        Phase::Between | Phase::Walking(_) | Phase::Ended => calm(s, s.phase, Saying::Silent),
    }
}
