// One function for each command, and one for a step of a walk.
ghost use Rattle.std.specs.Prelude.{◌≡◌, MatchResult};
ghost use Rattle.rules.specs.Words.{zero_row};
ghost use Rattle.rules.specs.Refusals.{number_of};
ghost use Rattle.wire.specs.declared.Saying.{Saying};
ghost use Rattle.commands.specs.Turns.{run_of, turned, calmly, insert_turn, remove_turn, show_turn, look_turn, clear_turn, walk_turn, command_turn};

use crate::{Phase, Stream, Turn};
use access::look_row;
use hop::{Cursor, Handed, HandedRow, HopAnswer, Key, ROW_WORDS, Refusal};
use wire::words::{key_in, row_in};
use wire::{Command, Saying};

// A turn without a call: the phase changes, and something is said or not.
pub fn calm(s: Stream, phase: Phase, saying: Saying) -> Turn
    ensures { result ≡ calmly s phase saying }
{
    Turn {
        stream: Stream { phase, ..s },
        saying,
        row: [0; ROW_WORDS],
    }
}

// What a call leaves, where it hands no row out.
fn rowless<T>(handed: Handed<T>) -> HandedRow<T>
    ensures { result ≡ record { answer = handed.answer; row = zero_row; header = handed.header } }
{
    HandedRow {
        answer: handed.answer,
        row: [0; ROW_WORDS],
        header: handed.header,
    }
}

// The turn of a call: what it gave is said as told, a refusal by its number.
fn turn<T, F: FnOnce(T) -> Saying>(s: Stream, phase: Phase, handed: HandedRow<T>, say: F) -> Turn
    requires { F.IsAlwaysCallable say }
    ensures stream_value { result.stream ≡ record { header = handed.header; phase = phase; body = s.body } }
    ensures said { MatchResult handed.answer (λ given. F.post say given result.saying) (λ refusal. result.saying ≡ Saying.Refused (number_of refusal)) }
    ensures row_value { result.row ≡ handed.row }
{
    let HandedRow {
        answer,
        row,
        header,
    } = handed;
    let saying = match answer {
        Ok(given) => say(given),
        Err(refusal) => Saying::from(refusal),
    };
    Turn {
        stream: Stream { header, phase, ..s },
        saying,
        row,
    }
}

fn insert_turn(links: &mut [u32], rows: &mut [u32], s: Stream) -> Turn
    ensures { turned result links.new rows.new ≡ insert_turn (run_of links.old rows.old s) }
{
    let inserted = hop::insert(links, rows, s.header, &row_in(&s.body));
    turn(s, Phase::Between, rowless(inserted), Saying::WithKey)
}

fn remove_turn(links: &mut [u32], rows: &mut [u32], s: Stream) -> Turn
    ensures { turned result links.new rows.new ≡ remove_turn (run_of links.old rows.old s) }
{
    let removed = hop::remove(links, rows, s.header, key_in(&s.body));
    turn(s, Phase::Between, removed, Saying::WithRow)
}

// A key and its row are shown, and the stream goes on in a phase.
fn show_turn(links: &[u32], rows: &[u32], s: Stream, phase: Phase, key: Key) -> Turn
    ensures { turned result links.now rows.now ≡ show_turn (run_of links.now rows.now s) phase key }
{
    let shown = look_row(links, rows, s.header, key);
    turn(s, phase, shown, Saying::WithRow)
}

fn look_turn(links: &[u32], rows: &[u32], s: Stream) -> Turn
    ensures { turned result links.now rows.now ≡ look_turn (run_of links.now rows.now s) }
{
    let key = key_in(&s.body);
    show_turn(links, rows, s, Phase::Between, key)
}

fn clear_turn(links: &mut [u32], rows: &mut [u32], s: Stream) -> Turn
    ensures { turned result links.new rows.new ≡ clear_turn (run_of links.old rows.old s) }
{
    let cleared = hop::clear(links, rows, s.header);
    turn(s, Phase::Between, rowless(cleared), |()| Saying::Done)
}

// One step of a walk, from its cursor.
pub fn walk_turn(links: &[u32], rows: &[u32], s: Stream, cursor: Cursor) -> Turn
    ensures { turned result links.now rows.now ≡ walk_turn (run_of links.now rows.now s) cursor }
{
    match hop::hop_step(links, rows, s.header, cursor).answer {
        Ok(HopAnswer::Visited(key, next)) => show_turn(links, rows, s, Phase::Walking(next), key),
        Ok(HopAnswer::Done) => calm(s, Phase::Between, Saying::Done),
        Err(refusal) => calm(s, Phase::Between, Saying::from(refusal)),
    }
}

// A command whose body is whole.
pub fn command_turn(links: &mut [u32], rows: &mut [u32], s: Stream, command: Command) -> Turn
    ensures { turned result links.new rows.new ≡ command_turn command (run_of links.old rows.old s) }
{
    match command {
        Command::Insert => insert_turn(links, rows, s),
        Command::Remove => remove_turn(links, rows, s),
        Command::Look => look_turn(links, rows, s),
        Command::Clear => clear_turn(links, rows, s),
        Command::Walk => calm(s, Phase::Walking(0), Saying::Silent),
        Command::Unknown => calm(s, Phase::Ended, Saying::from(Refusal::BrokenStream)),
    }
}
