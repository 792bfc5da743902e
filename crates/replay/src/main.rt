// The fixed list, replayed: standard input is the list without answers, standard output the list with the answers of the map. docs/LIST.md says
// its language. What fails is said on standard error.
#![tactic(auto)]

mod calling;
mod language;
mod line;
mod numbers;
mod outcome;
mod table;
mod words;

ghost use Rattle.std.specs.Prelude.{◌≤◌, length, IfOk};

use language::Command;
use line::Line;
use numbers::Numbers;
use std::fmt;
use std::fmt::Write;
use std::io::Read;
use table::Table;

// The bytes of the whole list.
const LIST: usize = 1048576;

// Why nothing is replayed, or not all.
#[derive(Clone, Copy, Debug, PartialEq, Eq)]
enum Failure {
    Reading,
    TooLong,
    Writing,
}

impl fmt::Display for Failure {
    fn fmt<W: fmt::Write>(&self, f: &mut fmt::Formatter<W>) -> fmt::Result {
        f.write_str(match self {
            Failure::Reading => "replay: reading standard input failed; nothing was replayed",
            Failure::TooLong => {
                "replay: the list is longer than the program can hold; nothing was replayed"
            }
            Failure::Writing => {
                "replay: writing standard output failed; the answers are cut short"
            }
        })
    }
}

// Comments and settings have no answer.
fn answer(table: &mut Table, out: &mut Line, line: &[u8]) {
    let numbers = Numbers::from(line);
    match Command::from(line) {
        Command::Comment => {}
        Command::Setting(setting) => table.set(setting, &numbers),
        Command::Call(call) => {
            let told = table.call(call, &numbers);
            let _ = write!(out, " => {told}");
        }
        Command::Show => {
            let _ = write!(out, " => {}", *table);
        }
        Command::Unknown => {
            out.put(b" => ");
            out.put(b"not understood");
        }
    }
}

// Line by line. The last one may lack its newline.
fn replay(rt: &impl Print, table: &mut Table, out: &mut Line, list: &[u8]) -> Result<(), Failure> {
    for part in list.split_inclusive(|byte| *byte == b'\n') {
        let line = part.strip_suffix(b"\n").unwrap_or(part);
        out.clear();
        out.put(line);
        answer(table, out, line);
        out.put(b"\n");
        rt.write_all(out.as_bytes()).map_err(|_| Failure::Writing)?;
    }
    Ok(())
}

// The whole list; answers how many bytes it has.
fn read_list(input: &mut impl Read, list: &mut [u8]) -> Result<usize, Failure>
    ensures { IfOk result (λ count. count ≤ length list.old) }
{
    let mut end = 0;
    while end < list.len() {
        match input.read(&mut list[end..]) {
            Ok(0) => return Ok(end),
            Ok(more) => end += more,
            Err(_) => return Err(Failure::Reading),
        }
    }
    Err(Failure::TooLong)
}

// The list's room comes in from outside: its length is then known without a count of its zeros.
fn run(rt: &impl Print, input: &mut impl Read, mut room: [u8; LIST]) -> Result<(), Failure> {
    let count = read_list(input, &mut room)?;
    replay(rt, &mut Table::new(), &mut Line::new(), &room[..count])
}

// The room is so large that a program has it once only.
fn main(rt: HostRuntime) {
    if let Err(failure) = run(&rt, &mut rt.stdin(), [0; LIST]) {
        let _ = rt.eprintln(failure);
    }
}
