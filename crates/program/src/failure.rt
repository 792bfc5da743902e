// What can fail, and how it is said.
use std::error::Error;
use std::fmt;

#[derive(Clone, Copy, Debug, PartialEq, Eq)]
pub enum Failure {
    // The program's tables are not refused (starts, of the proofs).
    Start,
    Read,
    Write,
    // No piece is refused (never_refused, of the laws of `course`).
    Refused,
}

impl fmt::Display for Failure {
    fn fmt<W: fmt::Write>(&self, f: &mut fmt::Formatter<W>) -> fmt::Result {
        f.write_str(match self {
            Failure::Start => {
                "program: the tables were refused, which is a fault of the program; nothing was read"
            }
            Failure::Read => {
                "program: reading standard input failed; the replies so far are complete"
            }
            Failure::Write => {
                "program: writing standard output failed; replies are lost: give it a place that takes them"
            }
            Failure::Refused => {
                "program: the stream was refused, which is a fault of the program; the replies so far are complete"
            }
        })
    }
}

impl Error for Failure {}
