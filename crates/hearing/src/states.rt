// The states of a stream: the one it starts in, and which ones some bytes could have left.
ghost use Rattle.std.specs.Prelude.{◌≡◌};
ghost use Rattle.hearing.specs.Heard.{opened, possible};

use commands::{Phase, Stream};
use hop::Header;
use wire::BODY_BYTES;

// Before the first byte, with the header that start or rebuild has handed back.
pub fn opened(header: Header) -> Stream
    ensures { result ≡ opened header }
{
    Stream {
        header,
        phase: Phase::Between,
        body: [0; BODY_BYTES],
    }
}

// Whether some bytes could have left this state. A walk stands after a slot in use, and slot 0 is never shown.
#[tactic(auto, unfolding(crate::specs::Heard::possible))]
pub fn possible(s: Stream) -> bool
    ensures { result ≡ possible s }
{
    match s.phase {
        Phase::Between | Phase::Ended => true,
        Phase::Gathering(command, got) => got < command.body_length(),
        Phase::Walking(cursor) => 2 <= cursor && cursor <= s.header.used,
    }
}
