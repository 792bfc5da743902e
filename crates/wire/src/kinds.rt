// The command that a byte begins, and the length of its body.
ghost use Rattle.std.specs.Prelude.{◌≡◌};
ghost use Rattle.wire.specs.Commands.{command_of, body_length};

use crate::Command;

impl From<u8> for Command {
    ghost from_gives = { λ kind command. command ≡ command_of kind };

    #[tactic(auto, unfolding(crate::specs::Commands::command_of))]
    fn from(kind: u8) -> Command {
        match kind {
            1 => Command::Insert,
            2 => Command::Remove,
            3 => Command::Look,
            4 => Command::Clear,
            5 => Command::Walk,
            0 | 6..=255 => Command::Unknown,
        }
    }
}

impl Command {
    pub fn body_length(self) -> u32
        ensures { result ≡ body_length self }
    {
        match self {
            Command::Insert => 32,
            Command::Remove | Command::Look => 8,
            Command::Clear | Command::Walk | Command::Unknown => 0,
        }
    }
}
