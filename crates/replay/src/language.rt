// A line of the list: what it asks for, by its first word. docs/LIST.md says the language.
ghost use Rattle.std.specs.Prelude.{◌≡◌, ℕ, ◌≤◌, ◌<◌, ◌≢◌, min, length, slice_index};

// What a line sets.
#[derive(Clone, Copy, Debug, PartialEq, Eq)]
pub(crate) enum Setting {
    Lend,
    Header,
    Links,
    Row,
}

// The calls of the map.
#[derive(Clone, Copy, Debug, PartialEq, Eq)]
pub(crate) enum Call {
    Start,
    Room,
    KeyNumber,
    Look,
    LookMut,
    Replace,
    Insert,
    Remove,
    HopStep,
    DrainStep,
    Clear,
    Retain,
    Rebuild,
    Sound,
}

// What a line asks for.
#[derive(Clone, Copy, Debug, PartialEq, Eq)]
pub(crate) enum Command {
    Comment,
    Setting(Setting),
    Call(Call),
    Show,
    Unknown,
}

impl From<&[u8]> for Command {
    fn from(line: &[u8]) -> Command {
        match line {
            [] | [b'#', ..] => Command::Comment,
            _ => named(&line[..find(line, 0, b' ')]),
        }
    }
}

// The command of a first word.
fn named(word: &[u8]) -> Command {
    match word {
        b"lend" => Command::Setting(Setting::Lend),
        b"header" => Command::Setting(Setting::Header),
        b"links" => Command::Setting(Setting::Links),
        b"row" => Command::Setting(Setting::Row),
        b"start" => Command::Call(Call::Start),
        b"room" => Command::Call(Call::Room),
        b"key_number" => Command::Call(Call::KeyNumber),
        b"look" => Command::Call(Call::Look),
        b"look_mut" => Command::Call(Call::LookMut),
        b"replace" => Command::Call(Call::Replace),
        b"insert" => Command::Call(Call::Insert),
        b"remove" => Command::Call(Call::Remove),
        b"hop_step" => Command::Call(Call::HopStep),
        b"drain_step" => Command::Call(Call::DrainStep),
        b"clear" => Command::Call(Call::Clear),
        b"retain" => Command::Call(Call::Retain),
        b"rebuild" => Command::Call(Call::Rebuild),
        b"sound" => Command::Call(Call::Sound),
        b"show" => Command::Show,
        _ => Command::Unknown,
    }
}

// The place of the first such byte of a text, from byte `from` on; the text's length where there is none.
pub(crate) fn find(text: &[u8], from: usize, byte: u8) -> usize
    ensures after { min from (length text.now) ≤ result }
    ensures within { result ≤ length text.now }
    ensures before { (k : ℕ) → from ≤ k → k < result → slice_index text.now k ≢ byte }
    ensures found { result < length text.now → slice_index text.now result ≡ byte }
{
    let start = from.min(text.len());
    match text[start..].iter().position(|each| *each == byte) {
        Some(place) => start + place,
        None => text.len(),
    }
}
