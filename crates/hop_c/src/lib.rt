// The C surface: every call of the face as a function that C can call, over slices and numbers, each with one flat answer. include/hop.h is its
// header file. look_mut has no function here, since no reference goes back over extern "C": hop_row of the header file stands for it.
#![tactic(auto)]

ghost use Rattle.std.specs.Prelude.{◌≡◌};
ghost use Rattle.rules.specs.Start.{start_rule, room_rule};
ghost use Rattle.rules.specs.Access.{look_row_rule, replace_rule};
ghost use Rattle.rules.specs.Insert.{insert_rule};
ghost use Rattle.rules.specs.Remove.{remove_rule};
ghost use Rattle.rules.specs.Hop.{hop_rule};
ghost use Rattle.rules.specs.Drain.{drain_rule};
ghost use Rattle.rules.specs.Check.{check_rule};
ghost use Rattle.rules.specs.Clear.{clear_rule};
ghost use Rattle.rules.specs.Retain.{retain_rule};
ghost use Rattle.rules.specs.Rebuild.{rebuild_rule};
ghost use Rattle.flat.specs.Flat.{layout, surfaced, flattened, key_number_rule};

use flat::{Answer, LAYOUT};
use rules::{Cursor, Handed, Header, Key};

// The version of the answer's layout in this archive: a caller compares it with the header file's before any other call.
#[unsafe(no_mangle)]
pub extern "C" fn hop_layout() -> u32
    ensures { result ≡ layout }
{
    LAYOUT
}

// Makes an empty map of what is lent.
#[unsafe(no_mangle)]
pub extern "C" fn hop_start(links: &mut [u32], rows: &mut [u32], used: u32, live: u32) -> Answer
    ensures { surfaced result links.new rows.new ≡ flattened (start_rule links.old rows.old (record { used = used; live = live })) }
{
    Answer::from(hop::start(links, rows, Header { used, live }))
}

// How many slots are lent and not live.
#[unsafe(no_mangle)]
pub extern "C" fn hop_room(links: &[u32], rows: &[u32], used: u32, live: u32) -> Answer
    ensures { surfaced result links.now rows.now ≡ flattened (room_rule links.now rows.now (record { used = used; live = live })) }
{
    Answer::from(hop::room(links, rows, Header { used, live }))
}

// Done for a live key, else refused with its number.
#[unsafe(no_mangle)]
pub extern "C" fn hop_key_number(
    links: &[u32],
    rows: &[u32],
    used: u32,
    live: u32,
    index: u32,
    version: u32,
) -> Answer
    ensures { surfaced result links.now rows.now ≡ flattened (key_number_rule links.now rows.now (record { used = used; live = live }) (record { index = index; version = version })) }
{
    let header = Header { used, live };
    Answer::from(Handed {
        answer: refusals::check_key(links, rows, header, Key { index, version }),
        header,
    })
}

// A live key and its row, by value.
#[unsafe(no_mangle)]
pub extern "C" fn hop_look(
    links: &[u32],
    rows: &[u32],
    used: u32,
    live: u32,
    index: u32,
    version: u32,
) -> Answer
    ensures { surfaced result links.now rows.now ≡ flattened (look_row_rule links.now rows.now (record { used = used; live = live }) (record { index = index; version = version })) }
{
    Answer::from(access::look_row(links, rows, Header { used, live }, Key { index, version }))
}

// The row of a live key becomes the side buffer.
#[unsafe(no_mangle)]
pub extern "C" fn hop_replace(
    links: &[u32],
    rows: &mut [u32],
    used: u32,
    live: u32,
    index: u32,
    version: u32,
    side: &[u32],
) -> Answer
    ensures { surfaced result links.now rows.new ≡ flattened (replace_rule links.now rows.old (record { used = used; live = live }) (record { index = index; version = version }) side.now) }
{
    Answer::from(hop::replace(
        links,
        rows,
        Header { used, live },
        Key { index, version },
        side,
    ))
}

// Takes a row in from the side buffer and answers with its key.
#[unsafe(no_mangle)]
pub extern "C" fn hop_insert(
    links: &mut [u32],
    rows: &mut [u32],
    used: u32,
    live: u32,
    side: &[u32],
) -> Answer
    ensures { surfaced result links.new rows.new ≡ flattened (insert_rule links.old rows.old (record { used = used; live = live }) side.now) }
{
    Answer::from(hop::insert(links, rows, Header { used, live }, side))
}

// Takes the row of a live key out and hands it back.
#[unsafe(no_mangle)]
pub extern "C" fn hop_remove(
    links: &mut [u32],
    rows: &mut [u32],
    used: u32,
    live: u32,
    index: u32,
    version: u32,
) -> Answer
    ensures { surfaced result links.new rows.new ≡ flattened (remove_rule links.old rows.old (record { used = used; live = live }) (record { index = index; version = version })) }
{
    Answer::from(hop::remove(links, rows, Header { used, live }, Key { index, version }))
}

// The hop step: the next live slot from the cursor on, and the cursor to go on from. A walk starts at 0.
#[unsafe(no_mangle)]
pub extern "C" fn hop_step(
    links: &[u32],
    rows: &[u32],
    used: u32,
    live: u32,
    cursor: Cursor,
) -> Answer
    ensures { surfaced result links.now rows.now ≡ flattened (hop_rule links.now rows.now (record { used = used; live = live }) cursor) }
{
    Answer::from(hop::hop_step(links, rows, Header { used, live }, cursor))
}

// Takes one live row out and hands it back with its key; done when none is live.
#[unsafe(no_mangle)]
pub extern "C" fn hop_drain_step(
    links: &mut [u32],
    rows: &mut [u32],
    used: u32,
    live: u32,
) -> Answer
    ensures { surfaced result links.new rows.new ≡ flattened (drain_rule links.old rows.old (record { used = used; live = live })) }
{
    Answer::from(hop::drain_step(links, rows, Header { used, live }))
}

// Takes every live row out of a sound table.
#[unsafe(no_mangle)]
pub extern "C" fn hop_clear(links: &mut [u32], rows: &mut [u32], used: u32, live: u32) -> Answer
    ensures { surfaced result links.new rows.new ≡ flattened (clear_rule links.old rows.old (record { used = used; live = live })) }
{
    Answer::from(hop::clear(links, rows, Header { used, live }))
}

// Keeps the live rows whose byte is not 0, and answers how many went.
#[unsafe(no_mangle)]
pub extern "C" fn hop_retain(
    links: &mut [u32],
    rows: &mut [u32],
    used: u32,
    live: u32,
    keep: &[u8],
) -> Answer
    ensures { surfaced result links.new rows.new ≡ flattened (retain_rule links.old rows.old (record { used = used; live = live }) keep.now) }
{
    Answer::from(hop::retain(links, rows, Header { used, live }, keep))
}

// Versions and rows that stand in place become a map, one presence byte a slot.
#[unsafe(no_mangle)]
pub extern "C" fn hop_rebuild(
    links: &mut [u32],
    rows: &mut [u32],
    used: u32,
    live: u32,
    presence: &[u8],
) -> Answer
    ensures { surfaced result links.new rows.new ≡ flattened (rebuild_rule links.old rows.old (record { used = used; live = live }) presence.now) }
{
    Answer::from(hop::rebuild(links, rows, Header { used, live }, presence))
}

// Accepts exactly the sound tables.
#[unsafe(no_mangle)]
pub extern "C" fn hop_sound(links: &[u32], rows: &[u32], used: u32, live: u32) -> Answer
    ensures { surfaced result links.now rows.now ≡ flattened (check_rule links.now rows.now (record { used = used; live = live })) }
{
    Answer::from(hop::sound(links, rows, Header { used, live }))
}
