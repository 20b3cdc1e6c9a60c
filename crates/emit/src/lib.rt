// The events that a byte gave, as records in the lent output, and the number of an opened name in its slot.
#![tactic(auto)]

ghost use Rattle.std.specs.Prelude.{◌≡◌, ◌+◌, ◌≤◌, ◌<◌, length};
ghost use Rattle.modes.specs.Moves.{open_at};
ghost use Rattle.slots.specs.Slots.{name_in};
ghost use Rattle.chains.specs.Index.{index_words};
ghost use Rattle.names.specs.Number.{number_of};
ghost use Rattle.records.specs.Event.{bytes_as};
ghost use Rattle.std.proofs.lemmas.List.Edits.{sets};
ghost use Rattle.emit.specs.Emit.{both_in, opened, emitted};

use limits::REMARK_NAME;
use modes::{AFTER, Gives, Reader};
use records::Event;

// The slot of the element that was just closed.
#[tactic(auto, using(choice::specs::Tests::tests), unfolding(modes::specs::Moves::open_at))]
fn closing(place: u16) -> usize
    ensures { result ≡ open_at place }
{
    if place == AFTER { 0 } else { place as usize }
}

// The number of the name in a slot.
#[tactic(auto, using(crate::specs::Emit::numbers), unfolding(slots::specs::Slots::name_in))]
fn look_up(names: &[u8], index: &[u32], room: &[u8; slots::ROOM], slot: usize) -> u32
    requires { index_words ≤ length index.now }
    ensures { (result ≡ number_of names.now index.now (name_in room.now slot)) × (result < 65_536) }
{
    let at = slots::base(slot);
    let end = at + slots::length(room, slot) as usize;
    names::number(names, index, &room[at..end])
}

// Writes an event. Answers how many bytes of the output are written then.
#[tactic(auto)]
fn put(out: &mut [u8], written: usize, event: Event) -> usize
    requires { written + 8 ≤ length out.old }
    ensures { (out.new ≡ sets out.old written (bytes_as event)) × (result ≡ written + 8) }
{
    records::write_event(out, written, event);
    written + 8
}

// An element was opened: its number is kept in its slot for its close.
#[tactic(auto, unfolding(crate::specs::Emit::opened))]
fn open(
    names: &[u8],
    index: &[u32],
    slot: usize,
    room: &mut [u8; slots::ROOM],
    out: &mut [u8],
    written: usize,
) -> usize
    requires { (index_words ≤ length index.now) × (written + 16 ≤ length out.old) }
    ensures { record { room = room.new; out = out.new; written = result }
        ≡ opened names.now index.now slot room.old out.old written }
{
    let name = look_up(names, index, &*room, slot);
    slots::put_number(room, slot, name);
    put(out, written, Event::Open(name as u16))
}

// One event of each kind with the same name.
#[tactic(auto, unfolding(crate::specs::Emit::both_in))]
fn both(out: &mut [u8], written: usize, name: u32) -> usize
    requires { (written + 16 ≤ length out.old) × (name < 65_536) }
    ensures { (out.new ≡ both_in out.old written name) × (result ≡ written + 16) }
{
    let half = put(out, written, Event::Open(name as u16));
    put(out, half, Event::Close(name as u16))
}

// Writes what the last byte gave. Answers how many bytes of the output are written then.
#[tactic(auto, unfolding(crate::specs::Emit::emitted, crate::specs::Emit::emitted_by, crate::specs::Emit::closed))]
pub fn emit(
    names: &[u8],
    index: &[u32],
    r: Reader,
    room: &mut [u8; slots::ROOM],
    out: &mut [u8],
    written: usize,
) -> usize
    requires { (index_words ≤ length index.now) × (written + 16 ≤ length out.old) }
    ensures { record { room = room.new; out = out.new; written = result }
        ≡ emitted names.now index.now r room.old out.old written }
{
    match r.gives {
        Gives::Nothing => written,
        Gives::Open => open(names, index, walk::innermost(r.place), room, out, written),
        Gives::Close => put(
            out,
            written,
            Event::Close(slots::number(&*room, closing(r.place)) as u16),
        ),
        Gives::Both => both(
            out,
            written,
            look_up(names, index, &*room, closing(r.place)),
        ),
        Gives::Remark => both(out, written, REMARK_NAME),
    }
}
