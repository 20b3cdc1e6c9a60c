// Some bytes of text at once: those that a loop goes over, and the one after them.
#![tactic(auto)]

ghost use Rattle.std.specs.Prelude.{◌≡◌, ◌≤◌, ◌<◌, length, drop};
ghost use Rattle.walk.specs.Walk.{innermost_of, pace_of, walked};
ghost use Rattle.walk.specs.Kinds.{kind_in, mark_in};
ghost use Rattle.walk.specs.Turn.{turned};

use modes::{Mode, Reader};
use slots::Walk;

// What a loop does with the next bytes.
#[derive(Clone, Copy)]
pub enum Pace {
    // Copies a name into a slot.
    Copies(usize),
    // Compares them with the name in a slot.
    Agrees(usize),
    // Goes over those that have a mark.
    Skips(u8),
}

// The reader and how far it went into the text.
#[derive(Clone, Copy)]
pub struct Gone {
    pub reader: Reader,
    pub at: usize,
}

// The slot of the innermost open element; the first where none is open.
#[tactic(auto, using(choice::specs::Tests::tests), unfolding(crate::specs::Walk::innermost_of))]
pub fn innermost(place: u16) -> usize
    ensures { result ≡ innermost_of place }
{
    usize::from(place).saturating_sub(1)
}

// The kinds of loops: one that goes over bytes that have a mark, or that of a name in one of three places.
#[derive(Clone, Copy)]
enum Kind {
    Skips,
    TagName,
    AttributeName,
    EndName,
}

// Which kind of loop a mode has.
#[tactic(auto, unfolding(crate::specs::Kinds::kind_in))]
fn kind_of(mode: Mode) -> Kind
    ensures { result ≡ kind_in mode }
{
    match mode {
        Mode::Tag => Kind::TagName,
        Mode::Att => Kind::AttributeName,
        Mode::End => Kind::EndName,
        _ => Kind::Skips,
    }
}

// The mark of the bytes that a mode's loop goes over. In a mode without such a loop no byte has the mark.
#[tactic(auto, unfolding(crate::specs::Kinds::mark_in))]
fn mark_of(mode: Mode) -> u8
    ensures { result ≡ mark_in mode }
{
    match mode {
        Mode::Around | Mode::Gap | Mode::Equals | Mode::Value | Mode::Ended => chars::BLANK,
        Mode::Data => chars::PLAIN,
        Mode::Note => chars::NO_DASH,
        Mode::Double => chars::IN_DOUBLE,
        Mode::Single => chars::IN_SINGLE,
        _ => 0,
    }
}

// Which loop a mode has: by its kind first, so that compiled code finds a mark in a table. A jump for each mode is slower.
#[tactic(auto, using(crate::specs::Kinds::kind_and_mark), unfolding(crate::specs::Walk::pace_of))]
fn pace_of(r: Reader) -> Pace
    ensures { result ≡ pace_of r }
{
    match kind_of(r.mode) {
        Kind::Skips => Pace::Skips(mark_of(r.mode)),
        Kind::TagName => Pace::Copies(r.place as usize),
        Kind::AttributeName => Pace::Copies(slots::ATTRIBUTES + r.count as usize),
        Kind::EndName => Pace::Agrees(innermost(r.place)),
    }
}

// Goes over the bytes that the mode's loop takes.
#[tactic(auto, unfolding(crate::specs::Walk::walked, crate::specs::Walk::walked_by))]
fn walk(marks: &[u8; 256], r: Reader, text: &[u8], at: usize, room: &mut [u8; slots::ROOM]) -> Walk
    requires { at ≤ length text.now }
    ensures { record { at = result.at; n = result.n; room = room.new }
        ≡ walked marks.now r at (drop at text.now) room.old }
{
    match pace_of(r) {
        Pace::Copies(slot) => slots::copy(marks, text, at, room, slot, r.n),
        Pace::Agrees(slot) => slots::agree(text, at, &*room, slot, r.n),
        Pace::Skips(mark) => Walk {
            at: chars::skip(marks, text, at, mark),
            n: r.n,
        },
    }
}

// The same reader, copied field by field. Copied as one it takes along the byte that its fields leave free, and compiled code then keeps the reader of a feed's
// loop in memory.
fn copied(r: Reader) -> Reader
    ensures { result ≡ r }
{
    // Kept: copied as one value a reader was measured slower, as said above (b).
    Reader {
        mode: r.mode,
        back: r.back,
        n: r.n,
        row: r.row,
        count: r.count,
        gives: r.gives,
        refusal: r.refusal,
        place: r.place,
    }
}

// The bytes that the mode's loop takes, and the one after them. Stops before that byte where it is refused.
#[tactic(auto, using(crate::specs::Turn::turning), unfolding(crate::specs::Turn::turned, crate::specs::Turn::turned_from, crate::specs::Turn::ticked_at))]
pub fn turn(
    marks: &[u8; 256],
    r: Reader,
    text: &[u8],
    at: usize,
    room: &mut [u8; slots::ROOM],
) -> Gone
    requires { at ≤ length text.now }
    ensures { record { reader = result.reader; at = result.at; room = room.new }
        ≡ turned marks.now r text.now at room.old }
{
    let went = walk(marks, r, text, at, room);
    let end = went.at;
    let here = r.spell(r.mode, r.row, went.n);
    if text.len() <= end {
        return Gone {
            reader: here,
            at: end,
        };
    }
    let b = text[end];
    let next = copied(tick::tick(marks, here, b, room));
    if next.refusal != 0 {
        return Gone {
            reader: next,
            at: end,
        };
    }
    Gone {
        reader: next,
        at: end + 1,
    }
}
