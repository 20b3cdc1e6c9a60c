// One byte of an end tag, or the '>' of an empty one: the reader after it.
#![tactic(auto)]

ghost use Rattle.std.specs.Prelude.{◌≡◌, length};
ghost use Rattle.ends.specs.Ends.{emptied_tick, closed, ended_tick, whole_tick, end_tick};

use limits::TextRefusal;
use modes::{AFTER, Gives, Mode, Reader};

// After the '/' of an empty tag. Its element is opened and closed at once.
#[tactic(auto, using(choice::specs::Tests::tests), unfolding(crate::specs::Ends::emptied_tick))]
pub fn emptied(r: Reader, b: u8) -> Reader
    ensures { result ≡ emptied_tick r b }
{
    if b != b'>' {
        return r.refuse(TextRefusal::Misplaced);
    }
    if r.place == 0 {
        return r.give(Gives::Both, Mode::Around, AFTER);
    }
    r.give(Gives::Both, Mode::Data, r.place)
}

// The '>' of an end tag.
#[tactic(auto, using(choice::specs::Tests::tests), unfolding(crate::specs::Ends::closed))]
fn closes(r: Reader) -> Reader
    ensures { result ≡ closed r }
{
    if r.place <= 1 {
        return r.give(Gives::Close, Mode::Around, AFTER);
    }
    r.give(Gives::Close, Mode::Data, r.place - 1)
}

// After an end tag's name.
#[tactic(auto, using(choice::specs::Tests::tests), unfolding(crate::specs::Ends::ended_tick))]
pub fn ended(marks: &[u8; 256], r: Reader, b: u8) -> Reader
    ensures { result ≡ ended_tick marks.now r b }
{
    if chars::has(marks, b, chars::BLANK) {
        return r.stay(Mode::Ended);
    }
    if b == b'>' {
        return closes(r);
    }
    r.refuse(TextRefusal::Misplaced)
}

// Right after an end tag's name, which is the start tag's so far: it may not go on.
#[tactic(auto, using(choice::specs::Tests::tests), unfolding(crate::specs::Ends::whole_tick))]
fn whole(marks: &[u8; 256], r: Reader, b: u8) -> Reader
    ensures { result ≡ whole_tick marks.now r b }
{
    if chars::has(marks, b, chars::NAME_CHAR) || 128 <= b {
        return r.refuse(TextRefusal::OtherEnd);
    }
    ended(marks, r, b)
}

// In an end tag's name.
#[tactic(auto, using(choice::specs::Tests::tests), unfolding(crate::specs::Ends::end_tick))]
pub fn end(marks: &[u8; 256], r: Reader, b: u8, room: &[u8; slots::ROOM]) -> Reader
    ensures { result ≡ end_tick marks.now r b room.now }
{
    if r.place == 0 {
        return r.refuse(TextRefusal::Misplaced);
    }
    let slot = r.place as usize - 1;
    if slots::length(room, slot) <= r.n {
        return whole(marks, r, b);
    }
    if b == slots::get(room, slot, r.n as usize) {
        return r.spell(Mode::End, r.row, r.n + 1);
    }
    r.refuse(TextRefusal::OtherEnd)
}
