// One byte of text: the reader after it, or refused, and what stands in its room then.
#![tactic(auto)]

ghost use Rattle.std.specs.Prelude.{◌≡◌};
ghost use Rattle.tick.specs.Tick.{tick};

use modes::{Mode, Reader};

#[tactic(auto, unfolding(crate::specs::Tick::tick, crate::specs::Tick::tick_in))]
pub fn tick(marks: &[u8; 256], r: Reader, b: u8, room: &mut [u8; slots::ROOM]) -> Reader
    ensures { record { reader = result; room = room.new } ≡ tick marks.now r b room.old }
{
    match r.mode {
        Mode::Prolog(p) => prolog::tick(marks, r, p, b),
        Mode::First => tags::first(marks, r, b, room),
        Mode::Around => prolog::around(marks, r, b, Mode::Markup),
        Mode::Data => content::data(marks, r, b, Mode::Bracket, false),
        Mode::Bracket => content::data(marks, r, b, Mode::Brackets, false),
        Mode::Brackets => content::data(marks, r, b, Mode::Brackets, true),
        Mode::Markup => tags::markup(marks, r, b, room),
        Mode::Bang => content::bang(r, b),
        Mode::Note => content::note(marks, r, b, Mode::Dash),
        Mode::Dash => content::note(marks, r, b, Mode::Dashes),
        Mode::Dashes => content::remarked(r, b),
        Mode::Amper => content::amper(r, b),
        Mode::Char => content::character(r, b),
        Mode::Tag => tags::tag(marks, r, b, room),
        Mode::Tagged => tags::tagged(marks, r, b),
        Mode::Gap => tags::gap(marks, r, b, room),
        Mode::Att => tags::attribute(marks, r, b, room),
        Mode::Equals => tags::equals(marks, r, b),
        Mode::Value => tags::value(marks, r, b),
        Mode::Double => tags::quoted(marks, r, b, chars::IN_DOUBLE, b'"'),
        Mode::Single => tags::quoted(marks, r, b, chars::IN_SINGLE, b'\''),
        Mode::Slash => ends::emptied(r, b),
        Mode::End => ends::end(marks, r, b, &*room),
        Mode::Ended => ends::ended(marks, r, b),
    }
}
