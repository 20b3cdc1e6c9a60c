// One byte of character data, of a comment, of an entity or of a character of several bytes: the reader after it.
#![tactic(auto)]

ghost use Rattle.std.specs.Prelude.{◌≡◌};
ghost use Rattle.content.specs.Text.{wide_tick, char_tick, data_tick, bang_tick, note_tick, remarked_tick, entity_tick, amper_tick};

use chars::Left;
use limits::TextRefusal;
use modes::{AFTER, Gives, Mode, Reader};

// The first byte of a character of several bytes.
#[tactic(auto, using(choice::specs::Tests::tests), unfolding(crate::specs::Text::wide_tick))]
pub fn wide(r: Reader, b: u8, back: Mode) -> Reader
    ensures { result ≡ wide_tick r b back }
{
    match chars::lead(b) {
        None => r.refuse(TextRefusal::NotChar),
        Some(form) => r.aside(Mode::Char, form, back),
    }
}

// A byte of one that is not the first.
#[tactic(auto, using(choice::specs::Tests::tests), unfolding(crate::specs::Text::char_tick))]
pub fn character(r: Reader, b: u8) -> Reader
    ensures { result ≡ char_tick r b }
{
    match chars::follow(r.n, b) {
        None => r.refuse(TextRefusal::NotChar),
        Some(Left::Nothing) => r.go(r.back),
        Some(Left::Form(form)) => r.spell(Mode::Char, 0, form),
    }
}

// Character data, in which `bracket` is the mode after a ']'; where it is shut a '>' is refused.
#[tactic(auto, using(choice::specs::Tests::tests), unfolding(crate::specs::Text::data_tick))]
pub fn data(marks: &[u8; 256], r: Reader, b: u8, bracket: Mode, shut: bool) -> Reader
    ensures { result ≡ data_tick marks.now r b bracket shut }
{
    if chars::has(marks, b, chars::PLAIN) {
        return r.stay(Mode::Data);
    }
    match b {
        b'<' => r.go(Mode::Markup),
        b'&' => r.aside(Mode::Amper, 0, Mode::Data),
        b']' => r.go(bracket),
        b'>' if shut => r.refuse(TextRefusal::Misplaced),
        b'>' => r.go(Mode::Data),
        _ => wide(r, b, Mode::Data),
    }
}

// "The fixed openings `<!--` and `<?xml` are compared byte for byte"
#[tactic(auto, using(choice::specs::Tests::tests), unfolding(crate::specs::Text::bang_tick))]
pub fn bang(r: Reader, b: u8) -> Reader
    ensures { result ≡ bang_tick r b }
{
    let opening = b"<!--";
    let k = r.n as usize;
    if k < 4 && b == opening[k] {
        if k == 3 {
            return r.go(Mode::Note);
        }
        return r.spell(Mode::Bang, 0, r.n + 1);
    }
    match b {
        b'[' if k == 2 => r.refuse(TextRefusal::Cdata),
        b'D' if k == 2 => r.refuse(TextRefusal::Doctype),
        _ => r.refuse(TextRefusal::Misplaced),
    }
}

// A comment, in which `dash` is the mode after a '-'.
#[tactic(auto, using(choice::specs::Tests::tests), unfolding(crate::specs::Text::note_tick))]
pub fn note(marks: &[u8; 256], r: Reader, b: u8, dash: Mode) -> Reader
    ensures { result ≡ note_tick marks.now r b dash }
{
    if chars::has(marks, b, chars::NO_DASH) {
        return r.stay(Mode::Note);
    }
    if b == b'-' {
        return r.go(dash);
    }
    wide(r, b, Mode::Note)
}

// The '>' of a comment.
#[tactic(auto, using(choice::specs::Tests::tests), unfolding(crate::specs::Text::remarked_tick))]
pub fn remarked(r: Reader, b: u8) -> Reader
    ensures { result ≡ remarked_tick r b }
{
    if b != b'>' {
        return r.refuse(TextRefusal::Misplaced);
    }
    match r.place {
        0 | AFTER => r.go(Mode::Around),
        place => r.give(Gives::Remark, Mode::Data, place),
    }
}

// A byte of an entity.
#[tactic(auto, using(choice::specs::Tests::tests), unfolding(crate::specs::Text::entity_tick))]
fn entity(r: Reader, b: u8) -> Reader
    ensures { result ≡ entity_tick r b }
{
    let Some(row) = chars::entity(r.row, r.n, b) else {
        return r.refuse(TextRefusal::OtherEntity);
    };
    if b == b';' {
        return r.go(r.back);
    }
    if 5 <= r.n {
        return r.refuse(TextRefusal::OtherEntity);
    }
    r.spell(Mode::Amper, row, r.n + 1)
}

// A byte after '&'.
#[tactic(auto, using(choice::specs::Tests::tests), unfolding(crate::specs::Text::amper_tick))]
pub fn amper(r: Reader, b: u8) -> Reader
    ensures { result ≡ amper_tick r b }
{
    if r.n == 0 && b == b'#' {
        return r.refuse(TextRefusal::CharReference);
    }
    entity(r, b)
}
