// One byte of what stands around the document element, but for markup: the byte order mark, the XML declaration, blanks.
#![tactic(auto)]

ghost use Rattle.std.specs.Prelude.{◌≡◌, ◌≤◌, get_or};
ghost use Rattle.prolog.specs.Around.{around, start_tick, mark_tick, xml_tick, declared_tick, query_tick};
ghost use Rattle.prolog.specs.Told.{part_byte, value_byte, value_row, part_of, small, value_refusal};
ghost use Rattle.prolog.specs.Told.{piece_tick, blank_or, part_tick, part_value_tick, quoted_in, quoted_tick};
ghost use Rattle.prolog.specs.Tick.{prolog_tick};

use chars::BLANK;
use limits::TextRefusal;
use modes::{Mode, Prolog, Reader};

// Blanks, and the '<' after them.
#[tactic(auto, using(choice::specs::Tests::tests), unfolding(crate::specs::Around::around))]
pub fn around(marks: &[u8; 256], r: Reader, b: u8, next: Mode) -> Reader
    ensures { result ≡ around marks.now r b next }
{
    // Kept: not `blank_or`: a blank leaves the count of bytes read as it is here, as the contract says (a).
    if chars::has(marks, b, BLANK) {
        return r.stay(Mode::Around);
    }
    if b == b'<' {
        return r.go(next);
    }
    r.refuse(TextRefusal::Misplaced)
}

#[tactic(auto, using(choice::specs::Tests::tests), unfolding(crate::specs::Around::start_tick))]
fn start(marks: &[u8; 256], r: Reader, b: u8) -> Reader
    ensures { result ≡ start_tick marks.now r b }
{
    if b == 239 {
        return r.spell(Mode::Prolog(Prolog::Mark), 0, 1);
    }
    around(marks, r, b, Mode::First)
}

// "a UTF-8 byte order mark (EF BB BF) may stand before it"
#[tactic(auto, using(choice::specs::Tests::tests), unfolding(crate::specs::Around::mark_tick))]
fn mark(r: Reader, b: u8) -> Reader
    ensures { result ≡ mark_tick r b }
{
    match b {
        187 if r.n == 1 => r.spell(Mode::Prolog(Prolog::Mark), 0, 2),
        191 if r.n != 1 => r.go(Mode::Prolog(Prolog::Fresh)),
        _ => r.refuse(TextRefusal::Misplaced),
    }
}

// "The fixed openings `<!--` and `<?xml` are compared byte for byte"
#[tactic(auto, using(choice::specs::Tests::tests), unfolding(crate::specs::Around::xml_tick))]
fn xml(r: Reader, b: u8) -> Reader
    ensures { result ≡ xml_tick r b }
{
    let opening = b"<?xml";
    let k = r.n as usize;
    if 5 <= k || b != opening[k] {
        return r.refuse(TextRefusal::Instruction);
    }
    if k == 4 {
        return r.go(Mode::Prolog(Prolog::Declared));
    }
    r.spell(Mode::Prolog(Prolog::Xml), 0, r.n + 1)
}

#[tactic(auto, using(choice::specs::Tests::tests), unfolding(crate::specs::Around::declared_tick))]
fn declared(marks: &[u8; 256], r: Reader, b: u8) -> Reader
    ensures { result ≡ declared_tick marks.now r b }
{
    if chars::has(marks, b, BLANK) {
        return r.counted(Mode::Prolog(Prolog::Piece), 0);
    }
    if chars::has(marks, b, chars::NAME_CHAR) || 128 <= b {
        return r.refuse(TextRefusal::Instruction);
    }
    r.refuse(TextRefusal::Misplaced)
}

// After a blank: another part that may follow the part told last, or the end.
#[tactic(auto, using(choice::specs::Tests::tests), unfolding(crate::specs::Told::piece_tick))]
fn piece(marks: &[u8; 256], r: Reader, b: u8) -> Reader
    ensures { result ≡ piece_tick marks.now r b }
{
    if chars::has(marks, b, BLANK) {
        return r.go(Mode::Prolog(Prolog::Piece));
    }
    match b {
        b'v' if r.count == 0 => r.spell(Mode::Prolog(Prolog::Part), 1, 1),
        _ if r.count == 0 => r.refuse(TextRefusal::Misplaced),
        b'?' => r.go(Mode::Prolog(Prolog::Query)),
        b'e' if r.count == 1 => r.spell(Mode::Prolog(Prolog::Part), 2, 1),
        b's' if r.count <= 2 => r.spell(Mode::Prolog(Prolog::Part), 3, 1),
        _ => r.refuse(TextRefusal::Misplaced),
    }
}

// After a blank the mode is `blank`, and after the byte `mark` it is `next`.
#[tactic(auto, using(choice::specs::Tests::tests))]
fn blank_or(marks: &[u8; 256], r: Reader, b: u8, blank: Prolog, mark: u8, next: Prolog) -> Reader
    ensures { result ≡ blank_or marks.now r b blank mark next }
{
    if chars::has(marks, b, BLANK) {
        return r.go(Mode::Prolog(blank));
    }
    if b == mark {
        return r.go(Mode::Prolog(next));
    }
    r.refuse(TextRefusal::Misplaced)
}

// Byte k of a text. 0 past its end.
fn byte_at(text: &[u8], k: u8) -> u8
    ensures { result ≡ get_or text.now k 0 }
{
    text.get(k as usize).copied().unwrap_or(0)
}

// Byte k of a part's name.
#[tactic(auto, using(choice::specs::Tests::tests), unfolding(crate::specs::Told::part_byte))]
fn part_byte(part: u8, k: u8) -> u8
    ensures { result ≡ part_byte part k }
{
    match part {
        1 => byte_at(b"version", k),
        2 => byte_at(b"encoding", k),
        3 => byte_at(b"standalone", k),
        _ => 0,
    }
}

#[tactic(auto, using(choice::specs::Tests::tests), unfolding(crate::specs::Told::part_tick))]
fn part(r: Reader, b: u8) -> Reader
    ensures { result ≡ part_tick r b }
{
    let want = part_byte(r.row, r.n);
    if 10 <= r.n || want == 0 || b != want {
        return r.refuse(TextRefusal::Misplaced);
    }
    if part_byte(r.row, r.n + 1) == 0 {
        return r.go(Mode::Prolog(Prolog::PartEquals));
    }
    r.spell(Mode::Prolog(Prolog::Part), r.row, r.n + 1)
}

#[tactic(auto, using(choice::specs::Tests::tests), unfolding(crate::specs::Told::part_value_tick))]
fn part_value(marks: &[u8; 256], r: Reader, b: u8) -> Reader
    ensures { result ≡ part_value_tick marks.now r b }
{
    // Kept: not `blank_or`: two bytes may follow, and a helper for one and two would be no plainer (d).
    if chars::has(marks, b, BLANK) {
        return r.go(Mode::Prolog(Prolog::PartValue));
    }
    match b {
        b'"' => r.go(Mode::Prolog(Prolog::PartDouble)),
        b'\'' => r.go(Mode::Prolog(Prolog::PartSingle)),
        _ => r.refuse(TextRefusal::Misplaced),
    }
}

// Byte k of a part's value: row 1 is version's, 2 encoding's, 3 and 4 standalone's.
#[tactic(auto, using(choice::specs::Tests::tests), unfolding(crate::specs::Told::value_byte))]
fn value_byte(row: u8, k: u8) -> u8
    ensures { result ≡ value_byte row k }
{
    match row {
        1 => byte_at(b"1.0", k),
        2 => byte_at(b"utf-8", k),
        3 => byte_at(b"yes", k),
        4 => byte_at(b"no", k),
        _ => 0,
    }
}

// The row after the first byte of a value: 'n' is the other value of standalone.
#[tactic(auto, using(choice::specs::Tests::tests), unfolding(crate::specs::Told::value_row))]
fn value_row(row: u8, k: u8, b: u8) -> u8
    ensures { result ≡ value_row row k b }
{
    if k == 0 && row == 3 && b == b'n' {
        return 4;
    }
    row
}

// The part of a row.
#[tactic(auto, using(choice::specs::Tests::tests), unfolding(crate::specs::Told::part_of))]
fn part_of(row: u8) -> u8
    ensures { result ≡ part_of row }
{
    if row == 4 {
        return 3;
    }
    row
}

// "UTF-8 alone, in any letter case": a capital there as its small letter.
#[tactic(auto, using(choice::specs::Tests::tests), unfolding(crate::specs::Told::small))]
fn small(row: u8, b: u8) -> u8
    ensures { result ≡ small row b }
{
    if row == 2 {
        return b.to_ascii_lowercase();
    }
    b
}

#[tactic(auto, using(choice::specs::Tests::tests), unfolding(crate::specs::Told::value_refusal))]
fn value_refusal(row: u8) -> TextRefusal
    ensures { result ≡ value_refusal row }
{
    if row == 2 {
        return TextRefusal::OtherEncoding;
    }
    TextRefusal::Misplaced
}

// Inside the quotes of a part's value, in its row.
#[tactic(auto, using(choice::specs::Tests::tests), unfolding(crate::specs::Told::quoted_in))]
fn in_row(r: Reader, b: u8, quote: u8, row: u8) -> Reader
    requires { r.n ≤ 5 }
    ensures { result ≡ quoted_in r b quote row }
{
    let want = value_byte(row, r.n);
    if want == 0 && b == quote {
        return r.counted(Mode::Prolog(Prolog::Told), part_of(row));
    }
    if want != 0 && small(row, b) == want {
        return r.spell(r.mode, row, r.n + 1);
    }
    r.refuse(value_refusal(row))
}

// Inside the quotes of a part's value.
#[tactic(auto, using(choice::specs::Tests::tests), unfolding(crate::specs::Told::quoted_tick))]
fn quoted(r: Reader, b: u8, quote: u8) -> Reader
    ensures { result ≡ quoted_tick r b quote }
{
    if 5 < r.n {
        return r.refuse(TextRefusal::Misplaced);
    }
    let row = value_row(r.row, r.n, b);
    in_row(r, b, quote, row)
}

#[tactic(auto, using(choice::specs::Tests::tests), unfolding(crate::specs::Around::query_tick))]
fn query(r: Reader, b: u8) -> Reader
    ensures { result ≡ query_tick r b }
{
    if b == b'>' {
        return r.go(Mode::Around);
    }
    r.refuse(TextRefusal::Misplaced)
}

// One byte in a mode of the prolog.
#[tactic(auto, unfolding(crate::specs::Tick::prolog_tick, crate::specs::Told::told_tick, crate::specs::Told::part_equals_tick))]
pub fn tick(marks: &[u8; 256], r: Reader, mode: Prolog, b: u8) -> Reader
    ensures { result ≡ prolog_tick mode marks.now r b }
{
    match mode {
        Prolog::Start => start(marks, r, b),
        Prolog::Mark => mark(r, b),
        Prolog::Fresh => around(marks, r, b, Mode::First),
        Prolog::Xml => xml(r, b),
        Prolog::Declared => declared(marks, r, b),
        Prolog::Piece => piece(marks, r, b),
        Prolog::Part => part(r, b),
        Prolog::PartEquals => blank_or(marks, r, b, Prolog::PartEquals, b'=', Prolog::PartValue),
        Prolog::PartValue => part_value(marks, r, b),
        Prolog::PartDouble => quoted(r, b, b'"'),
        Prolog::PartSingle => quoted(r, b, b'\''),
        Prolog::Told => blank_or(marks, r, b, Prolog::Piece, b'?', Prolog::Query),
        Prolog::Query => query(r, b),
    }
}
