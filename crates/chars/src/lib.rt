// The bytes of XML text: what each may be, how a character of several bytes goes on, and how an entity does.
#![tactic(auto)]

ghost use Rattle.std.specs.Prelude.{◌≡◌, ◌+◌, ◌≤◌, ◌<◌, length, drop};
ghost use Rattle.chars.specs.Marks.{marked, span};
ghost use Rattle.chars.specs.Same.{same_bytes};
ghost use Rattle.chars.specs.Entities.{goes_on, entity_row, row_in};
ghost use Rattle.chars.specs.Forms.{lead_form, lowest_in, highest_in, rest_of, follows, form_in, left_of, left_in};

pub mod marks;

// A mark for each class of bytes that a loop or a test asks for. In character data: no '<', '&', ']' or '>'.
pub const PLAIN: u8 = 1;

// In a value in double quotes, and in single quotes: not the quote, '<' or '&'.
pub const IN_DOUBLE: u8 = 2;

pub const IN_SINGLE: u8 = 4;

// In a comment: no '-'.
pub const NO_DASH: u8 = 8;

pub const NAME_CHAR: u8 = 16;

pub const NAME_START: u8 = 32;

pub const BLANK: u8 = 64;

// Whether a byte has a mark.
#[tactic(auto, unfolding(crate::specs::Marks::marked))]
pub fn has(marks: &[u8; 256], b: u8, mark: u8) -> bool
    ensures { result ≡ marked marks.now b mark }
{
    marks[b as usize] & mark != 0
}

// Where the bytes from `from` on that have the mark end.
pub fn skip(marks: &[u8; 256], text: &[u8], from: usize, mark: u8) -> usize
    requires { from ≤ length text.now }
    ensures { result ≡ from + span marks.now mark (drop from text.now) }
{
    for i in from..text.len() {
        if !has(marks, text[i], mark) {
            return i;
        }
    }
    text.len()
}

// What is left of a character after some of its bytes: nothing, or what a form 1 to 9 says.
#[derive(Clone, Copy, PartialEq, Eq)]
pub enum Left {
    Nothing,
    Form(u8),
}

// The form that is left of a character after its first byte, or none where no character of several bytes begins so.
#[tactic(auto, unfolding(crate::specs::Forms::lead_form, choice::specs::When::when))]
pub fn lead(b: u8) -> Option<u8>
    ensures { result ≡ form_in (lead_form b) }
{
    match b {
        194..=223 => Some(1),
        224 => Some(4),
        225..=236 | 238 => Some(2),
        237 => Some(5),
        239 => Some(6),
        240 => Some(8),
        241..=243 => Some(3),
        244 => Some(9),
        _ => None,
    }
}

// The lowest byte that a form goes on with, and the highest.
#[tactic(auto, unfolding(crate::specs::Forms::lowest_in, choice::specs::When::when))]
fn lowest(form: u8) -> u8
    ensures { result ≡ lowest_in form }
{
    match form {
        4 => 160,
        8 => 144,
        _ => 128,
    }
}

#[tactic(auto, unfolding(crate::specs::Forms::highest_in, choice::specs::When::when))]
fn highest(form: u8) -> u8
    ensures { result ≡ highest_in form }
{
    match form {
        5 => 159,
        7 => 189,
        9 => 143,
        _ => 191,
    }
}

// What is left of a form after one of its bytes.
#[tactic(auto, unfolding(crate::specs::Forms::rest_of, choice::specs::When::when))]
fn rest(form: u8, b: u8) -> Left
    ensures { result ≡ left_of (rest_of form b) }
{
    match form {
        1 | 7 => Left::Nothing,
        3 | 8.. => Left::Form(2),
        6 if b == 191 => Left::Form(7),
        _ => Left::Form(1),
    }
}

// What is left of a form after another byte, or none where the form does not go on so.
#[tactic(auto, using(crate::specs::Forms::Laws::left_in_rest), unfolding(crate::specs::Forms::follows, choice::specs::When::when))]
pub fn follow(form: u8, b: u8) -> Option<Left>
    ensures { result ≡ left_in (follows form b) }
{
    if b < lowest(form) || highest(form) < b {
        return None;
    }
    Some(rest(form, b))
}

// Whether the n bytes of `a` from i on are those of `b` from j on.
pub fn same(a: &[u8], i: usize, b: &[u8], j: usize, n: usize) -> bool
    requires { (i + n ≤ length a.now) × (j + n ≤ length b.now) }
    ensures { result ≡ same_bytes a.now i b.now j n }
{
    spelling::same(&a[i..i + n], &b[j..j + n])
}

// Each entity's spelling with its semicolon, filled up with 0, and the code point that it stands for. "the five predefined entities lt, gt, amp, apos, quot,
// standing for 60, 62, 38, 39, 34"
const ENTITIES: [u8; 30] = [
    b'l', b't', b';', 0, 0, 60, b'g', b't', b';', 0, 0, 62, b'a', b'm', b'p', b';', 0, 38, b'a',
    b'p', b'o', b's', b';', 39, b'q', b'u', b'o', b't', b';', 34,
];

// How many there are.
const ROWS: u8 = 5;

// Whether a row of the entities begins with the first n bytes of the row `like` and then has the byte b.
#[tactic(auto, unfolding(crate::specs::Entities::goes_on, choice::specs::When::when))]
fn goes_on(table: &[u8], row: usize, like: usize, n: usize, b: u8) -> bool
    requires { (length table.now ≡ 30) × (row < 5) }
    ensures { result ≡ goes_on table.now row like n b }
{
    n < 5 && like < 5 && same(table, 6 * row, table, 6 * like, n) && table[6 * row + n] == b
}

// The row of the first entity whose spelling begins with the first n bytes of the entity `like` and then b, if there is one.
pub fn entity(like: u8, n: u8, b: u8) -> Option<u8>
    ensures { result ≡ row_in (entity_row like n b) }
{
    let table = ENTITIES;
    (0..ROWS).find(|row| goes_on(&table, *row as usize, like as usize, n as usize, b))
}
