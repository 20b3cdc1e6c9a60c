// The check of a list of names: which bytes are a list, and with which refusal and line the others are refused.
#![tactic(auto)]

ghost use Rattle.std.specs.Prelude.{◌≡◌, ◌+◌, ◌≤◌, length, drop};
ghost use Rattle.xml.specs.Class.{in_class};
ghost use Rattle.xml.specs.Chars.{name_start, name_char};
ghost use Rattle.listed.specs.Lines.{line_length};
ghost use Rattle.limits.specs.Number.{text_in};
ghost use Rattle.listed.specs.Listed.{is_name, fault_of, list_answer};
ghost use Rattle.listed.specs.Answer.{listing};

use limits::TextRefusal;

// Why a list is refused, and the number of its first line at fault, or 0 where that is no line's.
#[derive(Clone, Copy, PartialEq, Eq)]
pub struct ListFault {
    pub refusal: TextRefusal,
    pub line: u32,
}

// Checks a list.
#[tactic(auto, using(xml::proofs::Bounds::Laws::list_limit_is, crate::specs::Lines::Laws::line_ends))]
pub fn check(names: &[u8]) -> Result<(), ListFault>
    ensures { listing result ≡ list_answer names.now }
{
    // Kept: a turn goes on by a whole line and not by one byte; `split` would have a piece after the last line feed, to be told from a last line without one.
    let mut place: usize = 1;
    let mut at: usize = 0;
    while at < names.len() {
        let end = line_end(names, at);
        if let Err(refusal) = check_line(place, &names[at..end]) {
            let line = place as u32;
            return Err(ListFault { refusal, line });
        }
        place += 1;
        at = end + 1;
    }
    Ok(())
}

// Where the line that begins at `from` ends: its line feed, or the end of the list.
pub fn line_end(names: &[u8], from: usize) -> usize
    requires { from ≤ length names.now }
    ensures { result ≡ from + line_length (drop from names.now) }
{
    let rest = &names[from..];
    from + rest.iter().position(|b| *b == b'\n').unwrap_or(rest.len())
}

// Checks the line with this number.
#[tactic(auto, using(choice::specs::Tests::tests), unfolding(crate::specs::Listed::fault_of, xml::specs::Bounds::list_limit, xml::specs::Bounds::name_limit))]
fn check_line(place: usize, line: &[u8]) -> Result<(), TextRefusal>
    ensures { text_in result ≡ fault_of place line.now }
{
    if limits::NAMES < place {
        return Err(TextRefusal::ManyNames);
    }
    if !is_name(line) {
        return Err(TextRefusal::NotName);
    }
    if limits::NAME_BYTES < line.len() {
        return Err(TextRefusal::LongListed);
    }
    Ok(())
}

// "Name ::= NameStartChar (NameChar)*"
fn is_name(line: &[u8]) -> bool
    ensures { result ≡ is_name line.now }
{
    match line {
        [first, rest @ ..] => starts(*first) && rest.iter().all(|b| goes_on(*b)),
        [] => false,
    }
}

// Whether a name may begin with this byte.
#[tactic(auto, unfolding(xml::specs::Class::in_class))]
fn starts(b: u8) -> bool
    ensures { result ≡ in_class name_start b }
{
    matches!(b, b':' | b'A'..=b'Z' | b'_' | b'a'..=b'z')
}

// Whether a name may go on with this byte.
#[tactic(auto, unfolding(xml::specs::Class::in_class))]
fn goes_on(b: u8) -> bool
    ensures { result ≡ in_class name_char b }
{
    starts(b) || matches!(b, b'-' | b'.' | b'0'..=b'9')
}
