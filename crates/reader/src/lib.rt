// The reader of XML text: text in, event records out. It takes text in blocks cut anywhere.
#![tactic(auto)]

ghost use Rattle.std.specs.Prelude.{◌≡◌, ◌≤◌, length};
ghost use Rattle.limits.specs.Number.Laws.{text_at};
ghost use Rattle.chains.specs.Index.{index_words};
ghost use Rattle.reader.specs.Fed.{more_to_read, read_on};
ghost use Rattle.reader.specs.Feed.{BeginGives, FeedGives, FinishGives, whole_at};

use limits::TextRefusal;
use modes::{AFTER, Gives, Mode, Prolog, Reader};

// How many bytes of output another byte of text asks for: the two events that one byte can give.
pub const OUTPUT: usize = 16;

// What a feed came to: how many bytes were taken, how many bytes of event records were written, and the refusal, if any.
#[derive(Clone, Copy)]
pub struct Fed {
    pub reader: Reader,
    pub taken: usize,
    pub written: usize,
    pub refusal: Option<TextRefusal>,
}

// What the end of a text came to: the reader, stopped where the text is not a whole document, and the refusal, if any.
#[derive(Clone, Copy)]
pub struct Finished {
    pub reader: Reader,
    pub refusal: Option<TextRefusal>,
}

// A reader at the start of a text.
pub fn begin() -> Reader
    ensures { BeginGives result }
{
    Reader {
        mode: Mode::Prolog(Prolog::Start),
        back: Mode::Data,
        n: 0,
        row: 0,
        count: 0,
        gives: Gives::Nothing,
        refusal: 0,
        place: 0,
    }
}

// Whether another byte is read: none was refused, one is there, and the output has room for what it can give.
#[tactic(auto, using(choice::specs::Tests::tests), unfolding(crate::specs::Fed::more_to_read))]
fn more(refusal: u8, at: usize, end: usize, written: usize, out: usize) -> bool
    requires { written ≤ out }
    ensures { result ≡ more_to_read refusal at end written out }
{
    refusal == 0 && at < end && OUTPUT <= out - written
}

// The refusal with a number, where one has it.
#[tactic(auto, unfolding(limits::specs::Number::Laws::text_at))]
fn refusal_of(number: u8) -> Option<TextRefusal>
    ensures { result ≡ text_at number }
{
    match number {
        limits::MISPLACED => Some(TextRefusal::Misplaced),
        limits::NOT_CHAR => Some(TextRefusal::NotChar),
        limits::DOCTYPE => Some(TextRefusal::Doctype),
        limits::INSTRUCTION => Some(TextRefusal::Instruction),
        limits::CDATA => Some(TextRefusal::Cdata),
        limits::CHAR_REFERENCE => Some(TextRefusal::CharReference),
        limits::OTHER_ENTITY => Some(TextRefusal::OtherEntity),
        limits::LONG_NAME => Some(TextRefusal::LongName),
        limits::MANY_ATTRIBUTES => Some(TextRefusal::ManyAttributes),
        limits::TWICE => Some(TextRefusal::Twice),
        limits::OTHER_END => Some(TextRefusal::OtherEnd),
        limits::NESTED => Some(TextRefusal::Nested),
        limits::OTHER_ENCODING => Some(TextRefusal::OtherEncoding),
        limits::FOREIGN_NAME => Some(TextRefusal::ForeignName),
        limits::UNENDED => Some(TextRefusal::Unended),
        limits::SCANT => Some(TextRefusal::Scant),
        limits::READER_STOPPED => Some(TextRefusal::ReaderStopped),
        limits::MANY_NAMES => Some(TextRefusal::ManyNames),
        limits::LONG_LISTED => Some(TextRefusal::LongListed),
        limits::NOT_NAME => Some(TextRefusal::NotName),
        _ => None,
    }
}

// Turn by turn.
fn read_on(
    reader: Reader,
    text: &[u8],
    names: &[u8],
    index: &[u32],
    room: &mut [u8; slots::ROOM],
    out: &mut [u8],
) -> Fed
    requires { index_words ≤ length index.now }
    ensures { (record { reader = result.reader; at = result.taken; room = room.new; out = out.new; written = result.written }
        ≡ read_on names.now index.now text.now reader room.old out.old)
        × (result.refusal ≡ text_at result.reader.refusal) }
{
    let marks = chars::marks::MARKS;
    let mut r = reader;
    let mut at: usize = 0;
    let mut written: usize = 0;
    // Kept: a turn takes as many bytes as its loop finds, so there is nothing that a `for` could go over (d).
    while more(r.refusal, at, text.len(), written, out.len()) {
        let gone = walk::turn(&marks, r, text, at, room);
        r = gone.reader;
        at = gone.at;
        written = emit::emit(names, index, r, room, out, written);
    }
    Fed {
        reader: r,
        taken: at,
        written,
        refusal: refusal_of(r.refusal),
    }
}

// Refused: nothing was read.
fn untouched(reader: Reader, refusal: TextRefusal) -> Fed
    ensures { result ≡ record { reader = reader; taken = 0; written = 0; refusal = Some refusal } }
{
    Fed {
        reader,
        taken: 0,
        written: 0,
        refusal: Some(refusal),
    }
}

// Reads a block of text. `names` and `index` are the list of names and its index, as `names::build` made it. The room is the reader's own: it is lent again to
// the next feed as this one left it; longer room is fine, and its bytes past the needed ones are never touched. Stops at the block's end, at a byte that is
// refused, or before a byte for whose events the output may have no room: then the rest of the block is fed with an output that is free again.
#[tactic(auto, using(crate::specs::Feed::feeding))]
pub fn feed(
    reader: Reader,
    text: &[u8],
    names: &[u8],
    index: &[u32],
    room: &mut [u8],
    out: &mut [u8],
) -> Fed
    ensures { FeedGives names.now index.now text.now reader room.old out.old result
        room.new out.new }
{
    if index.len() < names::INDEX || out.len() < OUTPUT {
        return untouched(reader, TextRefusal::Scant);
    }
    let Some(needed) = room.first_chunk_mut::<{ slots::ROOM }>() else {
        return untouched(reader, TextRefusal::Scant);
    };
    if reader.refusal != 0 {
        return untouched(reader, TextRefusal::ReaderStopped);
    }
    read_on(reader, text, names, index, needed, out)
}

// Whether a reader at this place and in this mode has read a whole document: the document element, and then nothing that is not whole.
#[tactic(auto, using(choice::specs::Tests::tests), unfolding(crate::specs::Feed::whole_at, crate::specs::Feed::around_only))]
fn whole(place: u16, mode: Mode) -> bool
    ensures { result ≡ whole_at place mode }
{
    place == AFTER && mode == Mode::Around
}

// The end of the text: no refusal where it is a whole document.
#[tactic(auto, using(choice::specs::Tests::tests), unfolding(crate::specs::Feed::finish_answer))]
pub fn finish(reader: Reader) -> Finished
    ensures { FinishGives reader result }
{
    if reader.refusal != 0 {
        return Finished {
            reader,
            refusal: Some(TextRefusal::ReaderStopped),
        };
    }
    if whole(reader.place, reader.mode) {
        return Finished {
            reader,
            refusal: None,
        };
    }
    Finished {
        reader: reader.refuse(TextRefusal::Unended),
        refusal: Some(TextRefusal::Unended),
    }
}
