// The list of names and the text of a catalogue as they come: the file of names, one read more of the text, and the events of what has come.
#![tactic(auto)]

ghost use Rattle.std.specs.Prelude.{◌≡◌, ◌+◌, ◌≤◌, ◌<◌, length, IfSome};
ghost use Rattle.io.specs.Counts.{IsPrefixLen};
ghost use Rattle.limits.specs.Number.{text_of};
ghost use Rattle.intake.specs.Names.{NamesGiven};
ghost use Rattle.intake.specs.Owed.{judged, TextNumber, Named};
ghost use Rattle.intake.specs.Intake.{begun, longest, unread_text, WithinText, FedText, Asked, TextCame, Advanced, end_of, verdict_for};

use limits::TextRefusal;
use modes::Reader;
use system::File;

// So many bytes are asked for. A file need not end, but a program does; that many take some hundred years.
pub const LONGEST: u64 = 9223372036854775808;

// How far the text is read.
#[derive(Clone, Copy)]
pub struct Intake {
    pub reader: Reader,
    // What has come and is not read yet: the bytes of the input from `from` up to `end`.
    pub from: usize,
    pub end: usize,
    // How many bytes are read.
    pub taken: u64,
    // The refusal of the byte after them, or 0. Kept: a number, since a caller may give one that no refusal of text has, and `judge` tells that too.
    pub refusal: u8,
    // Whether no more comes.
    pub ended: bool,
    // How many bytes of event records the last turn has written.
    pub written: usize,
}

// A refusal's number and where: a line of the list or a byte of the text, counted from 1.
#[derive(Clone, Copy)]
pub struct Verdict {
    pub refusal: u8,
    pub at: u64,
}

// Before the first byte.
pub fn begin() -> Intake
    ensures { result ≡ begun }
{
    Intake {
        reader: reader::begin(),
        from: 0,
        end: 0,
        taken: 0,
        refusal: 0,
        ended: false,
        written: 0,
    }
}

// Room for a list of names and one byte more than a list may have. The length is all that is said of it: a list of that many zeros written out is too much.
pub fn names_room() -> [u8; 4259646]
    ensures { length result ≡ 4259646 }
{
    [0; 4259646]
}

// Room for its index.
pub fn index_room() -> [u32; 196602]
    ensures { length result ≡ 196602 }
{
    [0; 196602]
}

// Reads the list of names. Answers how many bytes came; "a file that can't be opened counts as empty".
pub fn read_names(rt: &HostRuntime, names: &mut [u8]) -> usize
    ensures names_given { NamesGiven names.new result }
    ensures prefix_len { IsPrefixLen result names.new }
{
    system::read_file(rt, b"names.txt", names)
}

// One read, where fewer bytes were read than are asked for.
fn ask(file: &File, taken: u64, input: &mut [u8]) -> usize
    ensures { Asked file.now taken input.old input.new result }
{
    if LONGEST <= taken {
        0
    } else {
        system::read_at(file, input, 0)
    }
}

// Reads once, where all that has come is read.
fn read_text(file: &File, intake: Intake, input: &mut [u8]) -> Intake
    ensures { TextCame file.now intake input.old result input.new }
{
    let more = ask(file, intake.taken, input);
    Intake {
        from: 0,
        end: more,
        refusal: 0,
        ended: more == 0,
        written: 0,
        ..intake
    }
}

// The number of a refusal, or 0.
fn number_of(refusal: Option<TextRefusal>) -> u8
    ensures { result ≡ text_of refusal }
{
    match refusal {
        Some(refusal) => refusal.number(),
        None => 0,
    }
}

// Reads on in what has come, as far as there is room for events.
fn feed_text(
    intake: Intake,
    input: &[u8],
    names: &[u8],
    index: &[u32],
    room: &mut [u8],
    events: &mut [u8],
) -> Intake
    requires within_text { WithinText intake (length input.now) }
    requires input_len_bound { (length input.now ≤ 65536) × (intake.taken ≤ longest + 65536) }
    ensures { FedText names.now index.now intake (unread_text intake input.now) room.old
        events.old result room.new events.new }
{
    let text = &input[intake.from..intake.end];
    let fed = reader::feed(intake.reader, text, names, index, room, events);
    Intake {
        reader: fed.reader,
        from: intake.from + fed.taken,
        taken: intake.taken + fed.taken as u64,
        refusal: number_of(fed.refusal),
        ended: false,
        written: fed.written,
        ..intake
    }
}

// The events of what has come, or one read more where all of it is read.
pub fn advance(
    file: &File,
    intake: Intake,
    input: &mut [u8],
    names: &[u8],
    index: &[u32],
    room: &mut [u8],
    events: &mut [u8],
) -> Intake
    requires within_text { WithinText intake (length input.old) }
    requires input_len_bound { (length input.old ≤ 65536) × (intake.taken ≤ longest + 65536) }
    ensures { Advanced names.now index.now file.now intake input.old room.old events.old result
        input.new room.new events.new }
{
    if intake.from < intake.end {
        feed_text(intake, &*input, names, index, room, events)
    } else {
        read_text(file, intake, input)
    }
}

// The refusal of a text that was read to its end or to a refused byte, or 0: "the text ends, and it is not a whole document".
#[tactic(auto, unfolding(crate::specs::Intake::end_of, choice::specs::When::when))]
fn ending(reader: Reader, refusal: u8) -> u8
    ensures { result ≡ end_of reader refusal }
{
    if refusal != 0 {
        return refusal;
    }
    number_of(reader::finish(reader).refusal)
}

// The verdict on it, if it is refused: a refused byte is the one after those that were read, and so is the end.
pub fn judge(intake: Intake) -> Option<Verdict>
    requires { intake.taken ≤ longest + 65536 }
    ensures verdict { judged result ≡ verdict_for intake }
    ensures named { TextNumber intake.refusal → IfSome result (λ v. Named v.refusal) }
{
    let refusal = ending(intake.reader, intake.refusal);
    if refusal == 0 {
        return None;
    }
    Some(Verdict {
        refusal,
        at: intake.taken + 1,
    })
}
