// Reads each text of `cases.bin` in blocks and with room for events as its header says, by the list in `names.txt`, and writes its event records and a
// record that closes them: 255, the refusal or 0, 0, 0 and the byte that is refused in 4 bytes, high byte first, or 0. A write that fails is passed over:
// the program goes on to its end, and ends well.
#![tactic(auto)]

ghost use Rattle.std.specs.Prelude.{◌≤◌, length};

use limits::TextRefusal;
use modes::Reader;
use std::io::Stdout;
use system::File;

// How far a text is read.
#[derive(Clone, Copy)]
struct Trace {
    reader: Reader,
    taken: u64,
    refusal: Option<TextRefusal>,
}

// One feed, from `at` on, and its events. No more room is lent than there is.
fn feed_once(
    to: Stdout,
    trace: Trace,
    text: &[u8],
    names: &[u8],
    index: &[u32],
    room: &mut [u8],
    out: &mut [u8],
    lent: usize,
) -> Trace {
    let some = lent.min(out.len());
    let fed = reader::feed(trace.reader, text, names, index, room, &mut out[..some]);
    let written = fed.written.min(some);
    system::write(to, &out[..written]);
    Trace {
        reader: fed.reader,
        taken: trace.taken.wrapping_add(fed.taken as u64),
        refusal: fed.refusal,
    }
}

// A block, in as many feeds as the room for events asks for; each takes a byte. Of a refused text nothing more is fed.
fn feed_block(
    to: Stdout,
    trace: Trace,
    text: &[u8],
    names: &[u8],
    index: &[u32],
    room: &mut [u8],
    out: &mut [u8],
    lent: usize,
) -> Trace {
    let mut now = trace;
    let mut at: usize = 0;
    for _ in 0..text.len() {
        if now.refusal.is_some() || text.len() <= at {
            break;
        }
        now = feed_once(to, now, &text[at..], names, index, room, out, lent);
        let taken = now.taken.wrapping_sub(trace.taken) as usize;
        at = taken.min(text.len());
    }
    now
}

// What a header says: how many bytes the text has, how many are given at a time, and room for how many bytes of events.
#[derive(Clone, Copy)]
struct Case {
    length: usize,
    block: usize,
    room: usize,
}

fn next_case(file: &File) -> Option<Case> {
    let mut header = [0u8; 8];
    if system::read_full(file, &mut header) < 8 {
        return None;
    }
    let length = lines::node_at(&header, 0) as usize;
    let both = lines::node_at(&header, 1) as usize;
    Some(Case {
        length,
        block: both / 65536,
        room: 8 * (both % 65536),
    })
}

// 0 is as many as fit.
fn block_of(block: usize, fits: usize) -> usize {
    if block == 0 { fits } else { block }
}

// Some bytes of the text, as many as there is room for at most. Answers how many came.
fn read_block(file: &File, wanted: usize, text: &mut [u8]) -> usize
    ensures { (result ≤ wanted) × (result ≤ length text.new) }
{
    let most = wanted.min(text.len());
    system::read_full(file, &mut text[..most])
}

// A text, block by block.
fn read_case(
    to: Stdout,
    file: &File,
    case: Case,
    text: &mut [u8],
    names: &[u8],
    index: &[u32],
    room: &mut [u8],
    out: &mut [u8],
) -> Trace {
    let mut trace = Trace {
        reader: reader::begin(),
        taken: 0,
        refusal: None,
    };
    let block = block_of(case.block, text.len());
    let mut left = case.length;
    // Kept: a `for` is no plainer, since how far a turn goes is for the system to say.
    while 0 < left {
        let got = read_block(file, block.min(left), text);
        if got == 0 {
            break;
        }
        left -= got;
        trace = feed_block(to, trace, &text[..got], names, index, room, out, case.room);
    }
    trace
}

fn say_closing(to: Stdout, refusal: u8, at: u64) {
    let mut record = [255, refusal, 0, 0, 0, 0, 0, 0];
    record[4..].copy_from_slice(&at.to_be_bytes()[4..]);
    system::write(to, &record);
}

// What the end of the text came to.
fn say_end(to: Stdout, trace: Trace) {
    let ended = reader::finish(trace.reader).refusal;
    match trace.refusal.or(ended) {
        Some(refusal) => say_closing(to, refusal.number(), trace.taken.wrapping_add(1)),
        None => say_closing(to, 0, 0),
    }
}

// Nothing says that a file ends. So the loop counts the cases up to a number that no file has.
fn read_all(to: Stdout, file: &File, names: &[u8], index: &[u32]) {
    let mut text = [0u8; 65536];
    let mut room = [0u8; 18496];
    let mut out = [0u8; 65536];
    for _ in 0..u64::MAX {
        let Some(case) = next_case(file) else {
            break;
        };
        let trace = read_case(to, file, case, &mut text, names, index, &mut room, &mut out);
        say_end(to, trace);
    }
}

fn main(rt: HostRuntime) {
    let to = rt.stdout();
    let mut names = intake::names_room();
    let mut index = intake::index_room();
    let n = intake::read_names(&rt, &mut names);
    if names::build(&names[..n], &mut index).is_ok() {
        let file = system::open(&rt, b"cases.bin");
        read_all(to, &file, &names[..n], &index);
    }
}
