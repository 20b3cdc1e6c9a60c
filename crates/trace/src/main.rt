// Offers each event of `events.rec` to a session by itself, also after a refusal, and writes a line for each: how it was answered, how many nodes
// are held, and which were handed out; then it asks finish twice. `lent.rec`, if it is there, says how much is lent to each call. Each word and each
// number is a write of its own, and one that fails is passed over: the program goes on to its end, and ends well.
#![tactic(auto)]

use limits::Refusal;
use session::{Answer, Begun, Counts, Next, Session, StartFault};
use std::io::Stdout;
use system::File;

// The nodes that an event handed out.
fn say_nodes(to: Stdout, records: &[u8], count: u32) {
    if 0 < count {
        system::write(to, b", listed");
    }
    for i in 0..count as usize {
        if 4 * i + 4 <= records.len() {
            let node = lines::node_at(records, i);
            system::write(to, b" ");
            let _ = print!(to; "{node}");
        }
    }
}

fn say_held(to: Stdout, held: u32) {
    system::write(to, b", held ");
    let _ = print!(to; "{held}");
}

fn say_step(to: Stdout, number: u64, step: Next, out: &[u8]) {
    let _ = print!(to; "{number}");
    match step.answer {
        Answer::Refused(r) => {
            system::write(to, b" refused ");
            let _ = print!(to; "{r}");
            say_held(to, step.session.held);
        }
        Answer::Taken(n) => {
            system::write(to, b" taken");
            say_held(to, step.session.held);
            say_nodes(to, out, n);
        }
    }
    system::write(to, b"\n");
}

fn say_finish(to: Stdout, finish: Result<Counts, Refusal>) {
    match finish {
        Ok(Counts { opened, handed }) => {
            system::write(to, b"finish opened ");
            let _ = print!(to; "{opened}");
            system::write(to, b" listed ");
            let _ = print!(to; "{handed}");
        }
        Err(refusal) => {
            let number = refusal.number();
            system::write(to, b"finish refused ");
            let _ = print!(to; "{number}");
        }
    }
    system::write(to, b"\n");
}

// How many bytes are lent to a call.
#[derive(Clone, Copy)]
struct Lending {
    out: usize,
    elements: usize,
    nodes: usize,
}

// A record of 12 bytes for each call: three numbers, high byte first. Enough is lent to a call that has none.
fn next_lending(file: &File) -> Lending {
    let mut record = [0u8; 12];
    let n = system::read_full(file, &mut record);
    if n < 12 {
        return Lending {
            out: limits::OUTPUT,
            elements: limits::ELEMENTS_ROOM,
            nodes: limits::NODES_ROOM,
        };
    }
    Lending {
        out: lines::node_at(&record, 0) as usize,
        elements: lines::node_at(&record, 1) as usize,
        nodes: lines::node_at(&record, 2) as usize,
    }
}

// "Leftover bytes under 8 are a bad record": they are offered as they are. More is lent of nothing than there is. Answers with the session, or with
// nothing where there is no other event.
fn offer_next(
    to: Stdout,
    file: &File,
    lent: &File,
    number: u64,
    session: Session,
    elements: &mut [u8],
    nodes: &mut [u8],
    out: &mut [u8],
) -> Option<Session> {
    let mut record = [0u8; 8];
    let n = system::read_full(file, &mut record);
    if n == 0 {
        return None;
    }
    let lending = next_lending(lent);
    let some_elements = lending.elements.min(elements.len());
    let some_nodes = lending.nodes.min(nodes.len());
    let some_out = lending.out.min(out.len());
    let step = session.event(
        &record[..n],
        &mut elements[..some_elements],
        &mut nodes[..some_nodes],
        &mut out[..some_out],
    );
    let next = step.session;
    say_step(to, number, step, &*out);
    Some(next)
}

// Nothing says that a file ends. So the loop counts the events up to a number that no file has.
fn offer_all(
    to: Stdout,
    file: &File,
    lent: &File,
    session: Session,
    elements: &mut [u8],
    nodes: &mut [u8],
    out: &mut [u8],
) -> Session {
    let mut last = session;
    for number in 1..u64::MAX {
        match offer_next(to, file, lent, number, last, elements, nodes, out) {
            Some(next) => last = next,
            None => break,
        }
    }
    last
}

// The line that answers a refused query, as the program writes it.
fn say_query(to: Stdout, fault: StartFault) {
    let mut text = [0u8; 64];
    let end = closing::query_line(Err(fault), &mut text);
    system::write(to, &text[..end]);
}

// A session for the query, by what is lent at the start.
fn begin(query: &[u8], lent: &File, elements: &[u8], nodes: &[u8]) -> Begun {
    let lending = next_lending(lent);
    let some_elements = lending.elements.min(elements.len());
    let some_nodes = lending.nodes.min(nodes.len());
    session::begin(query, &elements[..some_elements], &nodes[..some_nodes])
}

fn main(rt: HostRuntime) {
    let to = rt.stdout();
    let mut query = [0u8; 264];
    // A record more than is needed, so that more can be lent.
    let mut elements = [0u8; 16448];
    let mut nodes = [0u8; 32800];
    let mut out = [0u8; 4104];
    let n = system::read_file(&rt, b"query.rec", &mut query);
    let lent = system::open(&rt, b"lent.rec");
    let begun = begin(&query[..n], &lent, &elements, &nodes);
    if let Err(fault) = begun.answer {
        say_query(to, fault);
        return;
    }
    let file = system::open(&rt, b"events.rec");
    let last = offer_all(
        to,
        &file,
        &lent,
        begun.session,
        &mut elements,
        &mut nodes,
        &mut out,
    );
    system::close(file);
    // "it changes nothing and may be asked again"
    say_finish(to, last.finish());
    say_finish(to, last.finish());
}
