// Runs R1, R2 and R3, and lent room that is too small, through the session's own calls and writes what came. Each word and each number is a write of its
// own, and one that fails is passed over: the program goes on to its end, and ends well.
#![tactic(auto)]

use session::{Answer, Begun, Session, StartFault};
use std::io::Stdout;

const OPENS: u8 = 1;

const CLOSES: u8 = 2;

const R: u8 = 1;

const D: u8 = 2;

const C: u8 = 3;

// A session to which events were offered up to the first refusal.
#[derive(Clone, Copy)]
struct Run {
    session: Session,
    // How many events were taken, and how many nodes they handed out.
    taken: u64,
    handed: u64,
    // How many the last event handed out.
    last: u32,
    refusal: Option<u8>,
}

// What begin answers: the program's line where it is refused.
fn say_begun(to: Stdout, answer: Result<(), StartFault>) {
    if answer.is_ok() {
        let _ = println!(to; "taken");
        return;
    }
    let mut text = [0u8; 64];
    let end = closing::query_line(answer, &mut text);
    system::write(to, &text[..end]);
}

fn say_run(to: Stdout, run: Run) {
    let taken = run.taken;
    let handed = run.handed;
    match run.refusal {
        Some(r) => {
            let event = taken.wrapping_add(1);
            let _ = print!(to; "refused ");
            let _ = print!(to; "{r}");
            let _ = print!(to; " at event ");
            let _ = print!(to; "{event}");
        }
        None => {
            let _ = print!(to; "all ");
            let _ = print!(to; "{taken}");
            let _ = print!(to; " events taken");
        }
    }
    let _ = print!(to; ", handed out ");
    let _ = print!(to; "{handed}");
    let _ = println!(to);
}

fn start(session: Session) -> Run {
    Run {
        session,
        taken: 0,
        handed: 0,
        last: 0,
        refusal: None,
    }
}

// Offers one event, unless one was refused before.
fn offer(
    run: Run,
    kind: u8,
    name: u8,
    elements: &mut [u8],
    nodes: &mut [u8],
    out: &mut [u8],
) -> Run {
    if run.refusal.is_some() {
        return run;
    }
    let bytes = [kind, 0, 0, name, 0, 0, 0, 0];
    let step = run.session.event(&bytes, elements, nodes, out);
    let session = step.session;
    match step.answer {
        Answer::Refused(r) => Run {
            session,
            last: 0,
            refusal: Some(r),
            ..run
        },
        Answer::Taken(last) => Run {
            session,
            taken: run.taken.wrapping_add(1),
            handed: run.handed.wrapping_add(last as u64),
            last,
            ..run
        },
    }
}

// An empty d: its open and its close.
fn offer_d(run: Run, elements: &mut [u8], nodes: &mut [u8], out: &mut [u8]) -> Run {
    let opened = offer(run, OPENS, D, elements, nodes, out);
    offer(opened, CLOSES, D, elements, nodes, out)
}

fn open_r(run: Run, elements: &mut [u8], nodes: &mut [u8], out: &mut [u8]) -> Run {
    offer(run, OPENS, R, elements, nodes, out)
}

// So many steps, one after the other.
fn repeat<F: Fn(Run, &mut [u8], &mut [u8], &mut [u8]) -> Run>(
    run: Run,
    count: usize,
    step: F,
    elements: &mut [u8],
    nodes: &mut [u8],
    out: &mut [u8],
) -> Run
    requires { F.IsAlwaysCallable step }
{
    let mut last = run;
    for _ in 0..count {
        last = step(last, elements, nodes, out);
    }
    last
}

// "/child::*[child::c]/child::*"
fn catalogue_query() -> [u8; 24] {
    [
        1, 1, 0, 0, 0, 0, 0, 0, // child::*
        1, 0, 1, 0, 0, C, 0, 0, // [child::c]
        1, 1, 1, 0, 0, 0, 0, 0, // child::*
    ]
}

fn begin_catalogue(to: Stdout, elements: &[u8], nodes: &[u8]) -> Session {
    let begun = session::begin(&catalogue_query(), elements, nodes);
    let _ = print!(to; "query ");
    say_begun(to, begun.answer);
    begun.session
}

// "r with 1,024 empty d then c", for so many d.
fn catalogue(
    to: Stdout,
    count: usize,
    elements: &mut [u8],
    nodes: &mut [u8],
    out: &mut [u8],
) -> Run {
    let session = begin_catalogue(to, &*elements, &*nodes);
    let opened = open_r(start(session), elements, nodes, out);
    let waiting = repeat(opened, count, offer_d, elements, nodes, out);
    offer(waiting, OPENS, C, elements, nodes, out)
}

// Whether the first `count` list records are the nodes from `first` on, one after the other.
fn in_a_row(records: &[u8], first: u64, count: u32) -> bool {
    for i in 0..count as usize {
        if records.len() < 4 * i + 4 || lines::node_at(records, i) != first.wrapping_add(i as u64) {
            return false;
        }
    }
    true
}

// The nodes that the last event handed out.
fn say_nodes(to: Stdout, records: &[u8], count: u32) {
    let _ = print!(to; "{count}");
    let _ = print!(to; " nodes");
    if 0 < count && 4 <= records.len() {
        let first = lines::node_at(records, 0);
        let last = first.wrapping_add(count as u64 - 1);
        if in_a_row(records, first, count) {
            let _ = print!(to; ", each from ");
            let _ = print!(to; "{first}");
            let _ = print!(to; " to ");
            let _ = print!(to; "{last}");
        } else {
            let _ = print!(to; ", not in a row");
        }
    }
    let _ = println!(to);
}

fn r1(to: Stdout, elements: &mut [u8], nodes: &mut [u8], out: &mut [u8]) {
    let _ = print!(to; "R1 ");
    let run = catalogue(to, limits::HELD, elements, nodes, out);
    let _ = print!(to; "R1 ");
    say_run(to, run);
    let _ = print!(to; "R1 the opening of c handed out ");
    say_nodes(to, &*out, run.last);
}

fn r2(to: Stdout, elements: &mut [u8], nodes: &mut [u8], out: &mut [u8]) {
    let _ = print!(to; "R2 ");
    let run = catalogue(to, limits::HELD + 1, elements, nodes, out);
    let _ = print!(to; "R2 ");
    say_run(to, run);
}

// "/child::r"
fn begin_r(elements: &[u8], nodes: &[u8]) -> Begun {
    session::begin(&[1u8, 1, 0, 0, 0, R, 0, 0], elements, nodes)
}

// "256 nested opens are taken, the 257th gets 5."
fn nested(to: Stdout, elements: &mut [u8], nodes: &mut [u8], out: &mut [u8]) {
    let first = start(begin_r(&*elements, &*nodes).session);
    let run = repeat(first, limits::DEPTH + 1, open_r, elements, nodes, out);
    let _ = print!(to; "R3 nested opens: ");
    say_run(to, run);
}

// Byte `at` of a query whose first step is on the main path and whose others are its predicates, each child::*.
fn step_byte(at: usize) -> u8 {
    match at {
        1 => 1,
        2 => 0,
        _ if at % 8 == 0 || at % 8 == 2 => 1,
        _ => 0,
    }
}

// "A query of 32 steps is taken, of 33 gets 9."
fn long_query(to: Stdout, query: &mut [u8], elements: &[u8], nodes: &[u8]) {
    for (at, byte) in query.iter_mut().enumerate() {
        *byte = step_byte(at);
    }
    let steps = query.len() / 8;
    let begun = session::begin(&*query, elements, nodes);
    let _ = print!(to; "R3 query of ");
    let _ = print!(to; "{steps}");
    let _ = print!(to; " steps: ");
    say_begun(to, begun.answer);
}

fn queries(to: Stdout, elements: &[u8], nodes: &[u8]) {
    let mut most = [0u8; 256];
    let mut more = [0u8; 264];
    long_query(to, &mut most, elements, nodes);
    long_query(to, &mut more, elements, nodes);
}

// "A buffer of 4,099 bytes gets 1."
fn with_buffer(to: Stdout, elements: &mut [u8], nodes: &mut [u8], out: &mut [u8]) {
    let length = out.len();
    let first = start(begin_r(&*elements, &*nodes).session);
    let _ = print!(to; "R3 buffer of ");
    let _ = print!(to; "{length}");
    let _ = print!(to; " bytes: ");
    say_run(to, open_r(first, elements, nodes, out));
}

fn buffers(to: Stdout, elements: &mut [u8], nodes: &mut [u8], out: &mut [u8; limits::OUTPUT]) {
    with_buffer(to, elements, nodes, &mut out[..limits::OUTPUT - 1]);
    with_buffer(to, elements, nodes, out);
}

fn say_room(to: Stdout, first: usize, second: usize) {
    let _ = print!(to; "room of ");
    let _ = print!(to; "{first}");
    let _ = print!(to; " and ");
    let _ = print!(to; "{second}");
}

// "Buffers too small for these limits get refusal 15, at the start and at any event that lends less": begin with this room, and an event for a session
// that was begun with enough.
fn with_room(
    to: Stdout,
    session: Session,
    elements: &mut [u8],
    nodes: &mut [u8],
    out: &mut [u8],
) -> Session {
    let first = elements.len();
    let second = nodes.len();
    say_room(to, first, second);
    let _ = print!(to; " bytes: query ");
    say_begun(to, begin_r(&*elements, &*nodes).answer);
    let run = open_r(start(session), elements, nodes, out);
    say_room(to, first, second);
    let _ = print!(to; " bytes: ");
    say_run(to, run);
    run.session
}

// Too small by a byte for the open elements and for the waiting nodes, and then enough for the same session: "Refusals 1, 15 and 8 stop nothing".
fn rooms(
    to: Stdout,
    elements: &mut [u8; limits::ELEMENTS_ROOM],
    nodes: &mut [u8; limits::NODES_ROOM],
    out: &mut [u8],
) {
    let session = begin_r(&*elements, &*nodes).session;
    let few = &mut elements[..limits::ELEMENTS_ROOM - 1];
    let once = with_room(to, session, few, nodes, out);
    let few = &mut nodes[..limits::NODES_ROOM - 1];
    let twice = with_room(to, once, elements, few, out);
    with_room(to, twice, elements, nodes, out);
}

fn main(rt: HostRuntime) {
    let to = rt.stdout();
    let mut elements = [0u8; limits::ELEMENTS_ROOM];
    let mut nodes = [0u8; limits::NODES_ROOM];
    let mut out = [0u8; limits::OUTPUT];
    r1(to, &mut elements, &mut nodes, &mut out);
    r2(to, &mut elements, &mut nodes, &mut out);
    nested(to, &mut elements, &mut nodes, &mut out);
    queries(to, &elements, &nodes);
    buffers(to, &mut elements, &mut nodes, &mut out);
    rooms(to, &mut elements, &mut nodes, &mut out);
}
