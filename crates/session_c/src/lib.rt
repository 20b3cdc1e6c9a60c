// The session's calls as crate session_export hands them to callers in C and Rust. The session stands in 312 bytes that the caller lends with each call: 288
// that are kept of the query (crate plan_bytes) and 24 of numbers (crate numbers). Answers are numbers: 0, or the refusal's, and 256 times what comes with
// it; begin's has 65,536 times the reason as well.
#![tactic(auto)]

ghost use Rattle.std.specs.Prelude.{◌≡◌, length};
ghost use Rattle.limits.specs.Number.{fault_in, fault_of};
ghost use Rattle.query_c.specs.Packed.{packed};
ghost use Rattle.step.specs.Step.{listed_in};
ghost use Rattle.session.specs.Begin.{said};
ghost use Rattle.session_c.specs.Laid.{session_room, session_in, session_bytes, counts_room, count_bytes};
ghost use Rattle.session_c.specs.Exported.{started_by, moved_by, end_number, counted_by};
ghost use Rattle.session_c.specs.Exported.Offered.{event_number};
ghost use Rattle.session_c.specs.Exported.{ExportBegins, ExportTakes, ExportRuns, ExportFinishes};

use limits::Refusal;
use session::{Counts, Session, StartFault};

// How many bytes a session takes.
pub const ROOM: usize = plan_bytes::ROOM + numbers::ROOM;

// How many bytes two counts take: 8 each, low byte first.
pub const COUNTS: usize = 16;

// The answer to a session of another length, and to counts of another length: no refusal has this number.
// Kept: the C interface, in which each answer is one number.
pub const NO_SESSION: u64 = 255;

// The session in bytes: any 312 bytes are one.
fn session_in(room: &[u8]) -> Session
    requires { length room.now ≡ session_room }
    ensures { result ≡ session_in room.now }
{
    let (kept, numbers) = room.split_first_chunk::<{ plan_bytes::ROOM }>().unwrap();
    Session::numbered(*kept, numbers.as_array().unwrap())
}

// A session in bytes.
fn put_session(session: Session, room: &mut [u8])
    requires { length room.old ≡ session_room }
    ensures { room.new ≡ session_bytes session }
{
    let (kept, numbers) = room.split_at_mut(plan_bytes::ROOM);
    kept.copy_from_slice(&session.kept);
    session.lay(numbers.as_mut_array().unwrap());
}

// A fault of begin as a number.
fn fault_number(fault: StartFault) -> u64
    ensures { result ≡ packed (said (Err fault)) }
{
    match fault {
        StartFault::ShortRoom => Refusal::ShortRoom.number() as u64,
        StartFault::Query(fault) => query_c::pack(fault) as u64,
    }
}

// Begin's answer as a number. The session is laid in bytes only where it began.
fn answer_begin(answer: Result<(), StartFault>, first: Session, room: &mut [u8]) -> u64
    requires { length room.old ≡ session_room }
    ensures { (result ≡ packed (said answer)) × (room.new ≡ started_by (said answer) first room.old) }
{
    match answer {
        Ok(()) => {
            put_session(first, room);
            0
        }
        Err(fault) => fault_number(fault),
    }
}

// A session for a query, in the 312 bytes of `session`, whatever they held: 0, or the refusal's number. With refusal 10 come 256 times the number of the
// first step at fault and 65,536 times the reason, as `compassflare_check` answers (crate query_c).
pub fn compassflare_begin(query: &[u8], elements: &[u8], nodes: &[u8], session: &mut [u8]) -> u64
    ensures { ExportBegins query.now elements.now nodes.now session.old result
        session.new }
{
    if session.len() != ROOM {
        return NO_SESSION;
    }
    let begun = session::begin(query, elements, nodes);
    let answer = begun.answer;
    let first = begun.session;
    answer_begin(answer, first, session)
}

// An event's answer as a number.
fn answer_event(answer: Result<u32, Refusal>) -> u64
    ensures { result ≡ event_number (fault_in answer) (listed_in answer) }
{
    match answer {
        Ok(listed) => 256 * (listed as u64),
        Err(refusal) => refusal.number() as u64,
    }
}

// Takes one event: 256 times how many list records stand at the start of `out`, or the refusal's number.
pub fn compassflare_event(
    session: &mut [u8],
    bytes: &[u8],
    elements: &mut [u8],
    nodes: &mut [u8],
    out: &mut [u8],
) -> u64
    ensures { ExportTakes session.old bytes.now elements.old nodes.old out.old result
        session.new elements.new nodes.new out.new }
{
    if session.len() != ROOM {
        return NO_SESSION;
    }
    words::are_bytes(session);
    let (kept, numbers) = session.split_at_mut(plan_bytes::ROOM);
    let r = offer::offer(
        kept.as_array().unwrap(),
        bytes,
        numbers.as_mut_array().unwrap(),
        elements,
        nodes,
        out,
    );
    answer_event(r)
}

// Two counts in bytes.
fn put_counts(counts: &mut [u8], first: u64, second: u64)
    requires { length counts.old ≡ counts_room }
    ensures { counts.new ≡ count_bytes first second }
{
    let (one, other) = counts.split_at_mut(8);
    one.copy_from_slice(&first.to_le_bytes());
    other.copy_from_slice(&second.to_le_bytes());
}

// Where no event was taken the session's bytes stay as they were, but for the stop.
fn put_moved(taken: usize, refusal: Option<Refusal>, next: Session, room: &mut [u8])
    requires { length room.old ≡ session_room }
    ensures { room.new ≡ moved_by taken (fault_of refusal) next room.old }
{
    if taken != 0 {
        put_session(next, room);
    } else if let Some(refusal) = refusal {
        let (_, numbers) = room.split_at_mut(plan_bytes::ROOM);
        stop::mark(numbers.as_mut_array().unwrap(), refusal.number());
    }
}

// Takes a block of events: 0, or the number of the refusal with which it ended. `counts` is how many events were taken, and how many list records stand at
// the start of `out`; it is written beside a refusal too.
pub fn compassflare_run(
    session: &mut [u8],
    events: &[u8],
    elements: &mut [u8],
    nodes: &mut [u8],
    out: &mut [u8],
    counts: &mut [u8],
) -> u64
    ensures { ExportRuns session.old events.now elements.old nodes.old out.old
        counts.old result session.new elements.new nodes.new out.new counts.new }
{
    if session.len() != ROOM {
        return NO_SESSION;
    }
    if counts.len() != COUNTS {
        return NO_SESSION;
    }
    let ran = session_in(&*session).run(events, elements, nodes, out);
    let next = ran.session;
    put_moved(ran.taken, ran.refusal, next, session);
    put_counts(counts, ran.taken as u64, ran.listed as u64);
    match ran.refusal {
        None => 0,
        Some(refusal) => refusal.number() as u64,
    }
}

// Finish's answer as a number.
fn answer_finish(answer: Result<Counts, Refusal>, counts: &mut [u8]) -> u64
    requires { length counts.old ≡ counts_room }
    ensures { (result ≡ end_number answer) × (counts.new ≡ counted_by answer counts.old) }
{
    match answer {
        Ok(ended) => {
            put_counts(counts, ended.opened as u64, ended.handed as u64);
            0
        }
        Err(refusal) => refusal.number() as u64,
    }
}

// "it changes nothing and may be asked again": 0, or the refusal's number. `counts` is how many nodes were opened, and how many handed out.
pub fn compassflare_finish(session: &[u8], counts: &mut [u8]) -> u64
    ensures { ExportFinishes session.now counts.old result counts.new }
{
    if session.len() != ROOM {
        return NO_SESSION;
    }
    if counts.len() != COUNTS {
        return NO_SESSION;
    }
    let answer = session_in(session).finish();
    answer_finish(answer, counts)
}
