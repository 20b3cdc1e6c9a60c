// Reads `query.rec` and `events.rec`, writes each node number on a line of its own as it is handed out, and one last line.
//
// What comes is worked on block by block (crates reads, block and turns): one read, the events that are whole, the lines of what they handed out, and only
// then the next read. So a pipe is answered as it runs, and no stream needs more room than another.
#![tactic(auto)]

ghost use Rattle.std.specs.Prelude.{◌≤◌, length};
ghost use Rattle.meaning.specs.Limits.{elements_needed, nodes_needed};
ghost use Rattle.io.specs.Counts.{IsPrefixLen};
ghost use Rattle.turns.specs.Turns.{Started};
ghost use Rattle.pick.specs.Program.{Outcome, Replied};
ghost use Rattle.pick.specs.Events.{EventsAnswered};

use limits::Refusal;
use session::Session;

// "a file that can't be opened counts as empty": every read of it fails. Where standard output takes no more, no last line is put.
fn answer_events(
    rt: &HostRuntime,
    session: Session,
    elements: &mut [u8],
    nodes: &mut [u8],
    text: &mut [u8],
) -> usize
    requires elements_needed_in_bounds { (elements_needed ≤ length elements.old) × (nodes_needed ≤ length nodes.old) }
    requires in_bounds { (90112 ≤ length text.old) × Started session }
    ensures events_answered { EventsAnswered session text.new result }
    ensures prefix_len { IsPrefixLen result text.new }
{
    let mut input = [0u8; 65536];
    let mut out = [0u8; 32768];
    let file = system::open(rt, b"events.rec");
    let state = turns::work_all(
        &file,
        rt.stdout(),
        session,
        &mut input,
        elements,
        nodes,
        &mut out,
        text,
    );
    system::close(file);
    if !state.written {
        return 0;
    }
    let finish = state.session.finish().map_err(Refusal::number);
    closing::last_line(finish, state.taken, state.refusal, text)
}

// "The query is judged first"
fn answer(rt: &HostRuntime, query: &[u8], text: &mut [u8]) -> usize
    requires { 90112 ≤ length text.old }
    ensures replied { Replied query.now text.new result }
    ensures prefix_len { IsPrefixLen result text.new }
{
    let mut elements = [0u8; 16384];
    let mut nodes = [0u8; 32768];
    match turns::admit(query, &elements, &nodes, text) {
        Ok(session) => answer_events(rt, session, &mut elements, &mut nodes, text),
        Err(line) => line,
    }
}

// The whole program; `main` itself can have no contract.
fn answer_files(rt: &HostRuntime)
    ensures { Outcome }
{
    // one record more than a query may have
    let mut query = [0u8; 264];
    let mut text = [0u8; 90112];
    let n = system::read_file(rt, b"query.rec", &mut query);
    let length = answer(rt, &query[..n], &mut text);
    block::write_text(rt.stdout(), &text, length);
}

fn main(rt: HostRuntime) {
    answer_files(&rt);
}
