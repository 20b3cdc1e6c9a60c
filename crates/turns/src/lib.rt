// The program's loop over the stream: it reads, or works on what is read, until the file ends, an event is refused or standard output takes no more.
#![tactic(auto)]

ghost use Rattle.std.specs.Prelude.{◌≡◌, ◌*◌, ◌≤◌, length, IfOk, IfErr};
ghost use Rattle.meaning.specs.Limits.{node_limit, output_needed, elements_needed, nodes_needed};
ghost use Rattle.reads.specs.State.{UnreadWithin};
ghost use Rattle.turns.specs.Owed.{Admitted, Declined};
ghost use Rattle.turns.specs.Turns.{Started, more_to_do, TurnTaken, WorkedAll};

use reads::State;
use session::Session;
use std::io::Stdout;
use system::File;

// "The query is judged first": a session for a query that is admitted, or the length of the line that answers a refused one.
pub fn admit(query: &[u8], elements: &[u8], nodes: &[u8], text: &mut [u8]) -> Result<Session, usize>
    requires room { (elements_needed ≤ length elements.now) × (nodes_needed ≤ length nodes.now) }
    requires text_long { 64 ≤ length text.old }
    ensures ok { IfOk result (λ session. Admitted query.now session) }
    ensures err { IfErr result (λ n. Declined query.now text.new n) }
{
    let begun = session::begin(query, elements, nodes);
    match begun.answer {
        Ok(()) => Ok(begun.session),
        Err(fault) => Err(closing::query_line(Err(fault), text)),
    }
}

// Works on what is read where a whole record is there, else reads once.
fn take_turn(
    file: &File,
    to: Stdout,
    state: State,
    input: &mut [u8],
    elements: &mut [u8],
    nodes: &mut [u8],
    out: &mut [u8],
    text: &mut [u8],
) -> State
    requires unread_within { UnreadWithin state (length input.old) × (11 * length out.old ≤ 4 * length text.old) }
    requires in_bounds { ((8 ≤ length input.old) × (length input.old ≤ 65536)) × (state.taken ≤ 2 * node_limit) }
    ensures { TurnTaken file.now state input.old elements.old nodes.old out.old result
        input.new elements.new nodes.new }
{
    if 8 <= state.end - state.from {
        block::work_block(to, state, &*input, elements, nodes, out, text)
    } else {
        reads::read_more(file, state, input)
    }
}

// Whether there is more to do.
#[tactic(auto, unfolding(crate::specs::Turns::more_to_do, choice::specs::When::when))]
fn more_to_do(state: &State) -> bool
    ensures { result ≡ more_to_do state.now.refusal state.now.ended state.now.written }
{
    state.refusal == 0 && !state.ended && state.written
}

// A file need not end, but the loop does: a turn that reads gets a byte or is the last, a turn that works takes an event or is the last, and no
// more than two events for each node that may be opened are ever taken.
pub fn work_all(
    file: &File,
    to: Stdout,
    session: Session,
    input: &mut [u8],
    elements: &mut [u8],
    nodes: &mut [u8],
    out: &mut [u8],
    text: &mut [u8],
) -> State
    requires in_bounds { ((8 ≤ length input.old) × (length input.old ≤ 65536)) × (11 * length out.old ≤ 4 * length text.old) }
    requires elements_needed_in_bounds { (elements_needed ≤ length elements.old) × (nodes_needed ≤ length nodes.old) }
    requires output_needed_in_bounds { (output_needed ≤ length out.old) × Started session }
    ensures { WorkedAll file.now session result elements.new nodes.new }
{
    let mut state = State {
        session,
        from: 0,
        end: 0,
        taken: 0,
        refusal: 0,
        ended: false,
        written: true,
    };
    // Kept: how many turns there are is for the file and the events to say, so there is nothing that a `for` could go over (d).
    'turns: while more_to_do(&state) {
        state = take_turn(file, to, state, input, elements, nodes, out, text);
    }
    state
}
