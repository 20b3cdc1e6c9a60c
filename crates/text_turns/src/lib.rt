// The loop of the program on XML text: it reads, or reads on in the text that has come, and works on the events, until the text ends, a byte or an event is
// refused, or standard output takes no more.
#![tactic(auto)]

ghost use Rattle.std.specs.Prelude.{◌≡◌, ◌+◌, ◌≤◌, length};
ghost use Rattle.meaning.specs.Limits.{elements_needed, nodes_needed};
ghost use Rattle.chains.specs.Index.{index_words};
ghost use Rattle.turns.specs.Turns.{Started};
ghost use Rattle.intake.specs.Intake.{longest, WithinText};
ghost use Rattle.text_turns.specs.Stand.{begun_with, more_text, Refilled};
ghost use Rattle.text_turns.specs.Picked.{WorkedText};

use intake::Intake;
use reads::State;
use session::Session;
use std::io::Stdout;
use system::File;

// How far the text is read and its events are worked on.
#[derive(Clone, Copy)]
pub struct Stand {
    pub intake: Intake,
    pub state: State,
}

// Whether there is more to do: events that are not worked on, or text that is not read.
#[tactic(auto, using(crate::specs::Stand::numbers), unfolding(crate::specs::Stand::more_by, choice::specs::When::when))]
fn more_to_do(stand: &Stand) -> bool
    ensures { result ≡ more_text stand.now.intake stand.now.state }
{
    let Stand { intake, state } = *stand;
    let text_left = intake.refusal == 0 && !intake.ended;
    state.refusal == 0 && state.written && (state.from < state.end || text_left)
}

// Before the first turn.
fn begin(session: Session) -> Stand
    ensures { result ≡ begun_with session }
{
    Stand {
        intake: intake::begin(),
        state: State {
            session,
            from: 0,
            end: 0,
            taken: 0,
            refusal: 0,
            ended: false,
            written: true,
        },
    }
}

// More events, where all that have come are worked on.
fn refill(
    file: &File,
    stand: Stand,
    input: &mut [u8],
    names: &[u8],
    index: &[u32],
    room: &mut [u8],
    events: &mut [u8],
) -> Stand
    requires within_text { WithinText stand.intake (length input.old) }
    requires input_len_bound { (length input.old ≤ 65536) × (stand.intake.taken ≤ longest + 65536) }
    ensures { Refilled names.now index.now file.now stand input.old room.old events.old result
        input.new room.new events.new }
{
    let state = stand.state;
    if state.from < state.end {
        return stand;
    }
    let intake = intake::advance(file, stand.intake, input, names, index, room, events);
    Stand {
        intake,
        state: State {
            from: 0,
            end: intake.written,
            refusal: 0,
            ended: false,
            written: true,
            ..state
        },
    }
}

// A turn reads once, takes a byte, or works on an event.
pub fn work_text(
    file: &File,
    to: Stdout,
    session: Session,
    names: &[u8],
    index: &[u32],
    elements: &mut [u8],
    nodes: &mut [u8],
    lines: &mut [u8],
) -> Stand
    requires elements_needed_in_bounds { (elements_needed ≤ length elements.old) × (nodes_needed ≤ length nodes.old) }
    requires in_bounds { (90112 ≤ length lines.old) × ((index_words ≤ length index.now) × Started session) }
    ensures { WorkedText names.now index.now file.now session result elements.new nodes.new }
{
    let mut input = [0u8; 65536];
    let mut room = [0u8; 18496];
    let mut events = [0u8; 32768];
    let mut out = [0u8; 32768];
    let mut stand = begin(session);
    // Kept: how many turns there are is for the file and the events to say, so there is nothing that a `for` could go over (d).
    'turns: while more_to_do(&stand) {
        let Stand { intake, state } = refill(
            file,
            stand,
            &mut input,
            names,
            index,
            &mut room,
            &mut events,
        );
        let state = block::work_block(to, state, &events, elements, nodes, &mut out, lines);
        stand = Stand { intake, state };
    }
    stand
}
