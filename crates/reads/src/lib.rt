// How far the stream is worked on, and one read more, behind what is left over.
#![tactic(auto)]

ghost use Rattle.std.specs.Prelude.{◌≡◌, ◌+◌, ◌-◌, ◌≤◌, ◌<◌, length, take, drop};
ghost use Rattle.lines.specs.Put.{Put};
ghost use Rattle.reads.specs.State.{UnreadWithin, leftover_of, ReadMore};

use limits::Refusal;
use session::Session;
use system::File;

// How far the stream is worked on.
#[derive(Clone, Copy)]
pub struct State {
    pub session: Session,
    // What is read and not taken yet: the bytes of the input from `from` up to `end`.
    pub from: usize,
    pub end: usize,
    // How many events are taken.
    pub taken: u64,
    // The refusal at which the program stops, or 0.
    pub refusal: u8,
    // Whether a read has given nothing.
    pub ended: bool,
    // Whether all that was handed to standard output was taken.
    pub written: bool,
}

// Moves the `left` bytes from `from` on to the start.
fn move_down(input: &mut [u8], from: usize, left: usize)
    requires { from + left ≤ length input.old }
    ensures { Put input.old 0 (take left (drop from input.old)) input.new left }
{
    input.copy_within(from..from + left, 0);
}

// "Leftover bytes under 8 are a bad record."
fn leftover(left: usize) -> u8
    ensures { result ≡ leftover_of left }
{
    if left == 0 {
        0
    } else {
        Refusal::BadRecord.number()
    }
}

// Reads once, behind what is left over, which moves to the start.
pub fn read_more(file: &File, state: State, input: &mut [u8]) -> State
    requires { UnreadWithin state (length input.old) × (state.end - state.from < length input.old) }
    ensures { ReadMore file.now state input.old result input.new }
{
    let left = state.end - state.from;
    move_down(input, state.from, left);
    let more = system::read_at(file, input, left);
    let ended = more == 0;
    State {
        from: 0,
        end: left + more,
        refusal: if ended { leftover(left) } else { 0 },
        ended,
        ..state
    }
}
