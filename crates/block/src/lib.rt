// One block of events: those of what is read that are whole, and the lines of what they hand out, handed to standard output.
#![tactic(auto)]

ghost use Rattle.std.specs.Prelude.{◌≡◌, ◌*◌, ◌≤◌, length, take};
ghost use Rattle.limits.specs.Number.{fault_of};
ghost use Rattle.meaning.specs.Limits.{node_limit};
ghost use Rattle.io.specs.Counts.{IsPrefixLen};
ghost use Rattle.system.specs.Marks.{WriteTold};
ghost use Rattle.reads.specs.State.{UnreadWithin};
ghost use Rattle.block.specs.Worked.{Worked};

use limits::Refusal;
use reads::State;
use std::io::Stdout;

// Hands the first `length` bytes of the text to standard output.
pub fn write_text(to: Stdout, text: &[u8], length: usize) -> bool
    requires { IsPrefixLen length text.now }
    ensures { WriteTold (take length text.now) result }
{
    system::write(to, &text[..length])
}

// The number of the refusal at which a block stops, 0 where it is none.
fn number_of(refusal: Option<Refusal>) -> u8
    ensures { result ≡ fault_of refusal }
{
    match refusal {
        Some(refusal) => refusal.number(),
        None => 0,
    }
}

// Works on what is read, and writes the lines.
pub fn work_block(
    to: Stdout,
    state: State,
    input: &[u8],
    elements: &mut [u8],
    nodes: &mut [u8],
    out: &mut [u8],
    text: &mut [u8],
) -> State
    requires unread_within { UnreadWithin state (length input.now) × (11 * length out.old ≤ 4 * length text.old) }
    requires input_len_bound { (length input.now ≤ 65536) × (state.taken ≤ 2 * node_limit) }
    ensures { Worked state input.now elements.old nodes.old out.old result
        elements.new nodes.new }
{
    let events = &input[state.from..state.end];
    let ran = state.session.run(events, elements, nodes, out);
    let length = lines::put_lines(&*out, ran.listed, text);
    let written = write_text(to, &*text, length);
    State {
        session: ran.session,
        from: state.from + 8 * ran.taken,
        taken: state.taken + ran.taken as u64,
        refusal: number_of(ran.refusal),
        ended: false,
        written,
        ..state
    }
}
