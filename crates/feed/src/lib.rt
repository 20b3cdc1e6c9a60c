// A block of events on lent bytes, one after the other, each with the stop (crate stop).
#![tactic(auto)]

ghost use Rattle.std.specs.Prelude.{◌≡◌, ◌*◌, ◌/◌, ◌≤◌, length};
ghost use Rattle.meaning.specs.Limits.{output_needed};
ghost use Rattle.numbers.specs.Numbers.{numbers_in};
ghost use Rattle.plan_bytes.specs.Kept.{kept_in};
ghost use Rattle.limits.specs.Number.{fault_in};
ghost use Rattle.step.specs.Step.{listed_in};
ghost use Rattle.feed.specs.Steps.{seat, came, step_at, FeedGives};

use element::Elements;
use limits::Refusal;
use node::Nodes;
use numbers::Numbers;
use plan_bytes::Kept;

// What a block comes to.
#[derive(Clone, Copy)]
pub struct Fed {
    // How many events were taken.
    pub taken: usize,
    // How many list records were written, from the start of the buffer.
    pub listed: usize,
    // Why the next event was refused, if it was.
    pub refusal: Option<Refusal>,
}

// One event with the stop, in an output buffer that has room enough. Returns how many nodes were handed out.
pub fn take(
    kept: &Kept,
    bytes: &[u8],
    numbers: &mut Numbers,
    elements: &mut Elements,
    nodes: &mut Nodes,
    out: &mut [u8],
) -> Result<u32, Refusal>
    requires { output_needed ≤ length out.old }
    ensures event_came { came (fault_in result) (listed_in result)
        (seat (numbers_in numbers.new) elements.new nodes.new) out.new
        ≡ step_at (kept_in kept.now) (seat (numbers_in numbers.old) elements.old nodes.old)
        bytes.now out.old }
    ensures listed_bound { 4 * listed_in result ≤ output_needed }
{
    let taken = stop::guard(kept, bytes, numbers, elements, nodes, out);
    words::are_bytes(elements);
    words::are_bytes(nodes);
    taken
}

// Takes the events of whole records from the start of `events`, one after the other, until they end, one is refused, or less of the buffer is left than an
// event can need.
pub fn feed(
    kept: &Kept,
    events: &[u8],
    numbers: &mut Numbers,
    elements: &mut Elements,
    nodes: &mut Nodes,
    out: &mut [u8],
) -> Fed
    ensures feed_gives { FeedGives (kept_in kept.now)
        (seat (numbers_in numbers.old) elements.old nodes.old) events.now out.old result
        (seat (numbers_in numbers.new) elements.new nodes.new) out.new }
    ensures taken_in_bounds { (8 * result.taken ≤ length events.now) × (4 * result.listed ≤ length out.new) }
{
    let mut listed: usize = 0;
    for (taken, record) in events.chunks_exact(records::EVENT_BYTES).enumerate() {
        let so_far = Fed {
            taken,
            listed,
            refusal: None,
        };
        let from = 4 * listed;
        if out.len() - from < limits::OUTPUT {
            return so_far;
        }
        match take(kept, record, numbers, elements, nodes, &mut out[from..]) {
            Ok(more) => listed += more as usize,
            Err(refusal) => return Fed {
                refusal: Some(refusal),
                ..so_far
            },
        }
    }
    Fed {
        taken: events.len() / records::EVENT_BYTES,
        listed,
        refusal: None,
    }
}
