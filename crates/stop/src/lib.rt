// The stop: which refusals stop a session, and one event on lent bytes with it. "Once a session has given one of the refusals 2 to 7 it is stopped".
#![tactic(auto)]

ghost use Rattle.std.specs.Prelude.{◌≡◌, ◌*◌, ◌≤◌, length};
ghost use Rattle.meaning.specs.Record.{event_of};
ghost use Rattle.meaning.specs.Limits.{output_needed};
ghost use Rattle.meaning.specs.Refusals.{stops};
ghost use Rattle.records.specs.Read.{shown};
ghost use Rattle.element.specs.Element.{elements_in};
ghost use Rattle.node.specs.Node.{queue_in};
ghost use Rattle.plan_bytes.specs.Kept.{kept_in};
ghost use Rattle.numbers.specs.Numbers.{numbers_in};
ghost use Rattle.limits.specs.Number.{fault_in};
ghost use Rattle.step.specs.Step.{listed_in, after};
ghost use Rattle.stop.specs.Stop.{marked_by, guarded};

use element::Elements;
use limits::Refusal;
use node::Nodes;
use numbers::Numbers;
use plan_bytes::Kept;

// Whether a session that has given the refusal with this number is stopped; 0 is none.
#[tactic(auto, unfolding(meaning::specs::Refusals::stops))]
fn stops(refusal: u8) -> bool
    ensures { result ≡ stops refusal }
{
    matches!(refusal, limits::BAD_RECORD..=limits::TOO_MANY_HELD)
}

// The numbers after the refusal with this number, or after none (0): stopped, if it stops.
#[tactic(auto, unfolding(crate::specs::Stop::marked_by, choice::specs::When::when))]
pub fn mark(numbers: &mut Numbers, refusal: u8)
    ensures { numbers_in numbers.new ≡ marked_by refusal (numbers_in numbers.old) }
{
    if stops(refusal) {
        numbers::write_stop(numbers, 1);
    }
}

// One event: "every later event and every later finish gets 11".
#[tactic(auto, unfolding(crate::specs::Stop::guarded, crate::specs::Stop::marked_by, meaning::specs::Refusals::stops, choice::specs::When::when))]
pub fn guard(
    kept: &Kept,
    bytes: &[u8],
    numbers: &mut Numbers,
    elements: &mut Elements,
    nodes: &mut Nodes,
    out: &mut [u8],
) -> Result<u32, Refusal>
    requires { output_needed ≤ length out.old }
    ensures out_after { after (fault_in result) (listed_in result) (numbers_in numbers.new) (elements_in elements.new)
        (queue_in nodes.new) out.new
        ≡ guarded (kept_in kept.now) (shown (event_of bytes.now)) (numbers_in numbers.old)
        (elements_in elements.old) (queue_in nodes.old) out.old }
    ensures listed_bound { 4 * listed_in result ≤ output_needed }
{
    if numbers::get(numbers, numbers::Field::Stopped) != 0 {
        return Err(Refusal::Stopped);
    }
    let r = step::step(kept, bytes, numbers, elements, nodes, out);
    if let Err(refusal) = r {
        mark(numbers, refusal.number());
    }
    r
}
