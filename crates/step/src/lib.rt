// One event on lent bytes: the refusals in the order of their numbers, one dispatch on the event's kind, an open and a close. Everything is lent: what is
// kept of the query (crate plan_bytes), the session's numbers (numbers), the open elements (elements), the waiting nodes (nodes) and the output buffer.
#![tactic(auto)]

ghost use Rattle.std.specs.Prelude.{◌≡◌, ◌*◌, ◌≤◌, ◌<◌, length};
ghost use Rattle.meaning.specs.Record.{event_of};
ghost use Rattle.meaning.specs.Limits.{depth_limit, held_limit, output_needed};
ghost use Rattle.records.specs.Read.{shown};
ghost use Rattle.engine.specs.Quick.{opening};
ghost use Rattle.element.specs.Element.{elements_in};
ghost use Rattle.node.specs.Node.{queue_in};
ghost use Rattle.plan_bytes.specs.Kept.{kept_in};
ghost use Rattle.numbers.specs.Numbers.{numbers_in};
ghost use Rattle.limits.specs.Number.{fault_in};
ghost use Rattle.step.specs.Step.{listed_in, moved_out, after, on_open, on_close, step};

use element::Elements;
use limits::Refusal;
use node::Nodes;
use numbers::Numbers;
use plan_bytes::Kept;
use records::Event;

// The nodes that wait at the innermost of `depth` elements move up out of it or leave. Returns how many nodes wait.
#[tactic(auto, using(crate::proofs::Steps::Sizes::sizes), unfolding(crate::specs::Step::moved_out))]
fn move_out(kept: &Kept, depth: usize, held: usize, elements: &Elements, nodes: &mut Nodes) -> usize
    requires { (0 < depth) × (depth ≤ depth_limit) × (held ≤ held_limit) }
    ensures nodes_after { record { held = result; queue = queue_in nodes.new }
        ≡ moved_out (kept_in kept.now) depth held (elements_in elements.now) (queue_in nodes.old) }
    ensures upper_bound { result ≤ held }
{
    let above = depth - 1;
    let met = element::get(elements, above, element::Field::Met);
    let ready = elements::possible_at(kept, elements, above);
    let from = nodes::suffix(nodes, held, depth as u32);
    nodes::move_up(kept, met, ready, above as u32, nodes, from, held)
}

// An element named `x` opens. Returns how many nodes were handed out.
#[tactic(auto, using(crate::proofs::Steps::Sizes::sizes), unfolding(crate::specs::Step::on_open, crate::specs::Step::open_taken, choice::specs::When::when))]
fn open(
    kept: &Kept,
    x: u32,
    numbers: &mut Numbers,
    elements: &mut Elements,
    nodes: &mut Nodes,
    out: &mut [u8],
) -> Result<u32, Refusal>
    requires { output_needed ≤ length out.old }
    ensures out_after { after (fault_in result) (listed_in result) (numbers_in numbers.new) (elements_in elements.new)
        (queue_in nodes.new) out.new
        ≡ on_open (kept_in kept.now) x (numbers_in numbers.old) (elements_in elements.old)
        (queue_in nodes.old) out.old }
    ensures listed_bound { 4 * listed_in result ≤ output_needed }
{
    tally::check_open(numbers)?;
    let depth = numbers::get(numbers, numbers::Field::Depth) as usize;
    let held = numbers::get(numbers, numbers::Field::Held) as usize;
    if opening::full(kept, x, depth, held, elements, nodes) {
        return Err(Refusal::TooManyHeld);
    }
    let go = opening::opening(kept, x, depth, held, elements, nodes);
    let number = numbers::get(numbers, numbers::Field::Opened) + 1;
    let rest = nodes::join(go, held, number, (depth + 1) as u32, nodes, out);
    let listed = go.went as u32 + go.all as u32;
    tally::count_open(numbers, rest as u32, listed);
    Ok(listed)
}

// The innermost element closes, named `x`. Returns the same.
#[tactic(auto, using(crate::proofs::Steps::Sizes::sizes), unfolding(crate::specs::Step::on_close, crate::specs::Step::close_taken, choice::specs::When::when))]
fn close(
    kept: &Kept,
    x: u32,
    numbers: &mut Numbers,
    elements: &Elements,
    nodes: &mut Nodes,
    out: &mut [u8],
) -> Result<u32, Refusal>
    requires { output_needed ≤ length out.old }
    ensures out_after { after (fault_in result) (listed_in result) (numbers_in numbers.new) (elements_in elements.now)
        (queue_in nodes.new) out.new
        ≡ on_close (kept_in kept.now) x (numbers_in numbers.old) (elements_in elements.now)
        (queue_in nodes.old) out.old }
    ensures listed_bound { 4 * listed_in result ≤ output_needed }
{
    tally::check_close(numbers, elements, x)?;
    let depth = numbers::get(numbers, numbers::Field::Depth) as usize;
    let held = numbers::get(numbers, numbers::Field::Held) as usize;
    let left = move_out(kept, depth, held, elements, nodes);
    let went = nodes::front_if(left < held, kept, elements, depth - 1, nodes, left);
    nodes::hand_out(went, left, nodes, out);
    tally::count_close(numbers, (left - went) as u32, went as u32);
    Ok(went as u32)
}

// One event. Returns how many nodes were handed out, or why it is refused.
#[tactic(auto, unfolding(crate::specs::Step::step))]
pub fn step(
    kept: &Kept,
    bytes: &[u8],
    numbers: &mut Numbers,
    elements: &mut Elements,
    nodes: &mut Nodes,
    out: &mut [u8],
) -> Result<u32, Refusal>
    requires { output_needed ≤ length out.old }
    ensures out_after { after (fault_in result) (listed_in result) (numbers_in numbers.new) (elements_in elements.new)
        (queue_in nodes.new) out.new
        ≡ step (kept_in kept.now) (shown (event_of bytes.now)) (numbers_in numbers.old) (elements_in elements.old)
        (queue_in nodes.old) out.old }
    ensures listed_bound { 4 * listed_in result ≤ output_needed }
{
    match records::read_event(bytes) {
        Some(Event::Open(x)) => open(kept, x as u32, numbers, elements, nodes, out),
        Some(Event::Close(x)) => close(kept, x as u32, numbers, elements, nodes, out),
        None => Err(Refusal::BadRecord),
    }
}
