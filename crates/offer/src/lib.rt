// One event on a session in lent bytes and on room of any length: refusals 1 and 15 by the lengths, then the stop
// and a step on the bytes of each room that are needed (crate stop).
#![tactic(auto)]

ghost use Rattle.numbers.specs.Numbers.{numbers_in};
ghost use Rattle.plan_bytes.specs.Kept.{kept_in};
ghost use Rattle.feed.specs.Steps.{seat};
ghost use Rattle.offer.specs.Offer.{OfferGives};

use limits::Refusal;
use numbers::Numbers;
use plan_bytes::Kept;

// Takes one event. Longer buffers are fine: their bytes past the needed ones are never touched.
#[tactic(auto, unfolding(crate::specs::Offer::offered, lent::specs::Lent::refuse_lent, lent::specs::Lent::refuse_room, choice::specs::When::when))]
pub fn offer(
    kept: &Kept,
    bytes: &[u8],
    numbers: &mut Numbers,
    elements: &mut [u8],
    nodes: &mut [u8],
    out: &mut [u8],
) -> Result<u32, Refusal>
    ensures { OfferGives (kept_in kept.now)
        (seat (numbers_in numbers.old) elements.old nodes.old) bytes.now out.old result
        (seat (numbers_in numbers.new) elements.new nodes.new) out.new }
{
    lent::check_lent(out.len(), elements.len(), nodes.len())?;
    feed::take(
        kept,
        bytes,
        numbers,
        elements.first_chunk_mut().unwrap(),
        nodes.first_chunk_mut().unwrap(),
        out,
    )
}
