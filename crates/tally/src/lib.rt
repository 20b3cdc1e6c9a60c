// What the session's numbers decide and how they go on: the refusals told by the numbers, and for a close by the innermost name, and the numbers after
// an open and after a close.
#![tactic(auto)]

ghost use Rattle.std.specs.Prelude.{◌≡◌, OnOk};
ghost use Rattle.element.specs.Element.{elements_in};
ghost use Rattle.numbers.specs.Numbers.{numbers_in};
ghost use Rattle.limits.specs.Number.{fault_in};
ghost use Rattle.tally.specs.Tally.{refuse_open, refuse_close, OpenFits, CloseFits, open_numbers, close_numbers};

use element::Elements;
use limits::Refusal;
use numbers::Numbers;

// The lowest refusal that the numbers decide for an open; also one for numbers past every limit, to which no calls lead.
#[tactic(auto, using(crate::proofs::Limits::limits), unfolding(crate::specs::Tally::refuse_open, choice::specs::When::when))]
pub fn check_open(numbers: &Numbers) -> Result<(), Refusal>
    ensures fault { fault_in result ≡ refuse_open (numbers_in numbers.now) }
    ensures fits { OnOk result (OpenFits (numbers_in numbers.now)) }
{
    if numbers::get(numbers, numbers::Field::Ended) != 0 {
        return Err(Refusal::AfterEnd);
    }
    if limits::DEPTH <= numbers::get(numbers, numbers::Field::Depth) as usize {
        return Err(Refusal::TooDeep);
    }
    if limits::NODES <= numbers::get(numbers, numbers::Field::Opened) {
        return Err(Refusal::TooManyNodes);
    }
    if limits::HELD < numbers::get(numbers, numbers::Field::Held) as usize {
        return Err(Refusal::TooManyHeld);
    }
    Ok(())
}

// The same for a close of `x`.
#[tactic(auto, using(crate::proofs::Limits::limits), unfolding(crate::specs::Tally::refuse_close, choice::specs::When::when))]
pub fn check_close(numbers: &Numbers, elements: &Elements, x: u32) -> Result<(), Refusal>
    ensures fault { fault_in result ≡ refuse_close (numbers_in numbers.now) (elements_in elements.now) x }
    ensures fits { OnOk result (CloseFits (numbers_in numbers.now)) }
{
    if numbers::get(numbers, numbers::Field::Ended) != 0 {
        return Err(Refusal::AfterEnd);
    }
    let depth = numbers::get(numbers, numbers::Field::Depth) as usize;
    if depth == 0
        || limits::DEPTH < depth
        || element::get(elements, depth - 1, element::Field::Name) != x
    {
        return Err(Refusal::WrongClose);
    }
    if limits::HELD < numbers::get(numbers, numbers::Field::Held) as usize {
        return Err(Refusal::TooManyHeld);
    }
    Ok(())
}

// The numbers after an open that handed out `listed` nodes and after which `held` wait.
#[tactic(auto, using(crate::proofs::Limits::limits), unfolding(crate::specs::Tally::open_numbers))]
pub fn count_open(numbers: &mut Numbers, held: u32, listed: u32)
    requires { OpenFits (numbers_in numbers.old) }
    ensures { numbers_in numbers.new ≡ open_numbers (numbers_in numbers.old) held listed }
{
    let depth = numbers::get(numbers, numbers::Field::Depth);
    let opened = numbers::get(numbers, numbers::Field::Opened);
    let handed = numbers::get(numbers, numbers::Field::Handed);
    numbers::write(
        numbers,
        depth + 1,
        held,
        opened + 1,
        handed.wrapping_add(listed),
        0,
    );
}

// The same after a close.
#[tactic(auto, unfolding(crate::specs::Tally::close_numbers))]
pub fn count_close(numbers: &mut Numbers, held: u32, listed: u32)
    requires { CloseFits (numbers_in numbers.old) }
    ensures { numbers_in numbers.new ≡ close_numbers (numbers_in numbers.old) held listed }
{
    let above = numbers::get(numbers, numbers::Field::Depth) - 1;
    let opened = numbers::get(numbers, numbers::Field::Opened);
    let handed = numbers::get(numbers, numbers::Field::Handed);
    let ended = above == 0;
    numbers::write(
        numbers,
        above,
        held,
        opened,
        handed.wrapping_add(listed),
        ended as u32,
    );
}
