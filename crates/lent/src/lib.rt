// Whether what a caller lends is long enough: refusals 15 and 1, by the lengths alone.
#![tactic(auto)]

ghost use Rattle.std.specs.Prelude.{◌≡◌, OnOk};
ghost use Rattle.limits.specs.Number.{fault_in};
ghost use Rattle.lent.specs.Lent.{refuse_room, refuse_lent, RoomFits, LentFits};

use limits::Refusal;

// Whether the lent room is enough, or its refusal.
#[tactic(auto, using(crate::proofs::Limits::limits), unfolding(crate::specs::Lent::refuse_room, choice::specs::When::when, meaning::specs::Answer::too_small))]
pub fn check_room(elements: usize, nodes: usize) -> Result<(), Refusal>
    ensures fault { fault_in result ≡ refuse_room elements nodes }
    ensures fits { OnOk result (RoomFits elements nodes) }
{
    if elements < limits::ELEMENTS_ROOM || nodes < limits::NODES_ROOM {
        return Err(Refusal::ShortRoom);
    }
    Ok(())
}

// The same for all that an event is lent: "15 comes directly after 1 and before all others".
#[tactic(auto, using(crate::proofs::Limits::limits), unfolding(crate::specs::Lent::refuse_lent, choice::specs::When::when))]
pub fn check_lent(out: usize, elements: usize, nodes: usize) -> Result<(), Refusal>
    ensures fault { fault_in result ≡ refuse_lent out elements nodes }
    ensures fits { OnOk result (LentFits out elements nodes) }
{
    if out < limits::OUTPUT {
        return Err(Refusal::ShortOutput);
    }
    check_room(elements, nodes)
}
