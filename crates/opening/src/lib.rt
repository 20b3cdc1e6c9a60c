// An open before anything is handed out: which nodes go, what becomes of the open elements, and whether the new node finds a place.
#![tactic(auto)]

ghost use Rattle.std.specs.Prelude.{◌≡◌, ◌≤◌, ◌<◌};
ghost use Rattle.meaning.specs.Limits.{depth_limit, held_limit};
ghost use Rattle.element.specs.Element.{elements_in};
ghost use Rattle.node.specs.Node.{queue_in};
ghost use Rattle.plan_bytes.specs.Kept.{kept_in};
ghost use Rattle.opening.specs.Opening.{opening_in, all_go, no_place, over_in};

use element::Elements;
use node::Nodes;
use nodes::Going;
use plan_bytes::{Kept, Set};

// Whether all that wait go, and the new node with them.
#[tactic(auto, unfolding(crate::specs::Opening::all_go, choice::specs::When::when))]
fn all_go(went: usize, held: usize, certain: bool) -> bool
    ensures { result ≡ all_go went held certain }
{
    certain && went == held
}

// An element named `x` opens under `depth` others: which nodes go.
#[tactic(auto, unfolding(meaning::specs::Limits::depth_limit))]
pub fn opening(
    kept: &Kept,
    x: u32,
    depth: usize,
    held: usize,
    elements: &mut Elements,
    nodes: &Nodes,
) -> Going
    requires { (depth < depth_limit) × (held ≤ held_limit) }
    ensures elements_after { record { going = result; elements = elements_in elements.new }
        ≡ opening_in (kept_in kept.now) x depth held (elements_in elements.old) (queue_in nodes.now) }
    ensures went_le_held { result.went ≤ held }
{
    let pass = elements::named(kept, x);
    let joins = elements::last_given(pass, elements::possible_at(kept, elements, depth));
    let top = elements::push(kept, elements, x, pass, depth);
    let went = nodes::front_if(top < depth, kept, elements, depth + 1, nodes, held);
    let met = pass & plan_bytes::steps(kept, Set::Plain);
    let certain = elements::last_given(met, elements::sure_at(kept, elements, depth));
    let all = all_go(went, held, certain);
    Going { went, all, joins }
}

// Whether the new node neither goes nor is ruled out, and all places are taken.
#[tactic(auto, unfolding(crate::specs::Opening::no_place, choice::specs::When::when, meaning::specs::Limits::held_limit))]
fn no_place(go: Going, held: usize) -> bool
    requires { go.went ≤ held }
    ensures { result ≡ no_place go.all go.joins go.went held }
{
    !go.all && go.joins && limits::HELD <= held - go.went
}

// Whether an open would find no place, told on a copy of the open elements, so that a refused open leaves them as they were.
#[tactic(auto, using(meaning::proofs::Limits::Laws::elements_is, crate::specs::Opening::Laws::over_dead))]
fn brim(kept: &Kept, x: u32, depth: usize, held: usize, elements: &Elements, nodes: &Nodes) -> bool
    requires { (depth < depth_limit) × (held ≤ held_limit) }
    ensures { result ≡ over_in (kept_in kept.now) x depth held (elements_in elements.now) (queue_in nodes.now) }
{
    let pass = elements::named(kept, x);
    if !elements::last_given(pass, elements::possible_at(kept, elements, depth)) {
        return false;
    }
    let mut trial = *elements;
    no_place(opening(kept, x, depth, held, &mut trial, nodes), held)
}

// The same: below the brim no open is refused for want of a place.
#[tactic(auto, using(crate::specs::Opening::Laws::over_not, meaning::proofs::Limits::Laws::held_is))]
pub fn full(
    kept: &Kept,
    x: u32,
    depth: usize,
    held: usize,
    elements: &Elements,
    nodes: &Nodes,
) -> bool
    requires { (depth < depth_limit) × (held ≤ held_limit) }
    ensures { result ≡ over_in (kept_in kept.now) x depth held (elements_in elements.now) (queue_in nodes.now) }
{
    limits::HELD <= held && brim(kept, x, depth, held, elements, nodes)
}
