// The open elements, in lent bytes (crate element), by what is kept of a query (crate plan_bytes). Level 0 is the document and level l the l-th open
// element, outermost first, which has record l - 1.
#![tactic(auto)]

ghost use Rattle.std.specs.Prelude.{◌≡◌, ◌+◌, ◌≤◌, ◌<◌, eqb};
ghost use Rattle.meaning.specs.Limits.{depth_limit};
ghost use Rattle.sets.specs.Set.{without, mask_of, only_if};
ghost use Rattle.plan.specs.Plan.{named, meets, lift, turn, last_given};
ghost use Rattle.engine.specs.Quick.{sure_at, possible_at};
ghost use Rattle.element.specs.Element.{place, elements_in};
ghost use Rattle.plan_bytes.specs.Kept.{asking_in, kept_in};
ghost use Rattle.elements.specs.Elements.{ready_at, risen_in, refreshed_from, pushed_in};

use element::{Elements, Field};
use plan_bytes::{Kept, Set};

// The step at this place alone if it asks for the name `x`, else none.
fn one_asking(kept: &Kept, place: usize, x: u32) -> u32
    requires { place < 32 }
    ensures { result ≡ only_if (eqb ((asking_in kept.now).name place) x) place }
{
    let hit = plan_bytes::name(kept, place) == x;
    (hit as u32) << place
}

// The steps that ask for the name `x`, each compared with it.
fn all_asking(kept: &Kept, size: usize, x: u32) -> u32
    requires { size ≤ 32 }
    ensures { result ≡ mask_of size (λ t. eqb ((asking_in kept.now).name t) x) }
{
    sets::collected(size, |place| plan_bytes::name(kept, place) == x)
}

// The steps whose name test an element named `x` passes: those that ask for every name, and those that ask for `x`, told by the bucket of `x`. No step asks
// for the name 0.
pub fn named(kept: &Kept, x: u32) -> u32
    ensures { result ≡ named (kept_in kept.now) x }
{
    let size = plan_bytes::size(kept);
    let stars = plan_bytes::stars(kept, size);
    if x == 0 {
        return stars;
    }
    if size < plan_bytes::FEW {
        return stars | all_asking(kept, size, x);
    }
    let said = plan_bytes::said(kept, x);
    if said < size {
        return stars | one_asking(kept, said, x);
    }
    stars | all_asking(kept, size, x)
}

// The steps of `pass` all of whose predicate steps are in `below`.
fn meets(kept: &Kept, pass: u32, below: u32) -> u32
    ensures { result ≡ meets (kept_in kept.now) pass below }
{
    let hit = sets::collected(plan_bytes::size(kept), |place| {
        let on = plan_bytes::hung(kept, place);
        on & below == on
    });
    hit & pass
}

// The predicate steps of `m`: only they hang on a step, so only they need rise.
#[tactic(auto, unfolding(sets::specs::Set::without))]
fn predicates(kept: &Kept, m: u32) -> u32
    ensures { result ≡ without m (kept_in kept.now).main }
{
    let main = plan_bytes::steps(kept, Set::Main);
    m - (m & main)
}

// What an element that meets `m`, with `below` met in its content, amounts to for those around it.
#[tactic(auto, unfolding(plan::specs::Plan::lift))]
fn lift(kept: &Kept, m: u32, below: u32) -> u32
    ensures { result ≡ lift (kept_in kept.now) m below }
{
    let deep = plan_bytes::steps(kept, Set::Deep);
    predicates(kept, m) | (below & deep)
}

// Whose turn it is in the content of an element that meets `m`, `ready` being whose turn it is around it.
#[tactic(auto, unfolding(plan::specs::Plan::turn))]
fn turn(kept: &Kept, m: u32, ready: u32) -> u32
    ensures { result ≡ turn (kept_in kept.now) m ready }
{
    let deep = plan_bytes::steps(kept, Set::Deep);
    ((m & ready) >> 1) | (ready & deep)
}

// Whether the last main-path step is given to an element that meets `m`, `ready` being whose turn it is around it.
#[tactic(auto, unfolding(sets::specs::Set::last_given))]
pub fn last_given(m: u32, ready: u32) -> bool
    ensures { result ≡ last_given m ready }
{
    m & ready & 1 != 0
}

// Whose turn it is in the content of the element at this level, in the reading of this field.
#[tactic(auto, using(element::specs::Element::Laws::place_within, crate::specs::Elements::Laws::ready_first, crate::specs::Elements::Laws::ready_other))]
fn ready_at(kept: &Kept, elements: &Elements, level: usize, field: Field) -> u32
    requires { level ≤ depth_limit }
    ensures { result ≡ ready_at (place field) (kept_in kept.now) (elements_in elements.now).list level }
{
    if level == 0 {
        return plan_bytes::steps(kept, Set::First);
    }
    element::get(elements, level - 1, field)
}

// The same, in the sure reading.
#[tactic(auto, unfolding(engine::specs::Quick::sure_at, crate::specs::Elements::ready_at))]
pub fn sure_at(kept: &Kept, elements: &Elements, level: usize) -> u32
    requires { level ≤ depth_limit }
    ensures { result ≡ sure_at (kept_in kept.now) (elements_in elements.now).list level }
{
    ready_at(kept, elements, level, Field::Sure)
}

// The same, in the open reading.
#[tactic(auto, unfolding(engine::specs::Quick::possible_at, crate::specs::Elements::ready_at))]
pub fn possible_at(kept: &Kept, elements: &Elements, level: usize) -> u32
    requires { level ≤ depth_limit }
    ensures { result ≡ possible_at (kept_in kept.now) (elements_in elements.now).list level }
{
    ready_at(kept, elements, level, Field::Possible)
}

// `first` rises from a new element under `depth` open ones while it is news. Returns how many of them stayed as they were.
#[tactic(auto, using(crate::specs::Elements::Laws::rise_step, crate::specs::Elements::Laws::rise_stop, crate::specs::Elements::Laws::rise_done))]
fn rise(kept: &Kept, elements: &mut Elements, depth: usize, first: u32) -> usize
    requires { depth ≤ depth_limit }
    ensures elements_after { record { top = result; elements = elements_in elements.new }
        ≡ risen_in (kept_in kept.now) first depth (elements_in elements.old) }
    ensures upper_bound { result ≤ depth }
{
    let mut news = first;
    for at in (0..depth).rev() {
        let old = element::get(elements, at, Field::Below);
        let new = old | news;
        if new == old {
            return at + 1;
        }
        let pass = element::get(elements, at, Field::Pass);
        let m = meets(kept, pass, new);
        element::raise(elements, at, new, m);
        news = lift(kept, m, new);
    }
    0
}

// `sure` of the elements from `from` to `to`, each by what is ready around it.
#[tactic(auto, using(crate::specs::Elements::Laws::refresh_step, crate::specs::Elements::Laws::refresh_done, element::specs::Element::Laws::frames_length))]
fn refresh(kept: &Kept, elements: &mut Elements, ready: u32, from: usize, to: usize)
    requires { (from ≤ to) × (to ≤ depth_limit) }
    ensures { elements_in elements.new ≡ refreshed_from (kept_in kept.now) ready from to (elements_in elements.old) }
{
    let mut around = ready;
    for at in from..to {
        let m = element::get(elements, at, Field::Met);
        around = turn(kept, m, around);
        element::refresh(elements, at, around);
    }
}

// A new innermost element named `x`, which passes the name tests of `pass`, under `depth` open ones. Returns how many of them stayed as they were.
#[tactic(auto, unfolding(meaning::specs::Limits::depth_limit))]
pub fn push(kept: &Kept, elements: &mut Elements, x: u32, pass: u32, depth: usize) -> usize
    requires depth_bound { depth < depth_limit }
    requires pass_value { pass ≡ named (kept_in kept.now) x }
    ensures elements_after { record { top = result; elements = elements_in elements.new }
        ≡ pushed_in (kept_in kept.now) x depth (elements_in elements.old) }
    ensures upper_bound { result ≤ depth }
{
    let m = pass & plan_bytes::steps(kept, Set::Plain);
    let possible = turn(kept, pass, possible_at(kept, elements, depth));
    let top = rise(kept, elements, depth, predicates(kept, m));
    let around = sure_at(kept, elements, top);
    element::open(elements, depth, x, pass, m, possible);
    refresh(kept, elements, around, top, depth + 1);
    top
}
