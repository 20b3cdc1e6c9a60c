// The plan of a query: what is kept of it while a stream is read, as one bit for each of the 32 steps; and for the name tests buckets of names.
//
// Each step has a place, which is its bit: first the main path from its last step to its first, then the predicate steps as they come in the
// query. So the step after a main-path step is one place lower, and the last main-path step is at place 0.
// A plan is made of any bytes, of their first 32 steps; that of an admitted query is the plan of what the bytes mean (proofs/Planned/Laws.antt).
#![tactic(auto, unfolding(query::specs::Decode::decode_step, meaning::specs::Query::hangs))]

ghost use Rattle.std.specs.Prelude.{◌≡◌, ◌+◌, ◌≤◌, ◌<◌, get_or, take};
ghost use Rattle.meaning.specs.Query.{hangs, goes_deep};
ghost use Rattle.sets.specs.Set.{mask_of};
ghost use Rattle.sets.specs.Table.{table_of};
ghost use Rattle.query.specs.Rules.{step_bytes, step_of};
ghost use Rattle.plan.specs.Asked.{added_to, bucket, filed};
ghost use Rattle.plan.specs.Planned.{bucket_count, several_steps, step_at, size_of, starts, placed, order_of, padded, PlanGives};

use query::Axis;

// The places: one for each step that a query may have.
const STEPS: usize = query::MOST_STEPS;

// How many buckets the names are put into, by their remainder.
pub const BUCKETS: usize = 64;

// What a bucket says where several steps ask for names of it: no place, as there are at most so many steps.
// Kept: 0 and `SEVERAL` beside the places are what `bucket` (specs/Asked) says, and stand so in the bytes that a session keeps (docs/FORMATS.md).
const SEVERAL: u8 = STEPS as u8;

// Kept: columns, and no array of steps: `columns` in the promise PlanGives has them so, and docs/SCOPE.md wants the sets of steps as masks.
#[derive(Drop)]
pub struct Plan {
    // The name test of the step at each place; 0 past the last step, as in `hung`.
    pub names: [u16; STEPS],
    // The predicate steps that hang on the step at each place.
    pub hung: [u32; STEPS],
    // How many steps there are.
    pub size: usize,
    // The steps on the descendant axis.
    pub deep: u32,
    // The main-path steps.
    pub main: u32,
    // The steps on which no predicate hangs.
    pub plain: u32,
    // The first main-path step.
    pub first: u32,
    // The steps that ask for every name.
    pub stars: u32,
    // For each bucket of names the place of the only step that asks for a name of it; `SEVERAL` for several, 0 for none.
    pub buckets: [u8; BUCKETS],
}

// The plan of a query's bytes.
pub fn plan_of(query: &[u8]) -> Plan
    ensures { PlanGives query.now result }
{
    let size = size_of(query.len() / query::STEP_BYTES);
    let order = order_of(query, size);
    let names = names_of(query, &order, size);
    let hung = hung_of(query, &order, size);
    Plan {
        size,
        deep: sets::collected(size, |place| goes_deep(query, order[place])),
        main: sets::collected(size, |place| is_main(query, order[place])),
        plain: sets::collected(size, |place| hung[place] == 0),
        first: sets::collected(size, |place| is_start(query, order[place])),
        stars: sets::collected(size, |place| names[place] == 0),
        buckets: buckets_of(&names, size),
        names,
        hung,
    }
}

// How many of so many steps are planned: "at most 32 steps"
pub fn size_of(count: usize) -> usize
    ensures { result ≡ size_of count }
{
    count.min(STEPS)
}

// The steps in the order of their places, each as the number of steps before it. They are gone through from the last on: `left` places are free
// between the main-path steps and the predicate steps, a main-path step takes the first of them, and a predicate step the last.
fn order_of(query: &[u8], size: usize) -> [u8; STEPS]
    requires { size ≤ 32 }
    ensures { result ≡ order_of query.now size }
{
    let mut order = [0u8; STEPS];
    let mut mains: usize = 0;
    for left in (0..size).rev() {
        let main = is_main(query, left as u8);
        order[place_for(main, mains, left)] = left as u8;
        mains += main as usize;
    }
    order
}

// The place that a step takes where `mains` main-path steps have theirs and `left` places stay free after it.
fn place_for(main: bool, mains: usize, left: usize) -> usize
    requires { mains + left < 32 }
    ensures { result ≡ placed main mains left }
{
    if main { mains } else { mains + left }
}

fn names_of(query: &[u8], order: &[u8; STEPS], size: usize) -> [u16; STEPS]
    requires { size ≤ 32 }
    ensures { result ≡ padded size (λ t. (step_at query.now (get_or order.now t 0)).name) }
{
    let mut names = [0u16; STEPS];
    for place in 0..size {
        names[place] = name_of(query, order[place]);
    }
    names
}

fn hung_of(query: &[u8], order: &[u8; STEPS], size: usize) -> [u32; STEPS]
    requires { size ≤ 32 }
    ensures { result ≡ padded size (λ t. mask_of size (λ u. hangs (step_at query.now (get_or order.now u 0)) (get_or order.now t 0 + 1))) }
{
    let mut hung = [0u32; STEPS];
    for place in 0..size {
        hung[place] = hung_on(query, order, size, order[place]);
    }
    hung
}

// The places under `size` whose step hangs on step `on`.
fn hung_on(query: &[u8], order: &[u8; STEPS], size: usize, on: u8) -> u32
    requires { size ≤ 32 }
    ensures { result ≡ mask_of size (λ t. hangs (step_at query.now (get_or order.now t 0)) (on + 1)) }
{
    sets::collected(size, |place| hangs_on(query, order[place], on))
}

// The buckets for the first `size` names. The steps are gone through from the last on, so a bucket that says 0 has had no step before step 0 comes.
fn buckets_of(names: &[u16; STEPS], size: usize) -> [u8; BUCKETS]
    requires { size ≤ 32 }
    ensures { result ≡ table_of bucket_count (bucket several_steps bucket_count (take size names.now)) }
{
    let mut buckets = [0u8; BUCKETS];
    for place in (0..size).rev() {
        file(&mut buckets, names[place], place as u8);
    }
    buckets
}

// A step that asks for this name is added to the name's bucket; a star is in none.
#[tactic(auto, unfolding(crate::specs::Asked::filed))]
fn file(buckets: &mut [u8; BUCKETS], name: u16, place: u8)
    ensures { buckets.new ≡ filed several_steps bucket_count place name buckets.old }
{
    if name == 0 {
        return;
    }
    let at = name as usize % BUCKETS;
    buckets[at] = added_to(buckets[at], place);
}

// What a bucket says with one step more before those that it knows.
fn added_to(later: u8, place: u8) -> u8
    ensures { result ≡ added_to several_steps place later }
{
    if later == 0 { place } else { SEVERAL }
}

// A step is told by the number of steps before it; one past the end of the query has 0 in every byte.

fn is_main(query: &[u8], step: u8) -> bool
    ensures { result ≡ (step_at query.now step).main }
{
    byte_of(query, step, 1) == 1
}

// "0 is the document itself"
fn is_start(query: &[u8], step: u8) -> bool
    ensures { result ≡ starts (step_at query.now step) }
{
    is_main(query, step) && byte_of(query, step, 2) == 0
}

#[tactic(auto, unfolding(query::specs::Decode::decode_step, query::specs::Decode::axis_meant, meaning::specs::Query::goes_deep))]
fn goes_deep(query: &[u8], step: u8) -> bool
    ensures { result ≡ goes_deep (step_at query.now step).axis }
{
    let axis = query::axis_named(byte_of(query, step, 0));
    matches!(axis, Some(Axis::Descendant))
}

// "number of the step this one hangs on": numbers start at 1.
fn hangs_on(query: &[u8], step: u8, on: u8) -> bool
    ensures { result ≡ hangs (step_at query.now step) (on + 1) }
{
    !is_main(query, step) && byte_of(query, step, 2) as u16 == on as u16 + 1
}

// "Two-byte numbers have the high byte first."
fn name_of(query: &[u8], step: u8) -> u16
    ensures { result ≡ (step_at query.now step).name }
{
    u16::from_be_bytes([byte_of(query, step, 4), byte_of(query, step, 5)])
}

#[tactic(auto, using(crate::proofs::Bytes::byte_in))]
fn byte_of(query: &[u8], step: u8, at: usize) -> u8
    requires { at < step_bytes }
    ensures { result ≡ get_or (step_of query.now step) at 0 }
{
    let place = step as usize * query::STEP_BYTES + at;
    query.get(place).copied().unwrap_or(0)
}
