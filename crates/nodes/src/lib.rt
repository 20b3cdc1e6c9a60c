// The waiting nodes in document order, in lent bytes (crate node): what is certain goes out, what is ruled out leaves, the new one joins.
#![tactic(auto)]

ghost use Rattle.std.specs.Prelude.{◌≡◌, true, false, ◌+◌, ◌*◌, ◌≤◌, ◌<◌, eqb, length, take};
ghost use Rattle.meaning.specs.Limits.{depth_limit, held_limit};
ghost use Rattle.records.specs.Write.{buffer};
ghost use Rattle.plan.specs.Plan.{up};
ghost use Rattle.engine.specs.Quick.{certain_if, certain, counted, went_if, cut};
ghost use Rattle.element.specs.Element.{elements_in};
ghost use Rattle.node.specs.Node.{queue_in};
ghost use Rattle.plan_bytes.specs.Kept.{kept_in};
ghost use Rattle.nodes.specs.Nodes.{level_of, numbers, kept_if, moved_from, shifted, handed_out, joined};

use element::Elements;
use node::Nodes;
use plan_bytes::{Kept, Set};

// Which nodes go at an open: the first `went` that wait; `all` of them and the new node; and whether the new node waits if not.
#[derive(Clone, Copy)]
pub struct Going {
    pub went: usize,
    pub all: bool,
    pub joins: bool,
}

// What a waiting node needs one level up, out of an element that meets `m`.
fn up(kept: &Kept, m: u32, need: u32) -> u32
    ensures { result ≡ up (kept_in kept.now) m need }
{
    if need == 0 {
        return m & 1;
    }
    let main = plan_bytes::steps(kept, Set::Main);
    let deep = plan_bytes::steps(kept, Set::Deep);
    ((need << 1) & m & main) | (need & deep)
}

// Whether a node that waits with this need at this level, of the first `depth` elements, is certain.
#[tactic(auto, using(crate::specs::Nodes::Laws::certain_cases))]
fn certain(kept: &Kept, elements: &Elements, depth: usize, level: u32, need: u32) -> bool
    requires { depth ≤ depth_limit }
    ensures { result ≡ certain_if (eqb need 0) (kept_in kept.now) (take depth (elements_in elements.now).list) level need }
{
    let at = level as usize;
    if depth < at {
        return false;
    }
    if need != 0 {
        return need & elements::sure_at(kept, elements, at) != 0;
    }
    if at == 0 {
        return false;
    }
    let met = element::get(elements, at - 1, element::Field::Met);
    elements::last_given(met, elements::sure_at(kept, elements, at - 1))
}

// How many nodes at the front are certain.
#[tactic(auto, using(crate::specs::Nodes::Laws::front_step, crate::specs::Nodes::Laws::front_stop, crate::specs::Nodes::Laws::front_done))]
fn front(kept: &Kept, elements: &Elements, depth: usize, nodes: &Nodes, held: usize) -> usize
    requires depth_bound { depth ≤ depth_limit }
    requires held_bound { held ≤ held_limit }
    ensures value { result ≡ counted (certain (kept_in kept.now) (take depth (elements_in elements.now).list))
        (take held (queue_in nodes.now).list) }
    ensures upper_bound { result ≤ held }
{
    for i in 0..held {
        let level = node::get(nodes, i, node::Field::Level);
        let need = node::get(nodes, i, node::Field::Need);
        if !certain(kept, elements, depth, level, need) {
            return i;
        }
    }
    held
}

// The same, looked for only where something was decided.
#[tactic(auto, using(crate::specs::Nodes::Laws::went_yes, crate::specs::Nodes::Laws::went_no))]
pub fn front_if(
    look: bool,
    kept: &Kept,
    elements: &Elements,
    depth: usize,
    nodes: &Nodes,
    held: usize,
) -> usize
    requires depth_bound { depth ≤ depth_limit }
    requires held_bound { held ≤ held_limit }
    ensures value { result ≡ went_if look (kept_in kept.now) (take depth (elements_in elements.now).list)
        (take held (queue_in nodes.now).list) }
    ensures upper_bound { result ≤ held }
{
    if look {
        return front(kept, elements, depth, nodes, held);
    }
    0
}

// Where the nodes that wait at this level begin: they are the last ones.
#[tactic(auto, using(crate::specs::Nodes::Laws::suffix_step, crate::specs::Nodes::Laws::suffix_stop, crate::specs::Nodes::Laws::suffix_done))]
pub fn suffix(nodes: &Nodes, held: usize, level: u32) -> usize
    requires { held ≤ held_limit }
    ensures value { result ≡ length (cut level_of level (take held (queue_in nodes.now).list)).before }
    ensures upper_bound { result ≤ held }
{
    for i in (0..held).rev() {
        if node::get(nodes, i, node::Field::Level) != level {
            return i + 1;
        }
    }
    0
}

// Record `end` is this node where it stays. Returns where the next one goes.
#[tactic(auto, using(crate::specs::Nodes::Laws::keep_yes, crate::specs::Nodes::Laws::keep_no), unfolding(meaning::specs::Limits::held_limit))]
fn keep_if(stays: bool, nodes: &mut Nodes, end: usize, node: u32, level: u32, need: u32) -> usize
    requires { end < held_limit }
    ensures { record { held = result; queue = queue_in nodes.new } ≡ kept_if stays end node level need (queue_in nodes.old) }
{
    if stays {
        node::write(nodes, end, node, level, need);
        return end + 1;
    }
    end
}

// The nodes of `from` to `held` move up to level `to`, out of an element that meets `m`; those that nothing of `ready` can serve leave.
// Returns how many nodes wait.
#[tactic(auto, using(crate::specs::Nodes::Laws::move_done))]
pub fn move_up(
    kept: &Kept,
    m: u32,
    ready: u32,
    to: u32,
    nodes: &mut Nodes,
    from: usize,
    held: usize,
) -> usize
    requires { (from ≤ held) × (held ≤ held_limit) }
    ensures nodes_after { record { held = result; queue = queue_in nodes.new }
        ≡ moved_from (kept_in kept.now) m ready to held from from (queue_in nodes.old) }
    ensures upper_bound { result ≤ held }
{
    let mut end = from;
    for i in from..held {
        let x = node::get(nodes, i, node::Field::Node);
        let need = up(kept, m, node::get(nodes, i, node::Field::Need));
        end = keep_if(need & ready != 0, nodes, end, x, to, need);
    }
    end
}

// The nodes of `k` to `held` move to the front.
#[tactic(auto, using(crate::specs::Nodes::Laws::shift_step, crate::specs::Nodes::Laws::shift_done))]
fn shift(nodes: &mut Nodes, k: usize, held: usize)
    requires { (k ≤ held) × (held ≤ held_limit) }
    ensures { queue_in nodes.new ≡ shifted k held 0 (queue_in nodes.old) }
{
    // Kept: not `copy_within`, which would move the spare numbers of the records too: by `shifted` they stay where they are.
    for i in 0..held - k {
        let x = node::get(nodes, i + k, node::Field::Node);
        let level = node::get(nodes, i + k, node::Field::Level);
        let need = node::get(nodes, i + k, node::Field::Need);
        node::write(nodes, i, x, level, need);
    }
}

// The first `k` nodes as list records, from the start of the buffer.
#[tactic(auto, using(crate::specs::Nodes::Laws::write_none, crate::specs::Nodes::Laws::write_step, crate::specs::Nodes::Laws::write_done))]
fn write_front(nodes: &Nodes, k: usize, out: &mut [u8])
    requires { (k ≤ held_limit) × (4 * k ≤ length out.old) }
    ensures { out.new ≡ buffer (numbers (take k (queue_in nodes.now).list)) out.old }
{
    for i in 0..k {
        records::put_node(out, 4 * i, node::get(nodes, i, node::Field::Node));
    }
}

// Hands out the first `k` of `held` nodes.
#[tactic(auto, using(crate::specs::Nodes::Laws::hand_none, crate::specs::Nodes::Laws::hand_parts))]
pub fn hand_out(k: usize, held: usize, nodes: &mut Nodes, out: &mut [u8])
    requires { (k ≤ held) × (held ≤ held_limit) × (4 * held ≤ length out.old) }
    ensures { record { queue = queue_in nodes.new; out = out.new }
        ≡ handed_out k held (queue_in nodes.old) out.old }
{
    if k == 0 {
        return;
    }
    write_front(nodes, k, out);
    shift(nodes, k, held);
}

// Hands out the nodes that go, and the new node where it goes with all of them; else the new node joins or is ruled out. Returns how many wait.
#[tactic(auto, using(crate::specs::Nodes::Laws::join_dead))]
pub fn join(
    go: Going,
    held: usize,
    number: u32,
    level: u32,
    nodes: &mut Nodes,
    out: &mut [u8],
) -> usize
    requires room { (go.went ≤ held) × (held ≤ held_limit) × (4 * held + 4 ≤ length out.old) }
    requires held_bound { go.all ≡ false → go.joins ≡ true → held < held_limit + go.went }
    ensures out_after { record { held = result; queue = queue_in nodes.new; out = out.new }
        ≡ joined go held number level (queue_in nodes.old) out.old }
    ensures upper_bound { result ≤ held_limit }
{
    let Going { went, all, joins } = go;
    if all {
        write_front(nodes, went, out);
        records::put_node(out, 4 * went, number);
        return 0;
    }
    hand_out(went, held, nodes, out);
    let rest = held - went;
    if joins {
        node::write(nodes, rest, number, level, 0);
        return rest + 1;
    }
    rest
}
