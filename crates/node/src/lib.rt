// The waiting nodes in lent bytes: a record of 32 bytes for each, 8 numbers. The first 3 are its fields; the others are spare, and stay as they are.
#![tactic(auto)]

ghost use Rattle.std.specs.Prelude.{◌≡◌, ◌<◌};
ghost use Rattle.meaning.specs.Limits.{held_limit};
ghost use Rattle.words.specs.Records.{put_at};
ghost use Rattle.node.specs.Node.{shape, place, field_of, node_at, queue_in, wrote_in};

// The room for the waiting nodes.
pub type Nodes = [u8; limits::NODES_ROOM];

// The fields, by their places in the record.
#[derive(Clone, Copy)]
pub enum Field {
    // Its number.
    Node = 0,
    // The level where it waits: the depth of its deepest open ancestor or self.
    Level = 1,
    // The steps of which it needs one to be ready there; 0 where it is itself the open element of its level.
    Need = 2,
}

impl Field {
    fn place(self) -> usize
        ensures { (result ≡ place self) × (result < 3) }
    {
        self as usize
    }
}

// Kept: `get` and `put` as those of crate element: one function for the three would need the width and the contract of each, and they are a line each.
// A field of record `i`.
#[tactic(auto, using(crate::specs::Node::Laws::get_is, meaning::proofs::Limits::Laws::nodes_is), unfolding(meaning::specs::Limits::held_limit))]
pub fn get(nodes: &Nodes, i: usize, field: Field) -> u32
    requires { i < held_limit }
    ensures { result ≡ field_of (place field) (node_at (queue_in nodes.now) i) }
{
    words::get(nodes, 8 * i + field.place())
}

// A field of record `i` is `v` from now on.
#[tactic(auto, using(crate::specs::Node::Laws::put_is, meaning::proofs::Limits::Laws::nodes_is), unfolding(meaning::specs::Limits::held_limit))]
fn put(nodes: &mut Nodes, i: usize, field: Field, v: u32)
    requires { i < held_limit }
    ensures { queue_in nodes.new ≡ put_at shape i (place field) v (queue_in nodes.old) }
{
    words::put(nodes, 8 * i + field.place(), v);
}

// Record `i` is this node from now on.
#[tactic(auto, using(crate::specs::Node::Laws::write_parts))]
pub fn write(nodes: &mut Nodes, i: usize, node: u32, level: u32, need: u32)
    requires { i < held_limit }
    ensures { queue_in nodes.new ≡ wrote_in i node level need (queue_in nodes.old) }
{
    put(nodes, i, Field::Node, node);
    put(nodes, i, Field::Level, level);
    put(nodes, i, Field::Need, need);
}
