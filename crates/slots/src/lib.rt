// The reader's lent room: a slot for each element that may be open, the outermost first, then one for each attribute of a tag. A slot has the name's bytes,
// its length, and for an element the name's number.
#![tactic(auto)]

ghost use Rattle.std.specs.Prelude.{◌≡◌, ◌+◌, ◌≤◌, ◌<◌, length, set, get_or, drop};
ghost use Rattle.slots.specs.Slots.{name_bytes, base_of, length_in, number_in, numbered};
ghost use Rattle.slots.specs.Copied.{copied, agreed, is_name, doubled_in};

// A slot: the bytes of a name, as many as one may have, its length, the two bytes of its number, high byte first, and one that is not used.
pub const SLOT: usize = 68;

pub const LENGTH: usize = limits::NAME_BYTES;

// 256 slots of elements and 16 of attributes.
pub const ATTRIBUTES: usize = 256;

pub const SLOTS: usize = 272;

pub const ROOM: usize = 18496;

// How far a loop went into the text, and how many bytes of a name were read.
#[derive(Clone, Copy)]
pub struct Walk {
    pub at: usize,
    pub n: u8,
}

// Where a slot begins. A slot that is not there counts as the first.
#[tactic(auto, using(choice::specs::Tests::tests), unfolding(crate::specs::Slots::base_of))]
pub fn base(slot: usize) -> usize
    ensures { (result ≡ base_of slot) × (result + 68 ≤ 18_496) }
{
    if slot < SLOTS { slot * SLOT } else { 0 }
}

// Puts byte k of a slot.
pub fn put(room: &mut [u8; ROOM], slot: usize, k: usize, b: u8)
    requires { k < 68 }
    ensures { room.new ≡ set room.old (base_of slot + k) b }
{
    room[base(slot) + k] = b;
}

// The length of the name in a slot; one past the limit, which no calls lead to, counts as the limit.
#[tactic(auto, using(choice::specs::Tests::tests), unfolding(crate::specs::Slots::length_in))]
pub fn length(room: &[u8; ROOM], slot: usize) -> u8
    ensures { (result ≡ length_in room.now slot) × (result ≤ name_bytes) }
{
    room[base(slot) + LENGTH].min(limits::NAME_BYTES as u8)
}

// Byte k of a slot.
pub fn get(room: &[u8; ROOM], slot: usize, k: usize) -> u8
    requires { k < 68 }
    ensures { result ≡ get_or room.now (base_of slot + k) 0 }
{
    room[base(slot) + k]
}

// The number of the name in a slot.
#[tactic(auto, unfolding(crate::specs::Slots::number_in))]
pub fn number(room: &[u8; ROOM], slot: usize) -> u32
    ensures { (result ≡ number_in room.now slot) × (result < 65_536) }
{
    let at = base(slot);
    u16::from_be_bytes([room[at + 65], room[at + 66]]) as u32
}

// Puts it there.
#[tactic(auto, unfolding(crate::specs::Slots::numbered))]
pub fn put_number(room: &mut [u8; ROOM], slot: usize, number: u32)
    requires { number < 65_536 }
    ensures { room.new ≡ numbered room.old slot number }
{
    let [high, low] = (number as u16).to_be_bytes();
    put(room, slot, 65, high);
    put(room, slot, 66, low);
}

// Copies more of a name into a slot, where n bytes of it stand: up to a byte of no name, the limit, or the text's end.
#[tactic(auto, using(crate::proofs::Copied::Laws::copying))]
pub fn copy(
    marks: &[u8; 256],
    text: &[u8],
    from: usize,
    room: &mut [u8; ROOM],
    slot: usize,
    n: u8,
) -> Walk
    requires { from ≤ length text.now }
    ensures { record { at = result.at; n = result.n; room = room.new }
        ≡ copied marks.now room.old slot n from (drop from text.now) }
{
    let to = base(slot);
    let mut k = n;
    for at in from..text.len() {
        let b = text[at];
        if !chars::has(marks, b, chars::NAME_CHAR) || limits::NAME_BYTES as u8 <= k {
            return Walk { at, n: k };
        }
        room[to + k as usize] = b;
        k += 1;
    }
    Walk {
        at: text.len(),
        n: k,
    }
}

// Goes on with the name in a slot, of which n bytes were read: up to a byte that differs, its end, or the text's end.
#[tactic(auto, using(crate::proofs::Copied::Laws::agreeing))]
pub fn agree(text: &[u8], from: usize, room: &[u8; ROOM], slot: usize, n: u8) -> Walk
    requires { from ≤ length text.now }
    ensures { record { at = result.at; n = result.n } ≡ agreed room.now slot n from (drop from text.now) }
{
    let to = base(slot);
    let end = length(room, slot);
    let mut k = n;
    for at in from..text.len() {
        if end <= k || text[at] != room[to + k as usize] {
            return Walk { at, n: k };
        }
        k += 1;
    }
    Walk {
        at: text.len(),
        n: k,
    }
}

// Whether the name in a slot has n bytes, those that stand from `at` on.
#[tactic(auto, using(choice::specs::Tests::tests), unfolding(crate::specs::Copied::is_name))]
fn is_name(room: &[u8; ROOM], slot: usize, at: usize, n: u8) -> bool
    requires { (n ≤ name_bytes) × (at + 68 ≤ 18_496) }
    ensures { result ≡ is_name room.now slot at n }
{
    let other = base(slot);
    room[other + LENGTH] == n && chars::same(room, other, room, at, n as usize)
}

// Whether one of the first `count` attributes has the name of n bytes that stands in the slot after them.
#[tactic(auto, using(crate::proofs::Copied::Laws::doubling))]
pub fn doubled(room: &[u8; ROOM], count: u8, n: u8) -> bool
    requires { n ≤ name_bytes }
    ensures { result ≡ doubled_in room.now count n }
{
    let at = base(ATTRIBUTES + count as usize);
    for k in 0..count as usize {
        if is_name(room, ATTRIBUTES + k, at, n) {
            return true;
        }
    }
    false
}
