// What a session keeps of its query, in lent bytes: 72 numbers. 0 is how many steps there are, 1 to 5 are sets of steps, 6 and 7 are spare, 8 to 23 the
// names that the steps ask for, 2 bytes each, 24 to 39 the buckets, a byte each, 40 to 71 the predicate steps that hang on each step.
//
// An element's name is compared with the step that its bucket says, and with all steps only where the bucket says that several ask for names of it or where
// there are few steps. In any bytes a step has the test by which it is found so: a step that is no star and that its own name does not find has a test that
// no name passes.
#![tactic(auto, using(crate::specs::Kept::Laws::room_is, crate::specs::Kept::Laws::kept_size))]

ghost use Rattle.std.specs.Prelude.{ℕ, ◌≡◌, ◌+◌, ◌*◌, ◌%◌, ◌≤◌, ◌<◌, length, get_or, true};
ghost use Rattle.sets.specs.Set.{member, mask_of};
ghost use Rattle.plan.specs.Planned.{bucket_count};
ghost use Rattle.words.specs.Words.{words, bytes_of};
ghost use Rattle.plan_bytes.specs.Kept.{plan_room, asking_in, bucket_in, kept_in, set_place, set_of, RowsOfCalls, packed_over, packed};

use plan::Plan;

// How many bytes it takes.
pub const ROOM: usize = 288;

pub type Kept = [u8; ROOM];

// The sets of steps that are asked for, by their places.
#[derive(Clone, Copy)]
pub enum Set {
    // The steps on the descendant axis.
    Deep = 1,
    // The main-path steps.
    Main = 2,
    // The steps on which no predicate hangs.
    Plain = 3,
    // The first main-path step.
    First = 4,
}

impl Set {
    fn place(self) -> usize
        ensures { (result ≡ set_place self) × (result < 5) }
    {
        self as usize
    }
}

// The steps that ask for every name.
const STARS: usize = 5;

// Of fewer steps a name is compared with all: for 1 step that is faster than to look into a bucket, and for 3 it is as fast.
pub const FEW: usize = 4;

// A set of steps.
pub fn steps(kept: &Kept, which: Set) -> u32
    ensures { result ≡ set_of which (kept_in kept.now) }
{
    words::get(kept, which.place())
}

// How many steps there are: "at most 32 steps", whatever the bytes say.
pub fn size(kept: &Kept) -> usize
    ensures { (result ≡ length (kept_in kept.now).tests) × (result ≤ 32) }
{
    plan::size_of(words::get(kept, 0) as usize)
}

// The steps that ask for every name, of all `size` steps.
pub fn stars(kept: &Kept, size: usize) -> u32
    requires { size ≡ length (kept_in kept.now).tests }
    ensures { result ≡ mask_of (asking_in kept.now).size (member (asking_in kept.now).stars) }
{
    words::get(kept, STARS) & all_of(size)
}

// The first `size` steps.
fn all_of(size: usize) -> u32
    requires { size ≤ 32 }
    ensures { result ≡ mask_of size (λ t. true) }
{
    ((1u64 << size) - 1) as u32
}

// The name that a step asks for, if it does not ask for every name.
pub fn name(kept: &Kept, place: usize) -> u32
    requires { place < 32 }
    ensures { result ≡ (asking_in kept.now).name place }
{
    let at = 32 + 2 * place;
    u16::from_le_bytes([kept[at], kept[at + 1]]) as u32
}

// What the bucket of a name says.
pub fn said(kept: &Kept, x: u32) -> usize
    ensures { result ≡ bucket_in kept.now (x % bucket_count) }
{
    kept[96 + x as usize % plan::BUCKETS] as usize
}

// The predicate steps that hang on a step.
pub fn hung(kept: &Kept, place: usize) -> u32
    requires { place < length (kept_in kept.now).tests }
    ensures { result ≡ get_or (kept_in kept.now).hung place 0 }
{
    words::get(kept, 40 + place)
}

// Two numbers of 2 bytes as one of 4.
fn pair(low: u16, high: u16) -> u32
    ensures { result ≡ low + 65536 * high }
{
    low as u32 + 65536 * (high as u32)
}

// Writes `count` numbers from place `at` on.
fn put_all<F: Fn(usize) -> u32>(bytes: &mut [u8], at: usize, count: usize, number: F)
    requires room { 4 * (at + count) ≤ length bytes.old }
    requires callable { (i : ℕ) → i < count → F.pre number i }
    ensures { RowsOfCalls (F.post number) at count (words bytes.old) (words bytes.new) }
{
    for i in 0..count {
        words::put(bytes, at + i, number(i));
    }
}

fn lay(plan: &Plan, bytes: &mut [u8])
    requires { length bytes.old ≡ plan_room }
    ensures { bytes.new ≡ bytes_of (packed_over plan.now (words bytes.old)) }
{
    let (names, hung, buckets) = (&plan.names, &plan.hung, &plan.buckets);
    let size = plan::size_of(plan.size) as u32;
    // The size, the places of `Set`, and STARS.
    let sets = [
        size, plan.deep, plan.main, plan.plain, plan.first, plan.stars,
    ];
    put_all(bytes, 0, 6, |i| sets[i]);
    put_all(bytes, 8, 16, |i| pair(names[2 * i], names[2 * i + 1]));
    put_all(bytes, 24, 16, |i| {
        let at = 4 * i;
        u32::from_le_bytes([
            buckets[at],
            buckets[at + 1],
            buckets[at + 2],
            buckets[at + 3],
        ])
    });
    put_all(bytes, 40, 32, |i| hung[i]);
}

// A plan in bytes.
pub fn pack(plan: Plan) -> [u8; ROOM]
    ensures { result ≡ bytes_of (packed plan) }
{
    let mut bytes = [0u8; ROOM];
    lay(&plan, &mut bytes);
    bytes
}
