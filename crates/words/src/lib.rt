// Lent bytes as numbers of 4 bytes, low byte first. Compiled, a `get` is one load and a `put` one store.
#![tactic(auto)]

ghost use Rattle.std.specs.Prelude.{◌≡◌, ◌+◌, ◌*◌, ◌≤◌, length, get_or, set};
ghost use Rattle.words.specs.Words.{words, Bytes};

// The number at place `at`.
#[tactic(auto, using(crate::specs::Words::Laws::words_at))]
pub fn get(room: &[u8], at: usize) -> u32
    requires { 4 * at + 4 ≤ length room.now }
    ensures { result ≡ get_or (words room.now) at 0 }
{
    let i = 4 * at;
    u32::from_le_bytes([room[i], room[i + 1], room[i + 2], room[i + 3]])
}

// The number at place `at` is `v` from now on.
#[tactic(auto, using(crate::specs::Words::Laws::one_run, crate::specs::Words::Laws::words_put_run))]
pub fn put(room: &mut [u8], at: usize, v: u32)
    requires { 4 * at + 4 ≤ length room.old }
    ensures { words room.new ≡ set (words room.old) at v }
{
    let i = 4 * at;
    room[i..i + 4].copy_from_slice(&v.to_le_bytes());
}

// That what is lent are bytes, for a proof that has an array: of a slice it is known. Compiled, nothing.
pub fn are_bytes(room: &[u8])
    ensures { Bytes room.now }
{}
