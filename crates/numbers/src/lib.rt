// A session's numbers in lent bytes: 6 numbers.
#![tactic(auto)]

ghost use Rattle.std.specs.Prelude.{◌≡◌, ◌<◌};
ghost use Rattle.words.specs.Records.{put_at};
ghost use Rattle.numbers.specs.Numbers.{shape, place, field_of, record_in, numbers_in, numbers_of, with_stop};

// How many bytes they take.
pub const ROOM: usize = 24;

pub type Numbers = [u8; ROOM];

// The fields, by their places.
#[derive(Clone, Copy)]
pub enum Field {
    // How many elements are open.
    Depth = 0,
    // How many nodes wait.
    Held = 1,
    // How many nodes were opened, and how many handed out.
    Opened = 2,
    Handed = 3,
    // "the document element has been closed": not 0.
    Ended = 4,
    // "the session is stopped": not 0.
    Stopped = 5,
}

impl Field {
    fn place(self) -> usize
        ensures { (result ≡ place self) × (result < 6) }
    {
        self as usize
    }
}

// Kept: `get` and `put` as those of crate element: one function for the three would need the width and the contract of each, and they are a line each.
#[tactic(auto, using(crate::specs::Numbers::Laws::get_is, crate::specs::Numbers::Laws::room_is))]
pub fn get(numbers: &Numbers, field: Field) -> u32
    ensures { result ≡ field_of (place field) (numbers_in numbers.now) }
{
    words::get(numbers, field.place())
}

#[tactic(auto, using(crate::specs::Numbers::Laws::put_is, crate::specs::Numbers::Laws::room_is))]
fn put(numbers: &mut Numbers, field: Field, v: u32)
    ensures { record_in numbers.new ≡ put_at shape 0 (place field) v (record_in numbers.old) }
{
    words::put(numbers, field.place(), v);
}

// What events count. Whether the session is stopped stays as it was.
#[tactic(auto, using(crate::specs::Numbers::Laws::write_parts))]
pub fn write(numbers: &mut Numbers, depth: u32, held: u32, opened: u32, handed: u32, ended: u32)
    ensures { numbers_in numbers.new ≡ numbers_of depth held opened handed ended (numbers_in numbers.old).stopped }
{
    put(numbers, Field::Depth, depth);
    put(numbers, Field::Held, held);
    put(numbers, Field::Opened, opened);
    put(numbers, Field::Handed, handed);
    put(numbers, Field::Ended, ended);
}

// Whether the session is stopped. What events count stays as it was.
#[tactic(auto, using(crate::specs::Numbers::Laws::stop_part))]
pub fn write_stop(numbers: &mut Numbers, stopped: u32)
    ensures { numbers_in numbers.new ≡ with_stop stopped (numbers_in numbers.old) }
{
    put(numbers, Field::Stopped, stopped);
}
