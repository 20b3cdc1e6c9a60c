// The open elements in lent bytes: a record of 64 bytes for each, 16 numbers. The first 6 are its fields; the others are spare, and stay as they are.
#![tactic(auto)]

ghost use Rattle.std.specs.Prelude.{◌≡◌, ◌<◌};
ghost use Rattle.meaning.specs.Limits.{depth_limit};
ghost use Rattle.words.specs.Records.{put_at};
ghost use Rattle.element.specs.Element.{shape, place, field_of, frame_at, elements_in, raised_in, refreshed_in, opened_in};

// The room for the open elements.
pub type Elements = [u8; limits::ELEMENTS_ROOM];

// The fields, by their places in the record.
#[derive(Clone, Copy)]
pub enum Field {
    // Its name.
    Name = 0,
    // The steps whose name test it passes.
    Pass = 1,
    // The predicate steps met in its content so far.
    Below = 2,
    // The steps that it surely meets.
    Met = 3,
    // Whose turn it is in its content, in the sure reading and in the open reading.
    Sure = 4,
    Possible = 5,
}

impl Field {
    fn place(self) -> usize
        ensures { (result ≡ place self) × (result < 6) }
    {
        self as usize
    }
}

// A field of record `i`.
#[tactic(auto, using(crate::specs::Element::Laws::get_is, meaning::proofs::Limits::Laws::elements_is), unfolding(meaning::specs::Limits::depth_limit))]
pub fn get(elements: &Elements, i: usize, field: Field) -> u32
    requires { i < depth_limit }
    ensures { result ≡ field_of (place field) (frame_at (elements_in elements.now) i) }
{
    words::get(elements, 16 * i + field.place())
}

// A field of record `i` is `v` from now on.
#[tactic(auto, using(crate::specs::Element::Laws::put_is, meaning::proofs::Limits::Laws::elements_is), unfolding(meaning::specs::Limits::depth_limit))]
fn put(elements: &mut Elements, i: usize, field: Field, v: u32)
    requires { i < depth_limit }
    ensures { elements_in elements.new ≡ put_at shape i (place field) v (elements_in elements.old) }
{
    words::put(elements, 16 * i + field.place(), v);
}

// More is met in the content of element `i`, and with it the element meets more.
#[tactic(auto, using(crate::specs::Element::Laws::raise_parts))]
pub fn raise(elements: &mut Elements, i: usize, below: u32, met: u32)
    requires { i < depth_limit }
    ensures { elements_in elements.new ≡ raised_in i below met (elements_in elements.old) }
{
    put(elements, i, Field::Below, below);
    put(elements, i, Field::Met, met);
}

// Whose turn it is in the content of element `i`, in the sure reading.
#[tactic(auto, using(crate::specs::Element::Laws::refresh_part))]
pub fn refresh(elements: &mut Elements, i: usize, sure: u32)
    requires { i < depth_limit }
    ensures { elements_in elements.new ≡ refreshed_in i sure (elements_in elements.old) }
{
    put(elements, i, Field::Sure, sure);
}

// Element `i` is a new one, with nothing in its content.
#[tactic(auto, using(crate::specs::Element::Laws::open_parts))]
pub fn open(elements: &mut Elements, i: usize, name: u32, pass: u32, met: u32, possible: u32)
    requires { i < depth_limit }
    ensures { elements_in elements.new ≡ opened_in i name pass met possible (elements_in elements.old) }
{
    put(elements, i, Field::Name, name);
    put(elements, i, Field::Pass, pass);
    raise(elements, i, 0, met);
    put(elements, i, Field::Sure, 0);
    put(elements, i, Field::Possible, possible);
}
