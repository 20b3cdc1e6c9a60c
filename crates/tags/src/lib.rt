// One byte of a tag: the reader after it, and what stands in its room then.
#![tactic(auto)]

ghost use Rattle.std.specs.Prelude.{◌≡◌};
ghost use Rattle.tags.specs.Markup.{begun, slashed_tick, markup_tick, first_tick};
ghost use Rattle.tags.specs.Tag.{name_byte, tag_end, tag_tick, tagged_tick, att_begun, gap_tick};
ghost use Rattle.tags.specs.Tag.{named_tick, att_tick, equals_tick, value_tick, att_ended, quoted_tick};

use chars::{BLANK, NAME_CHAR};
use limits::TextRefusal;
use modes::{AFTER, Gives, Mode, Prolog, Reader};

// An element begins.
#[tactic(auto, using(choice::specs::Tests::tests, meaning::proofs::Limits::Laws::depth_is), unfolding(crate::specs::Markup::begun))]
fn begin(r: Reader, b: u8, room: &mut [u8; slots::ROOM]) -> Reader
    ensures { record { reader = result; room = room.new } ≡ begun r b room.old }
{
    if r.place == AFTER {
        return r.refuse(TextRefusal::Misplaced);
    }
    if limits::DEPTH <= r.place as usize {
        return r.refuse(TextRefusal::Nested);
    }
    slots::put(room, r.place as usize, 0, b);
    r.spell(Mode::Tag, 0, 1)
}

// An end tag begins.
#[tactic(auto, using(choice::specs::Tests::tests, meaning::proofs::Limits::Laws::depth_is), unfolding(crate::specs::Markup::slashed_tick))]
fn slashed(r: Reader) -> Reader
    ensures { result ≡ slashed_tick r }
{
    if r.place == 0 || limits::DEPTH < r.place as usize {
        return r.refuse(TextRefusal::Misplaced);
    }
    r.go(Mode::End)
}

// A byte after '<'.
#[tactic(auto, using(choice::specs::Tests::tests), unfolding(crate::specs::Markup::markup_tick))]
pub fn markup(marks: &[u8; 256], r: Reader, b: u8, room: &mut [u8; slots::ROOM]) -> Reader
    ensures { record { reader = result; room = room.new } ≡ markup_tick marks.now r b room.old }
{
    if chars::has(marks, b, chars::NAME_START) {
        return begin(r, b, room);
    }
    match b {
        b'!' => r.spell(Mode::Bang, 0, 2),
        b'/' => slashed(r),
        b'?' => r.refuse(TextRefusal::Instruction),
        128.. if r.place != AFTER => r.refuse(TextRefusal::ForeignName),
        _ => r.refuse(TextRefusal::Misplaced),
    }
}

// The same at the very start of the text.
#[tactic(auto, using(choice::specs::Tests::tests), unfolding(crate::specs::Markup::first_tick))]
pub fn first(marks: &[u8; 256], r: Reader, b: u8, room: &mut [u8; slots::ROOM]) -> Reader
    ensures { record { reader = result; room = room.new } ≡ first_tick marks.now r b room.old }
{
    if b == b'?' {
        return r.spell(Mode::Prolog(Prolog::Xml), 0, 2);
    }
    markup(marks, r, b, room)
}

// One byte more of a name, into its slot.
#[tactic(auto, using(choice::specs::Tests::tests, xml::proofs::Bounds::Laws::name_limit_is), unfolding(crate::specs::Tag::name_byte))]
fn name_byte(r: Reader, b: u8, room: &mut [u8; slots::ROOM], slot: usize, mode: Mode) -> Reader
    ensures { record { reader = result; room = room.new } ≡ name_byte r b room.old slot mode }
{
    let n = r.n as usize;
    if limits::NAME_BYTES <= n {
        return r.refuse(TextRefusal::LongName);
    }
    slots::put(room, slot, n, b);
    r.spell(mode, r.row, r.n + 1)
}

// The end of a start tag, or the '/' of an empty one.
#[tactic(auto, using(choice::specs::Tests::tests, meaning::proofs::Limits::Laws::depth_is), unfolding(crate::specs::Tag::tag_end))]
fn tag_end(r: Reader, b: u8) -> Reader
    ensures { result ≡ tag_end r b }
{
    match b {
        b'/' => r.go(Mode::Slash),
        b'>' if (r.place as usize) < limits::DEPTH => r.give(Gives::Open, Mode::Data, r.place + 1),
        _ => r.refuse(TextRefusal::Misplaced),
    }
}

// A byte after the first of a tag's name.
#[tactic(auto, using(choice::specs::Tests::tests), unfolding(crate::specs::Tag::tag_tick))]
pub fn tag(marks: &[u8; 256], r: Reader, b: u8, room: &mut [u8; slots::ROOM]) -> Reader
    ensures { record { reader = result; room = room.new } ≡ tag_tick marks.now r b room.old }
{
    let slot = r.place as usize;
    if chars::has(marks, b, NAME_CHAR) {
        return name_byte(r, b, room, slot, Mode::Tag);
    }
    if chars::has(marks, b, BLANK) {
        slots::put(room, slot, slots::LENGTH, r.n);
        return r.counted(Mode::Gap, 0);
    }
    match b {
        b'>' | b'/' => {
            slots::put(room, slot, slots::LENGTH, r.n);
            tag_end(r, b)
        }
        128.. => r.refuse(TextRefusal::ForeignName),
        _ => r.refuse(TextRefusal::Misplaced),
    }
}

// A byte after a tag's last attribute.
#[tactic(auto, using(choice::specs::Tests::tests), unfolding(crate::specs::Tag::tagged_tick))]
pub fn tagged(marks: &[u8; 256], r: Reader, b: u8) -> Reader
    ensures { result ≡ tagged_tick marks.now r b }
{
    if chars::has(marks, b, BLANK) {
        return r.stay(Mode::Gap);
    }
    tag_end(r, b)
}

// The first byte of an attribute's name.
#[tactic(auto, using(choice::specs::Tests::tests, xml::proofs::Bounds::Laws::attribute_limit_is), unfolding(crate::specs::Tag::att_begun))]
fn attribute_begins(r: Reader, b: u8, room: &mut [u8; slots::ROOM]) -> Reader
    ensures { record { reader = result; room = room.new } ≡ att_begun r b room.old }
{
    let count = r.count as usize;
    if limits::ATTRIBUTES <= count {
        return r.refuse(TextRefusal::ManyAttributes);
    }
    slots::put(room, slots::ATTRIBUTES + count, 0, b);
    r.spell(Mode::Att, 0, 1)
}

// A byte after a blank in a tag.
#[tactic(auto, using(choice::specs::Tests::tests), unfolding(crate::specs::Tag::gap_tick))]
pub fn gap(marks: &[u8; 256], r: Reader, b: u8, room: &mut [u8; slots::ROOM]) -> Reader
    ensures { record { reader = result; room = room.new } ≡ gap_tick marks.now r b room.old }
{
    if chars::has(marks, b, chars::NAME_START) {
        return attribute_begins(r, b, room);
    }
    if chars::has(marks, b, BLANK) {
        return r.stay(Mode::Gap);
    }
    if 128 <= b {
        return r.refuse(TextRefusal::ForeignName);
    }
    tag_end(r, b)
}

// An attribute's name is whole.
#[tactic(auto, using(choice::specs::Tests::tests), unfolding(crate::specs::Tag::named_tick))]
fn named(r: Reader, room: &mut [u8; slots::ROOM], mode: Mode) -> Reader
    ensures { record { reader = result; room = room.new } ≡ named_tick r room.old mode }
{
    if (limits::NAME_BYTES as u8) < r.n {
        return r.refuse(TextRefusal::Misplaced);
    }
    if slots::doubled(&*room, r.count, r.n) {
        return r.refuse(TextRefusal::Twice);
    }
    slots::put(
        room,
        slots::ATTRIBUTES + r.count as usize,
        slots::LENGTH,
        r.n,
    );
    r.go(mode)
}

// A byte after the first of an attribute's name.
#[tactic(auto, using(choice::specs::Tests::tests), unfolding(crate::specs::Tag::att_tick))]
pub fn attribute(marks: &[u8; 256], r: Reader, b: u8, room: &mut [u8; slots::ROOM]) -> Reader
    ensures { record { reader = result; room = room.new } ≡ att_tick marks.now r b room.old }
{
    let slot = slots::ATTRIBUTES + r.count as usize;
    if chars::has(marks, b, NAME_CHAR) {
        return name_byte(r, b, room, slot, Mode::Att);
    }
    if chars::has(marks, b, BLANK) {
        return named(r, room, Mode::Equals);
    }
    match b {
        b'=' => named(r, room, Mode::Value),
        128.. => r.refuse(TextRefusal::ForeignName),
        _ => r.refuse(TextRefusal::Misplaced),
    }
}

// A byte between an attribute's name and its '='.
#[tactic(auto, using(choice::specs::Tests::tests), unfolding(crate::specs::Tag::equals_tick))]
pub fn equals(marks: &[u8; 256], r: Reader, b: u8) -> Reader
    ensures { result ≡ equals_tick marks.now r b }
{
    // Kept: no helper with `value`, where two bytes may follow: it would be no plainer (d).
    if chars::has(marks, b, BLANK) {
        return r.stay(Mode::Equals);
    }
    if b == b'=' {
        return r.go(Mode::Value);
    }
    r.refuse(TextRefusal::Misplaced)
}

// A byte between its '=' and its value.
#[tactic(auto, using(choice::specs::Tests::tests), unfolding(crate::specs::Tag::value_tick))]
pub fn value(marks: &[u8; 256], r: Reader, b: u8) -> Reader
    ensures { result ≡ value_tick marks.now r b }
{
    if chars::has(marks, b, BLANK) {
        return r.stay(Mode::Value);
    }
    match b {
        b'"' => r.go(Mode::Double),
        b'\'' => r.go(Mode::Single),
        _ => r.refuse(TextRefusal::Misplaced),
    }
}

// The closing quote of a value.
#[tactic(auto, using(choice::specs::Tests::tests, xml::proofs::Bounds::Laws::attribute_limit_is), unfolding(crate::specs::Tag::att_ended))]
fn attribute_ends(r: Reader) -> Reader
    ensures { result ≡ att_ended r }
{
    if limits::ATTRIBUTES <= r.count as usize {
        return r.refuse(TextRefusal::Misplaced);
    }
    r.counted(Mode::Tagged, r.count + 1)
}

// A byte of a value in quotes, in which the bytes with the mark stay.
#[tactic(auto, using(choice::specs::Tests::tests), unfolding(crate::specs::Tag::quoted_tick))]
pub fn quoted(marks: &[u8; 256], r: Reader, b: u8, mark: u8, quote: u8) -> Reader
    ensures { result ≡ quoted_tick marks.now r b mark quote }
{
    if chars::has(marks, b, mark) {
        return r.stay(r.mode);
    }
    if b == quote {
        return attribute_ends(r);
    }
    match b {
        b'&' => r.aside(Mode::Amper, 0, r.mode),
        b'<' => r.refuse(TextRefusal::Misplaced),
        _ => content::wide(r, b, r.mode),
    }
}
