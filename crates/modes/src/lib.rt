// Where the reader stands in a text, in small numbers, and its moves from there.
#![tactic(auto)]

ghost use Rattle.std.specs.Prelude.{◌≡◌};
ghost use Rattle.modes.specs.Moves.{go_to, stay_in, stop_with, refuse_with, spell_on, go_aside, give_out, count_to};

use limits::TextRefusal;

// What was read last in the prolog, but for markup. Beside each, what may come next.
#[derive(Clone, Copy, PartialEq, Eq)]
pub enum Prolog {
    // At the start: a byte order mark, a blank or '<'.
    Start,
    // In the byte order mark: its next byte, of which n were read.
    Mark,
    // After it: a blank or '<'.
    Fresh,
    // "<?xml", of which n bytes were read.
    Xml,
    // "<?xml": a blank.
    Declared,
    // A blank in the declaration, after its part `count`: blanks, another part, or '?'.
    Piece,
    // The name of part `row`, of which n bytes were read; its name; its '='.
    Part,
    PartEquals,
    PartValue,
    // The value of part `row` in double quotes, or in single ones: n bytes of it were read.
    PartDouble,
    PartSingle,
    // The declaration's part `count`: a blank, or '?'.
    Told,
    // Its '?': '>'.
    Query,
}

// What was read last.
#[derive(Clone, Copy, PartialEq, Eq)]
pub enum Mode {
    Prolog(Prolog),
    // '<' at the very start: '?' of the XML declaration, or any markup.
    First,
    // Around the document element: blanks and '<'.
    Around,
    // Character data; with one ']' at its end; with two or more.
    Data,
    Bracket,
    Brackets,
    // '<' of any markup.
    Markup,
    // "<!--", of which n bytes were read.
    Bang,
    // A comment's characters; with a '-' at their end; with "--" at their end.
    Note,
    Dash,
    Dashes,
    // '&' and n bytes of the entity `row`; then back.
    Amper,
    // The first bytes of a character of several bytes, of which form n is left; then back.
    Char,
    // n bytes of a tag's name.
    Tag,
    // A tag as far as its attributes, of which there are `count`; a blank after that.
    Tagged,
    Gap,
    // n bytes of an attribute's name; its name; its '='.
    Att,
    Equals,
    Value,
    // Its value in double quotes, or in single ones.
    Double,
    Single,
    // The '/' of an empty tag: '>'.
    Slash,
    // "</" and n bytes of the name; the name and a blank.
    End,
    Ended,
}

// What a byte gave: events of the element that it opened or closed, or of a comment.
#[derive(Clone, Copy, PartialEq, Eq)]
pub enum Gives {
    Nothing,
    Open,
    Close,
    Both,
    Remark,
}

// How many elements are open, 0 before the document element; after it AFTER.
pub const AFTER: u16 = 65535;

// The reader between two calls.
#[derive(Clone, Copy)]
pub struct Reader {
    pub mode: Mode,
    pub back: Mode,
    pub n: u8,
    pub row: u8,
    pub count: u8,
    pub gives: Gives,
    // 0, or the number of the refusal by which it was stopped.
    pub refusal: u8,
    pub place: u16,
}

impl Reader {
    // On in another mode.
    pub fn go(self, mode: Mode) -> Reader
        ensures { result ≡ go_to self mode }
    {
        Reader {
            mode,
            n: 0,
            gives: Gives::Nothing,
            refusal: 0,
            ..self
        }
    }

    // On in another mode or the same, with nothing else changed.
    pub fn stay(self, mode: Mode) -> Reader
        ensures { result ≡ stay_in self mode }
    {
        Reader {
            mode,
            gives: Gives::Nothing,
            refusal: 0,
            ..self
        }
    }

    // Stopped by the refusal with a number.
    pub fn stop(self, refusal: u8) -> Reader
        ensures { result ≡ stop_with self refusal }
    {
        Reader {
            gives: Gives::Nothing,
            refusal,
            ..self
        }
    }

    // Stopped by a refusal.
    pub fn refuse(self, refusal: TextRefusal) -> Reader
        ensures { result ≡ refuse_with self refusal }
    {
        self.stop(refusal.number())
    }

    // On in a spelling: n bytes of the row.
    pub fn spell(self, mode: Mode, row: u8, n: u8) -> Reader
        ensures { result ≡ spell_on self mode row n }
    {
        Reader {
            mode,
            n,
            row,
            gives: Gives::Nothing,
            refusal: 0,
            ..self
        }
    }

    // On in another mode, to come back.
    pub fn aside(self, mode: Mode, n: u8, back: Mode) -> Reader
        ensures { result ≡ go_aside self mode n back }
    {
        Reader {
            mode,
            back,
            n,
            row: 0,
            gives: Gives::Nothing,
            refusal: 0,
            ..self
        }
    }

    // Events are given.
    pub fn give(self, gives: Gives, mode: Mode, place: u16) -> Reader
        ensures { result ≡ give_out self gives mode place }
    {
        Reader {
            mode,
            n: 0,
            count: 0,
            gives,
            refusal: 0,
            place,
            ..self
        }
    }

    // One more was counted.
    pub fn counted(self, mode: Mode, count: u8) -> Reader
        ensures { result ≡ count_to self mode count }
    {
        Reader {
            mode,
            n: 0,
            count,
            gives: Gives::Nothing,
            refusal: 0,
            ..self
        }
    }
}
