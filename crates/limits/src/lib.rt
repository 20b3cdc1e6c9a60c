// The limits of a session, its refusals and the reasons, each in this one place of the code; crate meaning, Limits and Refusals, has them for the
// definitions. Those of the reader of XML text stand in crate xml, Refused.
#![tactic(auto)]

ghost use Rattle.std.specs.Prelude.{◌≡◌};
ghost use Rattle.limits.specs.Number.{number, reason_number, text_number};

// Why a call of a session is refused, by its number.
#[derive(Clone, Copy, PartialEq, Eq)]
pub enum Refusal {
    // "output buffer under 4,100 bytes"
    ShortOutput = SHORT_OUTPUT as isize,
    // "not 8 bytes, or a bad record"
    BadRecord = BAD_RECORD as isize,
    // "the document element has been closed"
    AfterEnd = AFTER_END as isize,
    // "a close with nothing open, or with another name than the innermost open element"
    WrongClose = WRONG_CLOSE as isize,
    // "an open at depth 256"
    TooDeep = TOO_DEEP as isize,
    // "an open when 16,777,215 nodes have been opened"
    TooManyNodes = TOO_MANY_NODES as isize,
    // "an open after which more than 1,024 nodes would be held"
    TooManyHeld = TOO_MANY_HELD as isize,
    // "no document element yet, or it is still open"
    Unfinished = UNFINISHED as isize,
    // "query of 0 bytes, of a length not a multiple of 8, or over 256 bytes"
    BadLength = BAD_LENGTH as isize,
    // "a step breaks a rule; comes with the first such step's number, and a reason"
    BadStep = BAD_STEP as isize,
    // "the session is stopped"
    Stopped = ALREADY_STOPPED as isize,
    // "lent room under 16,384 bytes for the open elements or under 32,768 bytes for the waiting nodes"
    ShortRoom = SHORT_ROOM as isize,
}

impl Refusal {
    pub fn number(self) -> u8
        ensures { result ≡ number self }
    {
        self as u8
    }
}

// Why a step of a query is at fault, by its number.
#[derive(Clone, Copy, PartialEq, Eq)]
pub enum Reason {
    Axis = BAD_AXIS as isize,
    Role = BAD_ROLE as isize,
    // what it hangs on
    Hang = BAD_HANG as isize,
    // "a byte that must be 0"
    Zero = BAD_ZERO as isize,
}

impl Reason {
    pub fn number(self) -> u8
        ensures { result ≡ reason_number self }
    {
        self as u8
    }
}

// Why the reader refuses a byte of XML text, its end or a call, or a line of the list of names, by its number, in the words of docs/XML.md.
#[derive(Clone, Copy, PartialEq, Eq)]
pub enum TextRefusal {
    // "no text that is read goes on with this byte, and none of 31 to 43 applies"
    Misplaced = MISPLACED as isize,
    // "a byte does not go on as the UTF-8 form of a Char"
    NotChar = NOT_CHAR as isize,
    // a document type
    Doctype = DOCTYPE as isize,
    // a processing instruction
    Instruction = INSTRUCTION as isize,
    // a CDATA section
    Cdata = CDATA as isize,
    // a character reference
    CharReference = CHAR_REFERENCE as isize,
    // "a byte with which none of the five entities goes on"
    OtherEntity = OTHER_ENTITY as isize,
    // "a tag's or an attribute's name goes on after 64 bytes"
    LongName = LONG_NAME as isize,
    // "a 17th attribute begins on a tag"
    ManyAttributes = MANY_ATTRIBUTES as isize,
    // an attribute's name for the second time
    Twice = TWICE as isize,
    // "an end tag spells another name than its start tag"
    OtherEnd = OTHER_END as isize,
    // "an element begins inside 256 others"
    Nested = NESTED as isize,
    // another encoding
    OtherEncoding = OTHER_ENCODING as isize,
    // a name beyond ASCII
    ForeignName = FOREIGN_NAME as isize,
    // "the text ends, and it is not a whole document"
    Unended = UNENDED as isize,
    // "less room is lent than a call needs"
    Scant = SCANT as isize,
    // the reader is stopped
    ReaderStopped = READER_STOPPED as isize,
    // "the list has a 65,534th line"
    ManyNames = MANY_NAMES as isize,
    // "a line of the list is a name of more than 64 bytes"
    LongListed = LONG_LISTED as isize,
    // "a line of the list is no name"
    NotName = NOT_NAME as isize,
}

impl TextRefusal {
    pub fn number(self) -> u8
        ensures { result ≡ text_number self }
    {
        self as u8
    }
}

// "A session holds at most 256 open elements and at most 1,024 held nodes"
pub const DEPTH: usize = 256;

pub const HELD: usize = 1024;

// "an open when 16,777,215 nodes have been opened"
pub const NODES: u32 = 16777215;

// "The buffer must have at least 4,100 bytes"
pub const OUTPUT: usize = 4100;

// "64 bytes for each open element" and "32 bytes for each waiting node"
pub const ELEMENTS_ROOM: usize = 16384;

pub const NODES_ROOM: usize = 32768;

// "output buffer under 4,100 bytes"
pub const SHORT_OUTPUT: u8 = 1;

// "not 8 bytes, or a bad record"
pub const BAD_RECORD: u8 = 2;

// "the document element has been closed"
pub const AFTER_END: u8 = 3;

// "a close with nothing open, or with another name than the innermost open element"
pub const WRONG_CLOSE: u8 = 4;

// "an open at depth 256"
pub const TOO_DEEP: u8 = 5;

// "an open when 16,777,215 nodes have been opened"
pub const TOO_MANY_NODES: u8 = 6;

// "an open after which more than 1,024 nodes would be held"
pub const TOO_MANY_HELD: u8 = 7;

// "no document element yet, or it is still open"
pub const UNFINISHED: u8 = 8;

// "query of 0 bytes, of a length not a multiple of 8, or over 256 bytes"
pub const BAD_LENGTH: u8 = 9;

// "a step breaks a rule; comes with the first such step's number, and a reason"
pub const BAD_STEP: u8 = 10;

// "the session is stopped"
pub const ALREADY_STOPPED: u8 = 11;

// "lent room under 16,384 bytes for the open elements or under 32,768 bytes for the waiting nodes"
pub const SHORT_ROOM: u8 = 15;

// The reasons: "axis"
pub const BAD_AXIS: u8 = 1;

// "role"
pub const BAD_ROLE: u8 = 2;

// "what it hangs on"
pub const BAD_HANG: u8 = 3;

// "a byte that must be 0"
pub const BAD_ZERO: u8 = 4;

// The reader of XML text. "Names are ASCII, at most 64 bytes"
pub const NAME_BYTES: usize = 64;

// "a tag has at most 16 attributes"
pub const ATTRIBUTES: usize = 16;

// "a list the caller lends of at most 65,533 names"
pub const NAMES: usize = 65533;

// "an unknown name gets number 65,534"
pub const UNKNOWN_NAME: u32 = 65534;

// "A comment inside the document element is an open and a close of 65,535"
pub const REMARK_NAME: u32 = 65535;

// Its refusals, in the words of docs/XML.md: "no text that is read goes on with this byte, and none of 31 to 43 applies"
pub const MISPLACED: u8 = 30;

// "a byte does not go on as the UTF-8 form of a Char"
pub const NOT_CHAR: u8 = 31;

// a document type
pub const DOCTYPE: u8 = 32;

// a processing instruction
pub const INSTRUCTION: u8 = 33;

// a CDATA section
pub const CDATA: u8 = 34;

// a character reference
pub const CHAR_REFERENCE: u8 = 35;

// "a byte with which none of the five entities goes on"
pub const OTHER_ENTITY: u8 = 36;

// "a tag's or an attribute's name goes on after 64 bytes"
pub const LONG_NAME: u8 = 37;

// "a 17th attribute begins on a tag"
pub const MANY_ATTRIBUTES: u8 = 38;

// an attribute's name for the second time
pub const TWICE: u8 = 39;

// "an end tag spells another name than its start tag"
pub const OTHER_END: u8 = 40;

// "an element begins inside 256 others"
pub const NESTED: u8 = 41;

// another encoding
pub const OTHER_ENCODING: u8 = 42;

// a name beyond ASCII
pub const FOREIGN_NAME: u8 = 43;

// "the text ends, and it is not a whole document"
pub const UNENDED: u8 = 44;

// "less room is lent than a call needs"
pub const SCANT: u8 = 45;

// the reader is stopped
pub const READER_STOPPED: u8 = 46;

// "the list has a 65,534th line"
pub const MANY_NAMES: u8 = 47;

// "a line of the list is a name of more than 64 bytes"
pub const LONG_LISTED: u8 = 48;

// "a line of the list is no name"
pub const NOT_NAME: u8 = 49;
