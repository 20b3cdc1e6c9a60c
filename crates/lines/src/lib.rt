// What the program writes, as bytes: node numbers in decimal, each on a line of its own, and the last line.
#![tactic(auto)]

ghost use Rattle.std.specs.Prelude.{◌≡◌, ◌+◌, ◌*◌, ◌≤◌, ◌<◌, ◌++◌, length};
ghost use Rattle.io.specs.Counts.{IsPrefixLen};
ghost use Rattle.lines.specs.Decimal.{decimal};
ghost use Rattle.lines.specs.Put.{Put};
ghost use Rattle.lines.specs.Text.{line, lines_of, node_at, nodes_in, end_line, refusal_text, refused_at_line, refused_for_line, refused_line};

// How many digits the number has.
fn width(n: u64) -> usize
    ensures { result ≡ length (decimal n) }
{
    n.checked_ilog10().map_or(1, |tens| tens as usize + 1)
}

// The number in decimal from `at` on. Answers where it ends.
fn put_number(n: u64, at: usize, text: &mut [u8]) -> usize
    requires { at + length (decimal n) ≤ length text.old }
    ensures { Put text.old at (decimal n) text.new result }
{
    let end = at + width(n);
    let mut rest = n;
    for i in (at + 1..end).rev() {
        text[i] = b'0' + (rest % 10) as u8;
        rest /= 10;
    }
    text[at] = b'0' + rest as u8;
    end
}

// The same with a line feed.
fn put_line(n: u64, at: usize, text: &mut [u8]) -> usize
    requires { at + length (line n) ≤ length text.old }
    ensures { Put text.old at (line n) text.new result }
{
    let end = put_number(n, at, text);
    text[end] = b'\n';
    end + 1
}

fn put_word(word: &[u8], at: usize, text: &mut [u8]) -> usize
    requires { at + length word.now ≤ length text.old }
    ensures { Put text.old at word.now text.new result }
{
    let end = at + word.len();
    text[at..end].copy_from_slice(word);
    end
}

// "A node number, high byte first."
pub fn node_at(records: &[u8], i: usize) -> u64
    requires { 4 * i + 4 ≤ length records.now }
    ensures { (result ≡ node_at records.now i) × (result < 4294967296) }
{
    let at = 4 * i;
    let bytes = [
        records[at],
        records[at + 1],
        records[at + 2],
        records[at + 3],
    ];
    u64::from(u32::from_be_bytes(bytes))
}

// The nodes of the first `count` list records, each on a line of its own.
pub fn put_lines(records: &[u8], count: usize, text: &mut [u8]) -> usize
    requires { (4 * count ≤ length records.now) × (11 * count ≤ length text.old) }
    ensures put { Put text.old 0 (lines_of (nodes_in count records.now)) text.new result }
    ensures prefix_len { IsPrefixLen result text.new }
{
    let mut end: usize = 0;
    for i in 0..count {
        end = put_line(node_at(records, i), end, text);
    }
    end
}

// A word, and the number behind it.
fn put_named(word: &[u8], n: u64, at: usize, text: &mut [u8]) -> usize
    requires { at + length word.now + length (decimal n) ≤ length text.old }
    ensures { Put text.old at (word.now ++ decimal n) text.new result }
{
    let number = put_word(word, at, text);
    put_number(n, number, text)
}

// The same with a line feed.
fn put_last(word: &[u8], n: u64, at: usize, text: &mut [u8]) -> usize
    requires { at + length word.now + 21 ≤ length text.old }
    ensures put { Put text.old at (word.now ++ line n) text.new result }
    ensures prefix_len { IsPrefixLen result text.new }
{
    let number = put_word(word, at, text);
    put_line(n, number, text)
}

// "`end N` with the number handed out"
pub fn put_end(n: u64, text: &mut [u8]) -> usize
    requires { 64 ≤ length text.old }
    ensures put { Put text.old 0 (end_line n) text.new result }
    ensures prefix_len { IsPrefixLen result text.new }
{
    put_last(b"end ", n, 0, text)
}

// `refused R at E`, with nothing behind it.
fn put_refusal(r: u8, e: u64, text: &mut [u8]) -> usize
    requires { 64 ≤ length text.old }
    ensures put { Put text.old 0 (refusal_text r e) text.new result }
    ensures short { result ≤ 35 }
{
    let at = put_named(b"refused ", u64::from(r), 0, text);
    put_named(b" at ", e, at, text)
}

// "`refused R at E`"
pub fn put_refused_at(r: u8, e: u64, text: &mut [u8]) -> usize
    requires { 64 ≤ length text.old }
    ensures put { Put text.old 0 (refused_at_line r e) text.new result }
    ensures prefix_len { IsPrefixLen result text.new }
{
    let end = put_refusal(r, e, text);
    put_word(b"\n", end, text)
}

// "and refusal 10 `refused 10 at K reason N`"
pub fn put_refused_for(r: u8, e: u64, reason: u8, text: &mut [u8]) -> usize
    requires { 64 ≤ length text.old }
    ensures put { Put text.old 0 (refused_for_line r e reason) text.new result }
    ensures prefix_len { IsPrefixLen result text.new }
{
    let end = put_refusal(r, e, text);
    put_last(b" reason ", u64::from(reason), end, text)
}

// "Refusal 9 is written `refused 9`."
pub fn put_refused(r: u8, text: &mut [u8]) -> usize
    requires { 64 ≤ length text.old }
    ensures put { Put text.old 0 (refused_line r) text.new result }
    ensures prefix_len { IsPrefixLen result text.new }
{
    put_last(b"refused ", u64::from(r), 0, text)
}
