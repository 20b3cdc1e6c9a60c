// The index of a list of names, in lent words: for each bucket the chain of its places.
#![tactic(auto)]

ghost use Rattle.std.specs.Prelude.{◌≡◌, ◌≤◌, length};
ghost use Rattle.listed.specs.Lines.{lines_of};
ghost use Rattle.spelling.specs.Bucket.{bucket_of};
ghost use Rattle.chains.specs.Index.{index_words, spelling_at, cleared, laid_in, built};
ghost use Rattle.chains.specs.Index.{Ready, Laid, EntryFits};

// The second word of a place is the next place in its chain and this many times the length of its name.
pub const LINK: u32 = 65536;

// Builds the index of a list.
pub fn fill(names: &[u8], index: &mut [u32])
    requires { Ready names.now index.old }
    ensures { index.new ≡ built names.now index.old }
{
    clear(index);
    let count = lay(names, index);
    link(names, index, count);
}

// Every bucket is empty.
#[tactic(auto, using(crate::proofs::Index::Room::index_words_is))]
fn clear(index: &mut [u32])
    requires { index_words ≤ length index.old }
    ensures { index.new ≡ cleared index.old }
{
    index[..spelling::BUCKETS].fill(0);
}

// The offset and the length of each name. Answers how many there are.
#[tactic(auto, using(crate::proofs::Laying::laying))]
fn lay(names: &[u8], index: &mut [u32]) -> usize
    requires { Ready names.now index.old }
    ensures value { result ≡ length (lines_of names.now) }
    ensures index_after { index.new ≡ laid_in names.now index.old }
{
    // Kept: a turn goes on by a whole line and not by one byte, and needs where the line begins: `split` and the like would give the bytes without that.
    let mut count: usize = 0;
    let mut at: usize = 0;
    while at < names.len() {
        let end = listed::line_end(names, at);
        let entry = spelling::BUCKETS + 2 * count;
        index[entry] = at as u32;
        index[entry + 1] = LINK * (end - at) as u32;
        count += 1;
        at = end + 1;
    }
    count
}

// Puts each place in front of the chain of its bucket, the last place first: so a chain begins with its first place.
#[tactic(auto, using(crate::proofs::Linking::linking))]
fn link(names: &[u8], index: &mut [u32], count: usize)
    requires { Laid names.now index.old count }
    ensures { index.new ≡ built names.now index.old }
{
    for place in (0..count).rev() {
        let entry = spelling::BUCKETS + 2 * place;
        let bucket = bucket_at(names, index, entry);
        index[entry + 1] += index[bucket];
        index[bucket] = place as u32 + 1;
    }
}

// The bucket of the name whose two words stand at `entry`.
fn bucket_at(names: &[u8], index: &[u32], entry: usize) -> usize
    requires { EntryFits names.now index.now entry }
    ensures { result ≡ bucket_of (spelling_at names.now index.now entry) }
{
    let from = index[entry] as usize;
    let end = from + (index[entry + 1] / LINK) as usize;
    spelling::bucket(&names[from..end])
}
