// The index of a list of names, in lent words, and the number of a name by it.
#![tactic(auto)]

ghost use Rattle.std.specs.Prelude.{◌≡◌, ◌≤◌, length};
ghost use Rattle.listed.specs.Answer.{listing};
ghost use Rattle.chains.specs.Index.{index_words};
ghost use Rattle.names.specs.Answer.{BuildGives};
ghost use Rattle.names.specs.Number.{spelled_at, number_of};

use limits::TextRefusal;
use listed::ListFault;

// How many words an index has: a head for each bucket, and two words for each place of a list. That is 196,602.
pub const INDEX: usize = spelling::BUCKETS + 2 * limits::NAMES;

// Builds the index of a list. A list that is refused leaves the index as it is.
#[tactic(auto, using(crate::proofs::Answers::answer_ready))]
pub fn build(names: &[u8], index: &mut [u32]) -> Result<(), ListFault>
    ensures { BuildGives names.now index.old index.new (listing result) }
{
    if index.len() < INDEX {
        let refusal = TextRefusal::Scant;
        return Err(ListFault { refusal, line: 0 });
    }
    listed::check(names)?;
    chains::fill(names, index);
    Ok(())
}

// The number of a name: its first place in the list that the index was built of, or 65,534.
#[tactic(auto, using(chains::proofs::Index::Room::index_words_is, spelling::specs::Bucket::Laws::bucket_below, spelling::specs::Bucket::Laws::buckets_is))]
pub fn number(names: &[u8], index: &[u32], word: &[u8]) -> u32
    requires { index_words ≤ length index.now }
    ensures { result ≡ number_of names.now index.now word.now }
{
    let bucket = spelling::bucket(word);
    let mut place = index[bucket] as usize;
    for _ in 0..limits::NAMES {
        if place == 0 || limits::NAMES < place {
            return limits::UNKNOWN_NAME;
        }
        let entry = spelling::BUCKETS + 2 * (place - 1);
        let link = index[entry + 1];
        if spelled(
            names,
            index[entry] as usize,
            (link / chains::LINK) as usize,
            word,
        ) {
            return place as u32;
        }
        place = (link % chains::LINK) as usize;
    }
    limits::UNKNOWN_NAME
}

// Whether the word is what stands in the list from `from` on, so many bytes.
#[tactic(auto, unfolding(crate::specs::Number::spelled_at))]
fn spelled(names: &[u8], from: usize, bytes: usize, word: &[u8]) -> bool
    requires { from ≤ 4294967295 }
    ensures { result ≡ spelled_at names.now from bytes word.now }
{
    let end = from + word.len();
    bytes == word.len() && end <= names.len() && spelling::same(&names[from..end], word)
}
