// The checksum, eight bytes at a time. Each contract is the plain form's, word for word: these functions differ from it in time alone.
#![tactic(auto)]

ghost use Rattle.std.specs.Prelude.{◌≡◌, List, ◌++◌, ℕ};
ghost use Rattle.crc64.specs.Crc64.{crc_of};
ghost use Rattle.device.specs.Word.{le};
ghost use Rattle.crc64_tables.specs.Leaves.{leaves};

use crc64::State;

// What the division leaves of a word, by its parts: where x was added to the register, the register after the word.
fn pass(x: u64) -> u64
    ensures { result ≡ leaves 64 x }
{
    let mut sum = 0;
    let mut rest = x;
    for i in 0..crc64_tables::PARTS {
        sum ^= crc64_tables::part(i, rest);
        rest /= 64;
    }
    sum
}

// The bytes of s follow those that `state` has taken.
pub fn more(state: State, s: &[u8]) -> State
    ensures { (t : List ℕ) → state.sum ≡ crc_of t → result.sum ≡ crc_of (t ++ s.now) }
{
    let (words, rest) = s.as_chunks::<8>();
    let mut register = state.sum ^ u64::MAX;
    for word in words {
        register = pass(register ^ u64::from_le_bytes(*word));
    }
    let sum = register ^ u64::MAX;
    State { sum }.more(rest)
}

// The checksum of s.
pub fn crc64(s: &[u8]) -> u64
    ensures { result ≡ crc_of s.now }
{
    more(State::new(), s).end()
}

// The checksum of 24 bytes that come as three words, the lowest byte of each first: the content of a header. (Words of any content, so no struct.)
// Inlined, so that of words that are known, as the zeros of a new log, nothing is looked up.
#[inline(always)]
pub fn crc64_words(a: u64, b: u64, c: u64) -> u64
    ensures { result ≡ crc_of (le a ++ (le b ++ le c)) }
{
    let mut register = u64::MAX;
    for word in [a, b, c] {
        register = pass(register ^ word);
    }
    register ^ u64::MAX
}
