// The checksum CRC-64/XZ, bit by bit. `crc_of` of specs/ is its definition.
#![tactic(auto)]

ghost use Rattle.std.specs.Prelude.{◌≡◌, List, [], ◌∷◌, ◌++◌, ℕ};
ghost use Rattle.std.specs.Int.Bits.{bit_xor};
ghost use Rattle.crc64.specs.Crc64.{crc_of};
ghost use Rattle.crc64.specs.Damage.{Refuses};
ghost use Rattle.crc64.specs.Examples.{Examples};

// The polynomial x^64 + .. less its leading 1, with its bits reflected.
const POLYNOMIAL: u64 = 0xc96c_5795_d787_0f42;

// One byte more. The register holds the checksum of the bytes so far, with the ones taken off again.
fn feed(register: u64, byte: u8) -> u64
    ensures { (t : List ℕ) → register ≡ bit_xor (crc_of t) u64.MAX → result ≡ bit_xor (crc_of (t ++ byte ∷ [])) u64.MAX }
{
    let mut x = register ^ u64::from(byte);
    for _ in 0..u8::BITS {
        x = if x % 2 == 1 {
            (x / 2) ^ POLYNOMIAL
        } else {
            x / 2
        };
    }
    x
}

// The checksum of bytes that come in parts: `sum` is that of the bytes so far. Clauses range over all bytes with that sum; a ghost field could
// not hold them, as it states facts of fields.
#[derive(Clone, Copy)]
pub struct State {
    pub sum: u64,
}

impl State {
    // No bytes yet.
    pub fn new() -> State
        ensures { result.sum ≡ crc_of [] }
    {
        State { sum: 0 }
    }

    // The bytes of s follow.
    pub fn more(self, s: &[u8]) -> State
        ensures { (t : List ℕ) → self.sum ≡ crc_of t → result.sum ≡ crc_of (t ++ s.now) }
    {
        let mut register = self.sum ^ u64::MAX;
        for &byte in s {
            register = feed(register, byte);
        }
        let sum = register ^ u64::MAX;
        State { sum }
    }

    // The checksum of all the bytes.
    pub fn end(self) -> u64
        ensures { result ≡ self.sum }
    {
        self.sum
    }
}

// The checksum of s.
pub fn crc64(s: &[u8]) -> u64
    ensures { result ≡ crc_of s.now }
{
    State::new().more(s).end()
}

// What damage the checksum refuses: the theorems, as the contract of a function that does nothing.
pub fn refuses()
    ensures { Refuses }
{}

// The worked examples, in the same way.
pub fn examples()
    ensures { Examples }
{}
