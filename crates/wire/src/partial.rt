// A varint of which a part has come: how many bytes, and their big-endian number.
ghost use Rattle.std.specs.Prelude.{◌≡◌, ◌+◌, ◌-◌, ◌*◌, ◌/◌, ◌≤◌, ◌<◌, ◌^◌, length, true, []};
ghost use Rattle.wire.specs.Bytes.{num_from};
ghost use Rattle.wire.specs.Partial.{partial, partial_of, is_partial, take_varint};
ghost use Rattle.wire.specs.Varint.{size_of, value_of};

use crate::varint::{read_varint, size_of};

#[derive(Clone, Copy, Debug, PartialEq, Eq)]
pub struct Partial {
    pub have: u8,
    pub raw: u64,
}

// What comes of a partial varint by more bytes: three outcomes, which every caller tells apart.
#[derive(Clone, Copy, Debug, PartialEq, Eq)]
pub enum VarintTaken {
    // no varint has this part
    Impossible,
    // all bytes belong to it, and it is not whole
    More(Partial),
    // it ends with the byte at used - 1
    Ends { used: usize, value: u64 },
}

impl Partial {
    // Before the first byte.
    pub const EMPTY: Partial = Partial { have: 0, raw: 0 };

    // Whether a varint that is not whole has this part.
    #[tactic(auto, using(crate::proofs::Parts::starts_first, crate::proofs::Parts::starts_large, crate::proofs::Parts::starts_high, crate::proofs::Parts::first_fits, crate::proofs::Parts::starts_last), unfolding(crate::specs::Partial::is_partial))]
    pub fn is_possible(self) -> bool
        ensures { result ≡ is_partial self }
    {
        match self.have {
            0 => self.raw == 0,
            1..=7 => self.raw >> (8 * self.have) == 0 && usize::from(self.have) < self.size(),
            _ => false,
        }
    }

    // What comes of it by the bytes of s.
    #[tactic(auto, using(crate::proofs::Parts::take_impossible, crate::proofs::Parts::take_empty))]
    pub fn take(self, s: &[u8]) -> VarintTaken
        ensures { result ≡ take_varint self s.now }
    {
        if !self.is_possible() {
            VarintTaken::Impossible
        } else if self.have == 0 {
            start(s)
        } else {
            self.go_on(s)
        }
    }

    // From a later byte on: the first one says how many there are.
    fn go_on(self, s: &[u8]) -> VarintTaken
        requires { (0 < self.have) × (is_partial self ≡ true) }
        ensures { result ≡ take_varint self s.now }
    {
        let size = self.size();
        let missing = size - usize::from(self.have);
        if s.len() < missing {
            return VarintTaken::More(self.with_bytes(s));
        }
        let whole = self.with_bytes(&s[..missing]);
        VarintTaken::Ends {
            used: missing,
            value: value_of(size, whole.raw),
        }
    }

    // How many bytes its varint has, by the first byte.
    fn size(self) -> usize
        requires { (0 < self.have) × (self.have ≤ 8) × (self.raw / 2 ^ (8 * (self.have - 1)) < 256) }
        ensures { result ≡ size_of (self.raw / 2 ^ (8 * (self.have - 1))) }
    {
        size_of((self.raw >> (8 * (self.have - 1))) as u8)
    }

    // With the bytes of s after its own.
    fn with_bytes(self, s: &[u8]) -> Partial
        requires { (self.have + length s.now ≤ 8) × (self.raw < 256 ^ self.have) }
        ensures { result ≡ partial (self.have + length s.now) (num_from self.raw s.now) }
    {
        let mut raw = self.raw;
        for &b in s {
            raw = raw * 256 + u64::from(b);
        }
        Partial {
            have: self.have + s.len() as u8,
            raw,
        }
    }
}

// From the first byte on.
#[tactic(auto, using(crate::proofs::Parts::begins_whole, crate::proofs::Parts::begins_part, crate::proofs::Reading::incomplete_room))]
fn start(s: &[u8]) -> VarintTaken
    ensures { result ≡ take_varint (partial_of []) s.now }
{
    match read_varint(s) {
        Some(read) => VarintTaken::Ends {
            used: read.size,
            value: read.value,
        },
        None => VarintTaken::More(Partial::EMPTY.with_bytes(s)),
    }
}

// The value of a varint of size bytes that are the number n.
#[tactic(auto, using(crate::proofs::Reading::value_of_shift, crate::proofs::Reading::shifted_pos))]
fn value_of(size: usize, n: u64) -> u64
    requires { (1 ≤ size) × (size ≤ 8) }
    ensures { result ≡ value_of size n }
{
    n % (1u64 << (8 * size - 2))
}
