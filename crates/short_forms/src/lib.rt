// The short forms of variable-length integers: one and two bytes (RFC 9000, section 16).
#![tactic(auto)]

ghost use Rattle.std.specs.Prelude.{◌≡◌};
ghost use Rattle.short_forms.specs.Short.{read_short};

// A variable-length integer that was read: its value, and how many bytes it has.
#[derive(Clone, Copy, Debug, PartialEq, Eq)]
pub struct Varint {
    pub value: u64,
    pub size: usize,
}

impl Varint {
    // the largest number
    pub const MAX: u64 = 4611686018427387903;

    // the largest numbers of one, of two and of four bytes
    pub const MAX_OF_1: u64 = 63;

    pub const MAX_OF_2: u64 = 16383;

    pub const MAX_OF_4: u64 = 1073741823;

    // the least first byte of two, of four and of eight
    pub const FIRST_OF_2: u8 = 0x40;

    pub const FIRST_OF_4: u8 = 0x80;

    pub const FIRST_OF_8: u8 = 0xc0;
}

// Looks at two bytes at most. The two sizes are told apart by a branch: without one, reading the next number would
// have to wait for the size of this one, and sizes in a stream mostly repeat. By `u16::from_be_bytes`, two bytes take
// a sixth longer to read.
#[tactic(auto, using(crate::proofs::Short::first_none, crate::proofs::Short::first_one, crate::proofs::Short::first_long, crate::proofs::Short::first_alone, crate::proofs::Short::first_two))]
pub fn read_short(s: &[u8]) -> Option<Varint>
    ensures { result ≡ read_short s.now }
{
    let &first = s.first()?;
    if first < Varint::FIRST_OF_2 {
        return Some(Varint {
            value: u64::from(first),
            size: 1,
        });
    }
    if first >= Varint::FIRST_OF_4 {
        return None;
    }
    let &second = s.get(1)?;
    Some(Varint {
        value: (u64::from(first) * 256 + u64::from(second)) % 16384,
        size: 2,
    })
}
