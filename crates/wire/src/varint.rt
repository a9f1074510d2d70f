// Variable-length integers (RFC 9000, section 16).
ghost use Rattle.std.specs.Prelude.{◌≡◌, ◌+◌, ◌/◌, ◌^◌, ◌≤◌, ◌<◌, length};
ghost use Rattle.std.proofs.lemmas.List.Edits.{sets};
ghost use Rattle.wire.specs.Bytes.{bytes_of};
ghost use Rattle.wire.specs.Varint.{size_of, read_varint, least_size, encode, largest};
ghost use Rattle.wire.specs.Long.{read_long};
ghost use Rattle.wire.specs.Writing.{writing, write_varint};

use refusals::Refusal;
pub use short_forms::Varint;
use short_forms::read_short;

// two, four and eight bytes that are the number 0
const ZERO_OF_2: u64 = 0x4000;

const ZERO_OF_4: u64 = 0x80000000;

const ZERO_OF_8: u64 = 0xc000000000000000;

// The short forms are tried first.
#[tactic(auto, using(crate::proofs::Forms::short_found, crate::proofs::Forms::else_long))]
pub fn read_varint(s: &[u8]) -> Option<Varint>
    ensures { result ≡ read_varint s.now }
{
    match read_short(s) {
        Some(short) => Some(short),
        None => read_long(s),
    }
}

// A form of four or eight bytes; incomplete also where a form of one or two bytes is there.
pub fn read_long(s: &[u8]) -> Option<Varint>
    ensures { result ≡ read_long s.now }
{
    let Some(&first) = s.first() else {
        return None;
    };
    if first < Varint::FIRST_OF_4 {
        return None;
    }
    if let Some(bytes) = s.first_chunk::<8>() {
        return long_form(first, u64::from_be_bytes(*bytes));
    }
    if first >= Varint::FIRST_OF_8 {
        return None;
    }
    match s.first_chunk::<4>() {
        Some(bytes) => Some(Varint {
            value: u64::from(u32::from_be_bytes(*bytes)) % 1073741824,
            size: 4,
        }),
        None => None,
    }
}

// How many bytes the shortest varint of a number has, for the numbers that have one: up to 2^62-1.
#[tactic(auto, unfolding(crate::specs::Varint::least_size, crate::specs::Varint::least_width))]
pub fn least_size(n: u64) -> usize
    ensures { result ≡ least_size n }
{
    match n {
        0..=Varint::MAX_OF_1 => 1,
        0..=Varint::MAX_OF_2 => 2,
        0..=Varint::MAX_OF_4 => 4,
        _ => 8,
    }
}

// The shortest varint of a number, at a place of the output.
#[tactic(auto, using(crate::proofs::Encoding::write_large, crate::proofs::Encoding::write_short, crate::proofs::Encoding::write_fits, crate::proofs::Encoding::least_size_pos), unfolding(crate::specs::Varint::largest))]
pub fn write_varint(n: u64, out: &mut [u8], place: usize) -> Result<usize, Refusal>
    ensures { writing result out.new ≡ write_varint n out.old place }
{
    if n > Varint::MAX {
        return Err(Refusal::NUMBER_TOO_LARGE);
    }
    let size = least_size(n);
    if out.len().saturating_sub(place) < size {
        return Err(Refusal::OUTPUT_TOO_SHORT);
    }
    put_varint(out, place, n);
    Ok(size)
}

// Four or eight bytes, out of the number of the first eight. With arithmetic alone in its arms, it compiles to no
// branch, which would be a guess.
#[tactic(auto, using(crate::proofs::Encoding::top_eight, crate::proofs::Encoding::top_four))]
fn long_form(first: u8, w: u64) -> Option<Varint>
    requires { (first ≡ w / 2 ^ 56) × (128 ≤ first) }
    ensures { result ≡ read_varint (bytes_of 8 w) }
{
    if first >= Varint::FIRST_OF_8 {
        Some(Varint {
            value: w - ZERO_OF_8,
            size: 8,
        })
    } else {
        Some(Varint {
            value: w / 4294967296 - ZERO_OF_4,
            size: 4,
        })
    }
}

// The place is an argument, since the host's bytes before and behind it are promised to stay.
#[tactic(auto, using(crate::proofs::Numbers::put_bytes, crate::proofs::Encoding::encode_one), unfolding(crate::specs::Varint::least_size, crate::specs::Varint::least_width, crate::specs::Varint::largest, crate::specs::Varint::encode, crate::specs::Varint::encode_as))]
fn put_varint(out: &mut [u8], at: usize, n: u64)
    requires { (at + least_size n ≤ length out.old) × (n ≤ largest) }
    ensures { out.new ≡ sets out.old at (encode n) }
{
    if n <= Varint::MAX_OF_1 {
        out[at] = n as u8;
    } else if n <= Varint::MAX_OF_2 {
        out[at..at + 2].copy_from_slice(&((ZERO_OF_2 + n) as u16).to_be_bytes());
    } else if n <= Varint::MAX_OF_4 {
        out[at..at + 4].copy_from_slice(&((ZERO_OF_4 + n) as u32).to_be_bytes());
    } else {
        out[at..at + 8].copy_from_slice(&(ZERO_OF_8 + n).to_be_bytes());
    }
}

// How many bytes a varint has, by its first byte.
#[tactic(auto, unfolding(crate::specs::Varint::size_of))]
pub(crate) fn size_of(first: u8) -> usize
    ensures { result ≡ size_of first }
{
    if first < Varint::FIRST_OF_2 {
        1
    } else if first < Varint::FIRST_OF_4 {
        2
    } else if first < Varint::FIRST_OF_8 {
        4
    } else {
        8
    }
}
