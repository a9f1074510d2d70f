// The one-shot listing: how many complete capsules a buffer holds, and how it ends.
#![tactic(auto)]

ghost use Rattle.std.specs.Prelude.{◌≡◌, drop};
ghost use Rattle.one_shot_listing.specs.Listing.{listing_of};
ghost use Rattle.one_shot_listing.specs.Cycle.{onwards, Before, TypeRead, HeadRead};

use capsule::reader::Ending;
use refusals::Refusal;
use wire::varint::read_varint;

// Complete capsules, the bytes of their type and length fields, and how the buffer ends.
#[derive(Clone, Copy, Debug, PartialEq, Eq)]
pub struct Counted {
    pub capsules: usize,
    pub headers: usize,
    pub ending: Ending,
}

// the longest buffer that is listed
pub const LONGEST_BUFFER: usize = 4096;

// Counts the complete capsules of a buffer and their header bytes.
#[tactic(auto, using(crate::proofs::Rounds::listed_clean, crate::proofs::Rounds::listed_cut, crate::proofs::Rounds::too_long))]
pub fn list(buffer: &[u8]) -> Result<Counted, Refusal>
    ensures { result ≡ listing_of buffer.now }
{
    if buffer.len() > LONGEST_BUFFER {
        return Err(Refusal::BUFFER_TOO_LONG);
    }
    let found = read_type(buffer, 0, 0, 0);
    Ok(Counted {
        capsules: found.capsules,
        headers: found.headers,
        ending: if found.tail == 0 {
            Ending::Clean
        } else {
            Ending::Truncated
        },
    })
}

// Complete capsules, their header bytes, and how many bytes stand behind the last one. Three words without padding:
// each return of the cycle copies them, and the padding behind an `Ending` would go through memory, too.
#[derive(Clone, Copy)]
struct Found {
    capsules: usize,
    headers: usize,
    tail: usize,
}

// The reading goes round, type to length to value to the next type: document 01 names the form, three functions in a
// cycle. A capsule starts at `start`; `capsules` and `headers` count what stands before it. `Before` ties the counts
// to the bytes before `start`; a struct with it as its invariant would have to carry the buffer.
#[cycle(listing)]
fn read_type(s: &[u8], start: usize, capsules: usize, headers: usize) -> Found
    requires { Before s.now start capsules headers }
    ensures { result ≡ onwards capsules headers (drop start s.now) }
{
    let rest = &s[start..];
    match read_varint(rest) {
        None => Found {
            capsules,
            headers,
            tail: rest.len(),
        },
        Some(ctype) => read_length(s, start, start + ctype.size, capsules, headers),
    }
}

// Its type ends at `at`.
#[cycle(listing)]
fn read_length(s: &[u8], start: usize, at: usize, capsules: usize, headers: usize) -> Found
    requires { Before s.now start capsules headers × TypeRead s.now start at }
    ensures { result ≡ onwards capsules headers (drop start s.now) }
{
    match read_varint(&s[at..]) {
        None => Found {
            capsules,
            headers,
            tail: s.len() - start,
        },
        Some(length) => read_value(s, start, at + length.size, length.value, capsules, headers),
    }
}

// Its length ends at `at`, and says that so many value bytes follow.
#[cycle(listing)]
fn read_value(
    s: &[u8],
    start: usize,
    at: usize,
    length: u64,
    capsules: usize,
    headers: usize,
) -> Found
    requires { Before s.now start capsules headers × HeadRead s.now start at length }
    ensures { result ≡ onwards capsules headers (drop start s.now) }
{
    let room = (s.len() - at) as u64;
    if room < length {
        return Found {
            capsules,
            headers,
            tail: s.len() - start,
        };
    }
    let header = at - start;
    read_type(s, at + (length as usize), capsules + 1, headers + header)
}
