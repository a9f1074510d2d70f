// Values of RFC 9484's address capsules (section 4.7), checked: the order of ranges, and a value by its type.
#![tactic(auto)]

ghost use Rattle.std.specs.Prelude.{◌≡◌, ◌&&◌, List, ◌+◌, ◌≤◌, ◌<◌, length, get_or, ltb, eqb};
ghost use Rattle.wire.specs.Bytes.{num};
ghost use Rattle.addresses.specs.Addresses.{width_of, Range, all_of, are_good, good_ranges, entries, range_at, well_formed};
ghost use Rattle.addresses.specs.Places.{range_in};
ghost use Rattle.address_rules.specs.Pass.{Seen, same_of, clear_from, fits};
ghost use Rattle.address_rules.specs.Places.{Lent, started_at, Preceded, Stands, Rising};

use addresses::{Malformed, good_entries, range_at};

// A value of an address capsule is well formed: of type 1, 2 or 3, at most 1,024 bytes long, and as RFC 9484 has it.
#[tactic(auto, using(crate::proofs::Judging::request_none, crate::proofs::Judging::request_some), unfolding(addresses::specs::Addresses::well_formed, addresses::specs::Addresses::good_value, addresses::specs::Addresses::longest_address_value))]
pub fn well_formed(ctype: u64, value: &[u8]) -> bool
    ensures { result ≡ well_formed ctype value.now }
{
    if value.len() > 1024 {
        return false;
    }
    if ctype == 1 {
        return good_entries(value, false);
    }
    if ctype == 2 {
        if value.len() == 0 {
            return false;
        }
        return good_entries(value, true);
    }
    if ctype == 3 {
        return good_ranges(value);
    }
    false
}

// The ranges of a ROUTE_ADVERTISEMENT keep the rules. The loop goes on where each range ends, which an iterator would
// have to keep too.
fn good_ranges(value: &[u8]) -> bool
    ensures { result ≡ are_good good_ranges (entries range_at value.now) }
{
    let mut from = 0;
    let mut previous = None;
    let mut at = 0;
    loop {
        match range_at(value, at) {
            Ok(None) => return true,
            Err(Malformed) => return false,
            Ok(Some(width)) => {
                let range = lent(value, at, width);
                let start = start_of(previous, range.version, from, at);
                if !is_fit(value, start, previous, at, width) {
                    return false;
                }
                from = start;
                previous = Some(range);
                at = at + (width + width + 2);
            }
        }
    }
}

// A range of a value, its addresses as bytes.
#[derive(Clone, Copy)]
struct RangeBytes<'a> {
    version: u8,
    start: &'a [u8],
    end: &'a [u8],
    protocol: u8,
}

impl RangeBytes<'_> {
    ghost use Rattle.std.specs.Prelude.{◌≡◌, ◌&&◌, ℕ, ltb, eqb};
    ghost use Rattle.addresses.specs.Addresses.{width_of, before};
    ghost use Rattle.address_rules.specs.Pass.{clear_from};
    ghost use Rattle.address_rules.specs.Places.{range_lent, Wide};

    // Of two ranges: the version does not fall, in one version the protocol does not, in one version and protocol the
    // end is below the next start.
    fn is_before(&self, next: &RangeBytes<'_>) -> bool
        ensures { Wide (width_of self.now.version) self.now → Wide (width_of next.now.version) next.now → result ≡ before (range_lent self.now) (range_lent next.now) }
    {
        if self.version < next.version {
            return true;
        }
        if next.version < self.version {
            return false;
        }
        if self.protocol < next.protocol {
            return true;
        }
        if next.protocol < self.protocol {
            return false;
        }
        is_below(self.end, next.start)
    }

    // Its end is below its start.
    fn is_turned(&self) -> bool
        ensures { (w : ℕ) → Wide w self.now → result ≡ ltb (range_lent self.now).end (range_lent self.now).start }
    {
        is_below(self.end, self.start)
    }

    // It is for all protocols, and wholly below a range of its version.
    fn is_low(&self, other: &RangeBytes<'_>) -> bool
        ensures { (w : ℕ) → Wide w self.now → Wide w other.now → result ≡ eqb (range_lent self.now).protocol 0 && ltb (range_lent self.now).end (range_lent other.now).start }
    {
        self.protocol == 0 && is_below(self.end, other.start)
    }

    // It does not overlap a range of its version, or that is for one protocol only.
    fn is_clear_from(&self, other: &RangeBytes<'_>) -> bool
        ensures { (w : ℕ) → Wide w self.now → Wide w other.now → result ≡ clear_from (range_lent self.now) (range_lent other.now) }
    {
        if other.protocol > 0 {
            return true;
        }
        is_below(other.end, self.start) || is_below(self.end, other.start)
    }
}

// An address is below another of the same width. By `<` on slices, which tells three answers apart for every byte, a
// value of ranges takes a quarter longer to judge.
fn is_below(a: &[u8], b: &[u8]) -> bool
    ensures { length a.now ≡ length b.now → result ≡ ltb (num a.now) (num b.now) }
{
    for (x, y) in a.iter().zip(b) {
        if x != y {
            return x < y;
        }
    }
    false
}

// The range at a place, whose addresses have `width` bytes. A place and a width, not a slice, here and below: the
// search needs the range at any multiple of its size from the first on.
fn lent(value: &[u8], at: usize, width: usize) -> RangeBytes<'_>
    requires { at + (width + width + 2) ≤ length value.now }
    ensures { Lent value.now at width result }
{
    let end = at + 1 + width;
    RangeBytes {
        version: value[at],
        start: &value[at + 1..end],
        end: &value[end..end + width],
        protocol: value[end + width],
    }
}

// Where the ranges of a version start, if those of the version before start at `from`.
fn start_of(previous: Option<RangeBytes<'_>>, version: u8, from: usize, at: usize) -> usize
    ensures { result ≡ started_at previous.entry version from at }
{
    match previous {
        None => from,
        Some(range) => { if range.version == version { from } else { at } }
    }
}

// The range at `at` keeps the rules with those before it; those of its version start at `start`.
fn is_fit(
    value: &[u8],
    start: usize,
    previous: Option<RangeBytes<'_>>,
    at: usize,
    width: usize,
) -> bool
    requires { (start ≤ at) × (at + (width + width + 2) ≤ length value.now) }
    ensures { (st : Seen) → Preceded st.previous previous.entry → width ≡ width_of (get_or value.now at 0) → Stands value.now width start (same_of st.previous st.same (range_in value.now at width)) at → Rising value.now width start (length (same_of st.previous st.same (range_in value.now at width))) → result ≡ fits st (range_in value.now at width) }
{
    let range = lent(value, at, width);
    if range.is_turned() {
        return false;
    }
    let Some(before) = previous else {
        return true;
    };
    if !before.is_before(&range) {
        return false;
    }
    let for_all = range.protocol == 0;
    if for_all {
        return true;
    }
    clear_from_all(value, at, start, width)
}

// The range at `at` is clear from each of those that stand from `from` on: from the first that is not low, since they
// rise. Searched by hand: `partition_point` is of slices, and how many bytes a range has is known at run time only.
fn clear_from_all(value: &[u8], at: usize, from: usize, width: usize) -> bool
    requires { (from ≤ at) × (at + (width + width + 2) ≤ length value.now) }
    ensures { (same : List Range) → Stands value.now width from same at → Rising value.now width from (length same) → result ≡ all_of (clear_from (range_in value.now at width)) same }
{
    let range = lent(value, at, width);
    let size = width + width + 2;
    let count = (at - from) / size;
    let mut low = 0;
    let mut high = count;
    while low < high {
        let middle = (low + high) / 2;
        let other = lent(value, from + middle * size, width);
        if other.is_low(&range) {
            low = middle + 1;
            continue;
        }
        high = middle;
    }
    if low == count {
        return true;
    }
    let other = lent(value, from + low * size, width);
    range.is_clear_from(&other)
}
