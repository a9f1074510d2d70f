// Values of RFC 9484's address capsules (section 4.7).
#![tactic(auto)]

ghost use Rattle.std.specs.Prelude.{◌≡◌, cond, ◌-◌, ◌%◌, ◌^◌, ◌≤◌, length, drop, eqb};
ghost use Rattle.addresses.specs.Addresses.{width_of, clear_beyond, good_entry, asks, all_of, are_good, entries, address_at, entry_at};
ghost use Rattle.addresses.specs.Places.{EntryRead, RangeRead, some_entry};

use wire::varint::read_varint;

// An entry of a value, which goes on at `next`.
#[derive(Clone, Copy)]
pub struct Entry<'a> {
    pub id: u64,
    pub version: u8,
    pub address: &'a [u8],
    pub prefix: u8,
    pub next: usize,
}

impl Entry<'_> {
    ghost use Rattle.std.specs.Prelude.{◌≡◌, ◌≤◌, length};
    ghost use Rattle.addresses.specs.Addresses.{width_of, good_entry};
    ghost use Rattle.addresses.specs.Places.{entry_lent};

    // The prefix is no longer than the address, whose bits beyond it are all 0.
    fn is_good(&self) -> bool
        requires { (length self.now.address.now ≡ width_of self.now.version) × (length self.now.address.now ≤ 16) }
        ensures { result ≡ good_entry (entry_lent self.now) }
    {
        let prefix = u64::from(self.prefix);
        prefix <= 8 * (self.address.len() as u64) && clear_beyond(self.address, prefix)
    }
}

// No whole entry or range starts at a place.
#[derive(Clone, Copy)]
pub struct Malformed;

// ---- entries

// The entry at a place; none at the value's end or behind it.
pub fn entry_at(value: &[u8], at: usize) -> Result<Option<Entry<'_>>, Malformed>
    ensures { EntryRead (entry_at (drop at value.now)) value.now at result }
{
    if at >= value.len() {
        return Ok(None);
    }
    match read_varint(&value[at..]) {
        None => Err(Malformed),
        Some(id) => Ok(Some(address_at(value, id.value, at + id.size)?)),
    }
}

// Every entry is good, and of an ADDRESS_REQUEST (`asking`) its request ID is not 0. The loop goes on where each entry
// says, which an iterator would have to keep too; `asking` adds one test, and a closure for it would be no plainer.
pub fn good_entries(value: &[u8], asking: bool) -> bool
    ensures { result ≡ are_good (all_of (cond asking asks good_entry)) (entries entry_at value.now) }
{
    let mut at = 0;
    loop {
        match entry_at(value, at) {
            Ok(None) => return true,
            Err(Malformed) => return false,
            Ok(Some(entry)) => {
                if asking && entry.id == 0 {
                    return false;
                }
                if !entry.is_good() {
                    return false;
                }
                at = entry.next;
            }
        }
    }
}

// ---- ranges

// How many bytes the addresses of the range at a place have; none at the value's end or behind it. It answers a width
// and no struct: the width is what `address_rules` searches by.
pub fn range_at(value: &[u8], at: usize) -> Result<Option<usize>, Malformed>
    ensures { RangeRead value.now at result }
{
    if at >= value.len() {
        return Ok(None);
    }
    let width = width_of(value[at]);
    if width == 0 || value.len() - at - 1 <= width + width {
        return Err(Malformed);
    }
    Ok(Some(width))
}

// Where an entry goes on behind its request ID. The value and a place in it: the entry's end is told as a place of the
// value.
fn address_at(value: &[u8], id: u64, at: usize) -> Result<Entry<'_>, Malformed>
    requires { at ≤ length value.now }
    ensures { EntryRead (address_at id (drop at value.now)) value.now at (some_entry result) }
{
    if at == value.len() {
        return Err(Malformed);
    }
    let version = value[at];
    let width = width_of(version);
    let start = at + 1;
    if width == 0 || value.len() - start <= width {
        return Err(Malformed);
    }
    Ok(Entry {
        id: id,
        version: version,
        address: &value[start..start + width],
        prefix: value[start + width],
        next: start + width + 1,
    })
}

// How many bytes an address has, by its IP version; 0 for no version. A number and no Option: no address has 0 bytes,
// and callers compare it, take it twice and add it.
pub fn width_of(version: u8) -> usize
    ensures { (result ≡ width_of version) × (result ≤ 16) }
{
    if version == 4 {
        4
    } else if version == 6 {
        16
    } else {
        0
    }
}

// The bits of an address beyond the first `prefix` are all 0: of the byte that the prefix ends in those behind it, and
// all bytes after that.
fn clear_beyond(address: &[u8], prefix: u64) -> bool
    ensures { result ≡ clear_beyond prefix address.now }
{
    let whole = (prefix / 8) as usize;
    if whole >= address.len() {
        return true;
    }
    if !clear_byte(address[whole], prefix % 8) {
        return false;
    }
    for b in &address[whole + 1..] {
        if *b != 0 {
            return false;
        }
    }
    true
}

// The last 8 - p bits of a byte are 0.
#[tactic(auto, using(crate::proofs::Runs::shift_is, crate::proofs::Runs::shift_pos, crate::proofs::Runs::clear_whole))]
fn clear_byte(b: u8, p: u64) -> bool
    ensures { result ≡ eqb (b % 2 ^ (8 - p)) 0 }
{
    if p >= 8 {
        return true;
    }
    u64::from(b) % (1u64 << (8 - p)) == 0
}
