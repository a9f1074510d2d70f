// The entries of RFC 9484's address capsules (section 4.7), handed out one after another.
#![tactic(auto)]

ghost use Rattle.std.specs.Prelude.{◌≡◌, ◌+◌, ◌≤◌, length};
ghost use Rattle.address_cursor.specs.Handing.{padded, next_address, next_range};

use addresses::{Malformed, entry_at, range_at};

// A place in a value; a reading starts at 0.
#[derive(Clone, Copy)]
pub struct Cursor {
    pub at: usize,
}

// What stands at a place, and the place behind it.
#[derive(Clone, Copy)]
pub struct Next<T> {
    pub entry: T,
    pub next: Cursor,
}

// An address of IP version 4 is the first four bytes, and the others are 0.
#[derive(Clone, Copy)]
pub struct Address {
    pub id: u64,
    pub version: u8,
    pub bytes: [u8; 16],
    pub prefix: u8,
}

#[derive(Clone, Copy)]
pub struct AddressRange {
    pub version: u8,
    pub start: [u8; 16],
    pub end: [u8; 16],
    pub protocol: u8,
}

// The entry of an ADDRESS_ASSIGN or ADDRESS_REQUEST at a place; none at the value's end or behind it.
pub fn next_address(value: &[u8], cursor: Cursor) -> Result<Option<Next<Address>>, Malformed>
    ensures { result ≡ next_address value.now cursor }
{
    let Some(entry) = entry_at(value, cursor.at)? else {
        return Ok(None);
    };
    Ok(Some(Next {
        entry: Address {
            id: entry.id,
            version: entry.version,
            bytes: address_bytes(entry.address),
            prefix: entry.prefix,
        },
        next: Cursor { at: entry.next },
    }))
}

// The range of a ROUTE_ADVERTISEMENT at a place; none at the value's end or behind it.
pub fn next_range(value: &[u8], cursor: Cursor) -> Result<Option<Next<AddressRange>>, Malformed>
    ensures { result ≡ next_range value.now cursor }
{
    let at = cursor.at;
    let Some(width) = range_at(value, at)? else {
        return Ok(None);
    };
    Ok(Some(Next {
        entry: AddressRange {
            version: value[at],
            start: address_bytes(&value[at + 1..at + 1 + width]),
            end: address_bytes(&value[at + 1 + width..at + 1 + width + width]),
            protocol: value[at + 1 + width + width],
        },
        next: Cursor {
            at: at + (width + width + 2),
        },
    }))
}

// An address of at most 16 bytes, and zeros behind it.
fn address_bytes(address: &[u8]) -> [u8; 16]
    requires { length address.now ≤ 16 }
    ensures { result ≡ padded address.now }
{
    let mut out = [0u8; 16];
    out[..address.len()].copy_from_slice(address);
    out
}
