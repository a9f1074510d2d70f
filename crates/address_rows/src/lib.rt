// Rows of records (RFC 9484, section 4.7), lent by a host: the value of an address capsule put together from them.
#![tactic(auto)]

ghost use Rattle.std.specs.Prelude.{◌≡◌, Bool, true, false, [], ◌∷◌, ◌+◌, ◌≤◌, ◌<◌, length, take};
ghost use Rattle.addresses.specs.Addresses.{width_of, all_of};
ghost use Rattle.address_rows.specs.Rows.{little_endian, entries_in, id_fits};
ghost use Rattle.address_rows.specs.Putting.{Put, size_in, id_bytes, record_bytes, gathering, put_records, entry_record, range_record};

use addresses::width_of;
use opening::Kind;
use wire::varint::{Varint, write_varint};

// How many bytes a record of an address has, and one of a range.
pub const ENTRY_SIZE: usize = 32;

pub const RANGE_SIZE: usize = 34;

// Whether a varint holds the request ID of every record.
pub fn ids_fit(row: &[u8]) -> bool
    ensures { result ≡ all_of id_fits (entries_in row.now) }
{
    let (records, _) = row.as_chunks::<ENTRY_SIZE>();
    for record in records {
        if request_id(record) > Varint::MAX {
            return false;
        }
    }
    true
}

// ---- a value put together: all records, or so many that the value is too long

// 1,058 bytes are room enough, and in fewer nothing is put. Two names for callers, over one function.
pub fn put_entries(row: &[u8], out: &mut [u8]) -> usize
    ensures bytes { gathering result out.new ≡ put_records false row.now out.old }
    ensures within { result ≤ length out.new }
{
    put_records::<Entries, ENTRY_SIZE>(row, out)
}

pub fn put_ranges(row: &[u8], out: &mut [u8]) -> usize
    ensures bytes { gathering result out.new ≡ put_records true row.now out.old }
    ensures within { result ≤ length out.new }
{
    put_records::<Ranges, RANGE_SIZE>(row, out)
}

fn put_records<R: Record<N>, const N: usize>(row: &[u8], out: &mut [u8]) -> usize
    ensures bytes { gathering result out.new ≡ put_records R.routes row.now out.old }
    ensures within { result ≤ length out.new }
{
    if out.len() < 1058 {
        return 0;
    }
    let (records, _) = row.as_chunks::<N>();
    let mut at: usize = 0;
    for record in records {
        if (at as u64) > Kind::LONGEST_ADDRESS_VALUE {
            return at;
        }
        at = R::put(record, out, at);
    }
    at
}

// ---- a record; each of these puts bytes at a place where there is room, and answers the place after them

// Records of N bytes: of ranges (`routes`), or of addresses. An output and a place in it, here and below: what was put
// before stays.
trait Record<const N: usize> {
    ghost routes: { Bool };

    fn put(bytes: &[u8; N], out: &mut [u8], at: usize) -> usize
        requires { at + 34 ≤ length out.old }
        ensures { Put (record_bytes routes bytes.now) out.old at out.new result × (result ≤ at + 34) };

    ghost size: { N ≡ size_in routes };
}

struct Entries;

impl Record<ENTRY_SIZE> for Entries {
    ghost routes = { false };

    ghost size = { entry_record };

    fn put(bytes: &[u8; ENTRY_SIZE], out: &mut [u8], at: usize) -> usize {
        let version = bytes[8];
        let a = put_number(request_id(bytes), out, at);
        let b = put_byte(version, out, a);
        let c = put_address(version, &bytes[10..], out, b);
        put_byte(bytes[9], out, c)
    }
}

struct Ranges;

impl Record<RANGE_SIZE> for Ranges {
    ghost routes = { true };

    ghost size = { range_record };

    fn put(bytes: &[u8; RANGE_SIZE], out: &mut [u8], at: usize) -> usize {
        let version = bytes[0];
        let a = put_byte(version, out, at);
        let b = put_address(version, &bytes[2..], out, a);
        let c = put_address(version, &bytes[18..], out, b);
        put_byte(bytes[1], out, c)
    }
}

// The least significant byte stands first.
fn request_id(bytes: &[u8; ENTRY_SIZE]) -> u64
    ensures { result ≡ little_endian (take 8 bytes.now) }
{
    let mut id = [0u8; 8];
    id.copy_from_slice(&bytes[..8]);
    u64::from_le_bytes(id)
}

fn put_byte(b: u8, out: &mut [u8], at: usize) -> usize
    requires { at + 1 ≤ length out.old }
    ensures { Put (b ∷ []) out.old at out.new result }
{
    out[at] = b;
    at + 1
}

// An address, of no version none. With a length told at run time each copy is a call, and a record takes 1.7 to 2.6
// times as long to put.
fn put_address(version: u8, address: &[u8], out: &mut [u8], at: usize) -> usize
    requires { (16 ≤ length address.now) × (at + 16 ≤ length out.old) }
    ensures { Put (take (width_of version) address.now) out.old at out.new result }
{
    match version {
        4 => {
            out[at..at + 4].copy_from_slice(&address[..4]);
            at + 4
        }
        6 => {
            out[at..at + 16].copy_from_slice(&address[..16]);
            at + 16
        }
        _ => at,
    }
}

// An ID; of one that no varint holds, nothing.
fn put_number(n: u64, out: &mut [u8], at: usize) -> usize
    requires { at + 8 ≤ length out.old }
    ensures { Put (id_bytes n) out.old at out.new result × (result ≤ at + 8) }
{
    match write_varint(n, out, at) {
        Ok(size) => at + size,
        Err(_) => at,
    }
}
