// ADDRESS_ASSIGN, ADDRESS_REQUEST and ROUTE_ADVERTISEMENT capsules (RFC 9484, section 4.7), written from rows of
// records.
#![tactic(auto)]

ghost use Rattle.std.specs.Prelude.{◌≡◌, true};
ghost use Rattle.wire.specs.Writing.{writing};
ghost use Rattle.addresses.specs.Addresses.{assign, request};
ghost use Rattle.address_writer.specs.Writer.{write_value, write_addresses, write_routes};

use address_rows::{ENTRY_SIZE, RANGE_SIZE, ids_fit, put_entries, put_ranges};
use address_rules::well_formed;
use refusals::Refusal;
use wire::varint::{least_size, write_varint};

// Writes an ADDRESS_ASSIGN capsule.
pub fn write_assign(entries: &[u8], out: &mut [u8], place: usize) -> Result<usize, Refusal>
    ensures { writing result out.new ≡ write_addresses assign entries.now out.old place }
{
    write_addresses(1, entries, out, place)
}

// Writes an ADDRESS_REQUEST capsule.
pub fn write_request(entries: &[u8], out: &mut [u8], place: usize) -> Result<usize, Refusal>
    ensures { writing result out.new ≡ write_addresses request entries.now out.old place }
{
    write_addresses(2, entries, out, place)
}

// Writes a ROUTE_ADVERTISEMENT capsule.
pub fn write_routes(ranges: &[u8], out: &mut [u8], place: usize) -> Result<usize, Refusal>
    ensures { writing result out.new ≡ write_routes ranges.now out.old place }
{
    let whole = ranges.len() % RANGE_SIZE == 0;
    if !whole {
        return Err(Refusal::MALFORMED_TO_WRITE);
    }
    let mut value = [0u8; 1058];
    let size = put_ranges(ranges, &mut value);
    write_value(3, &value[..size], out, place)
}

fn write_addresses(ctype: u8, row: &[u8], out: &mut [u8], place: usize) -> Result<usize, Refusal>
    ensures { writing result out.new ≡ write_addresses ctype row.now out.old place }
{
    if !ids_fit(row) {
        return Err(Refusal::NUMBER_TOO_LARGE);
    }
    let whole = row.len() % ENTRY_SIZE == 0;
    if !whole {
        return Err(Refusal::MALFORMED_TO_WRITE);
    }
    let mut value = [0u8; 1058];
    let size = put_entries(row, &mut value);
    write_value(ctype, &value[..size], out, place)
}

// A value of whole records, as a capsule. Surplus bytes are refused before the value is put together.
fn write_value(ctype: u8, value: &[u8], out: &mut [u8], place: usize) -> Result<usize, Refusal>
    ensures { writing result out.new ≡ write_value true ctype value.now out.old place }
{
    if !well_formed(u64::from(ctype), value) {
        return Err(Refusal::MALFORMED_TO_WRITE);
    }
    let size = value.len();
    let head = 1 + least_size(size as u64);
    if place > out.len() {
        return Err(Refusal::OUTPUT_TOO_SHORT);
    }
    if out.len() - place < head + size {
        return Err(Refusal::OUTPUT_TOO_SHORT);
    }
    out[place] = ctype;
    let _ = write_varint(size as u64, out, place + 1);
    copying::copy_span(value, 0, out, place + head, size);
    Ok(head + size)
}
