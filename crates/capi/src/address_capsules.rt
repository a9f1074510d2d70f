// Address capsules: values checked, their entries handed out, and whole capsules written.
ghost use Rattle.std.specs.Prelude.{◌≡◌};
ghost use Rattle.addresses.specs.Addresses.{assign, request, well_formed};
ghost use Rattle.address_cursor.specs.Handing.{next_address, next_range};
ghost use Rattle.address_writer.specs.Writer.{write_addresses, write_routes};
ghost use Rattle.reader_words.specs.Numbers.{bit_of};
ghost use Rattle.capi.specs.Varint.{wrote, wrote_by};
ghost use Rattle.answers.specs.AddressCapsules.{cursor, address_found, route_found};

use address_cursor::{Cursor, next_address, next_range};
use address_rules::well_formed;
use address_writer::{write_assign, write_request, write_routes};
use answers::address_capsules::{AddressFound, RouteFound, address_found, route_found};
use answers::varint::{WrittenAnswer, written_answer};
use reader_words::numbers::bit_of;

// What looks alike here is alike for C alone: each exported name is a function, with the parameters of the header in
// its order.
#[unsafe(no_mangle)]
pub extern "C" fn mrz_address_value_good(ctype: u64, value: &[u8]) -> u64
    ensures { result ≡ bit_of (well_formed ctype value.now) }
{
    bit_of(well_formed(ctype, value))
}

#[unsafe(no_mangle)]
pub extern "C" fn mrz_address_next(value: &[u8], at: u64) -> AddressFound
    ensures { result ≡ address_found (cursor at) (next_address value.now (cursor at)) }
{
    let cursor = Cursor { at: at as usize };
    address_found(cursor, next_address(value, cursor))
}

#[unsafe(no_mangle)]
pub extern "C" fn mrz_route_next(value: &[u8], at: u64) -> RouteFound
    ensures { result ≡ route_found (cursor at) (next_range value.now (cursor at)) }
{
    let cursor = Cursor { at: at as usize };
    route_found(cursor, next_range(value, cursor))
}

#[unsafe(no_mangle)]
pub extern "C" fn mrz_write_address_assign(
    entries: &[u8],
    out: &mut [u8],
    place: u64,
) -> WrittenAnswer
    ensures { wrote result out.new ≡ wrote_by (write_addresses assign entries.now out.old place) }
{
    let written = write_assign(entries, out, place as usize);
    written_answer(written)
}

#[unsafe(no_mangle)]
pub extern "C" fn mrz_write_address_request(
    entries: &[u8],
    out: &mut [u8],
    place: u64,
) -> WrittenAnswer
    ensures { wrote result out.new ≡ wrote_by (write_addresses request entries.now out.old place) }
{
    let written = write_request(entries, out, place as usize);
    written_answer(written)
}

#[unsafe(no_mangle)]
pub extern "C" fn mrz_write_route_advertisement(
    ranges: &[u8],
    out: &mut [u8],
    place: u64,
) -> WrittenAnswer
    ensures { wrote result out.new ≡ wrote_by (write_routes ranges.now out.old place) }
{
    let written = write_routes(ranges, out, place as usize);
    written_answer(written)
}
