// Entries of an address capsule's value, in the header's form.
ghost use Rattle.std.specs.Prelude.{◌≡◌};
ghost use Rattle.answers.specs.AddressCapsules.{address_entry, address_found, route_entry, route_found};

use address_cursor::{Address, AddressRange, Cursor, Next};
use addresses::Malformed;

// address: of IP version 4 its first four bytes, the others 0; reserved: 0
#[repr(C)]
#[derive(Clone, Copy, Default)]
pub struct AddressEntry {
    pub id: u64,
    pub version: u8,
    pub prefix: u8,
    pub address: [u8; 16],
    pub reserved: [u8; 6],
}

#[repr(C)]
#[derive(Clone, Copy, Default)]
pub struct RouteEntry {
    pub version: u8,
    pub protocol: u8,
    pub start: [u8; 16],
    pub end: [u8; 16],
}

// found: 0 none, 1 an entry, 2 malformed. Two structs of the C interface, so that each has a function that makes it;
// the number beside the entry is what C reads.
#[repr(C)]
#[derive(Clone, Copy)]
pub struct AddressFound {
    pub found: u64,
    pub next: u64,
    pub address: AddressEntry,
}

#[repr(C)]
#[derive(Clone, Copy)]
pub struct RouteFound {
    pub found: u64,
    pub next: u64,
    pub route: RouteEntry,
}

impl From<Address> for AddressEntry {
    #[tactic(auto, unfolding(crate::specs::AddressCapsules::address_entry))]
    fn from(address: Address) -> Self
        ensures { result ≡ address_entry address }
    {
        let bytes = address.bytes;
        AddressEntry {
            id: address.id,
            version: address.version,
            prefix: address.prefix,
            address: bytes,
            reserved: [0u8; 6],
        }
    }
}

impl From<AddressRange> for RouteEntry {
    #[tactic(auto, unfolding(crate::specs::AddressCapsules::route_entry))]
    fn from(range: AddressRange) -> Self
        ensures { result ≡ route_entry range }
    {
        let start = range.start;
        let end = range.end;
        RouteEntry {
            version: range.version,
            protocol: range.protocol,
            start,
            end,
        }
    }
}

// Where no entry stands, its fields are 0, and the place stays.
#[tactic(auto, using(crate::proofs::Blanks::address_blank), unfolding(crate::specs::AddressCapsules::found_number, crate::specs::AddressCapsules::next_place, crate::specs::AddressCapsules::address_found, crate::specs::AddressCapsules::address_answered))]
pub fn address_found(
    cursor: Cursor,
    stepped: Result<Option<Next<Address>>, Malformed>,
) -> AddressFound
    ensures { result ≡ address_found cursor stepped }
{
    let Ok(step) = stepped else {
        return AddressFound {
            found: 2,
            next: cursor.at as u64,
            address: AddressEntry::default(),
        };
    };
    let Some(step) = step else {
        return AddressFound {
            found: 0,
            next: cursor.at as u64,
            address: AddressEntry::default(),
        };
    };
    AddressFound {
        found: 1,
        next: step.next.at as u64,
        address: AddressEntry::from(step.entry),
    }
}

#[tactic(auto, using(crate::proofs::Blanks::route_blank), unfolding(crate::specs::AddressCapsules::found_number, crate::specs::AddressCapsules::next_place, crate::specs::AddressCapsules::route_found, crate::specs::AddressCapsules::route_answered))]
pub fn route_found(
    cursor: Cursor,
    stepped: Result<Option<Next<AddressRange>>, Malformed>,
) -> RouteFound
    ensures { result ≡ route_found cursor stepped }
{
    let Ok(step) = stepped else {
        return RouteFound {
            found: 2,
            next: cursor.at as u64,
            route: RouteEntry::default(),
        };
    };
    let Some(step) = step else {
        return RouteFound {
            found: 0,
            next: cursor.at as u64,
            route: RouteEntry::default(),
        };
    };
    RouteFound {
        found: 1,
        next: step.next.at as u64,
        route: RouteEntry::from(step.entry),
    }
}
