// What opening a reader fixes, and what it makes of a capsule's type.
#![tactic(auto)]

ghost use Rattle.std.specs.Prelude.{◌≡◌, ◌&&◌};
ghost use Rattle.addresses.specs.Addresses.{is_address_type};
ghost use Rattle.opening.specs.Kinds.{opted, kind_of, extent_of, report_of, forwards, gathers, keeps, finishes};
ghost use Rattle.opening.specs.Lent.{lent_verdict};

use refusals::Refusal;

#[derive(Clone, Copy, Debug, PartialEq, Eq)]
pub enum Role {
    Endpoint,
    Intermediary,
}

#[derive(Clone, Copy, Debug, PartialEq, Eq)]
pub struct Opening {
    pub role: Role,
    // the longest DATAGRAM that is delivered
    pub limit: u64,
    // whether the DATAGRAM type of draft 05 counts
    pub draft: bool,
    // whether an endpoint takes RFC 9484's address capsules
    pub addresses: bool,
}

#[derive(Clone, Copy, Debug, PartialEq, Eq)]
pub enum Kind {
    Datagram,
    Address,
    Unknown,
}

// What is said of a capsule that has ended: its length, and before it its type unless it is a DATAGRAM.
#[derive(Clone, Copy, Debug, PartialEq, Eq)]
pub enum Report {
    Delivered { length: u64 },
    Dropped { length: u64 },
    Skipped { ctype: u64, length: u64 },
    Passed { ctype: u64, length: u64 },
    AddressDelivered { ctype: u64, length: u64 },
    Malformed { ctype: u64, length: u64 },
}

impl Opening {
    pub const MAX_LIMIT: u64 = 65535;

    // Whether the bytes of a capsule of this type go to the output.
    #[tactic(auto, unfolding(crate::specs::Kinds::forwards, crate::specs::Kinds::forwards_by))]
    pub fn forwards(self, ctype: u64) -> bool
        ensures { result ≡ forwards self ctype }
    {
        self.role == Role::Intermediary && self.kind(ctype) == Kind::Unknown
    }

    // Whether the value of such a capsule goes to the gathering buffer.
    #[tactic(auto, unfolding(crate::specs::Kinds::gathers, crate::specs::Kinds::gathers_by))]
    pub fn gathers(self, ctype: u64, length: u64) -> bool
        ensures { result ≡ gathers self ctype length }
    {
        self.kind(ctype) == Kind::Datagram && length <= self.limit
    }

    // Whether the value of such a capsule goes to the second buffer.
    #[tactic(auto, unfolding(crate::specs::Kinds::keeps, crate::specs::Kinds::keeps_by, addresses::specs::Addresses::longest_address_value))]
    pub fn keeps(self, ctype: u64, length: u64) -> bool
        ensures { result ≡ keeps self ctype length }
    {
        self.kind(ctype) == Kind::Address && length <= Kind::LONGEST_ADDRESS_VALUE
    }

    // How many value bytes complete such a capsule.
    #[tactic(auto, unfolding(crate::specs::Kinds::extent_of, crate::specs::Kinds::extent_by, addresses::specs::Addresses::longest_address_value))]
    pub fn extent(self, ctype: u64, length: u64) -> u64
        ensures { result ≡ extent_of self ctype length }
    {
        if self.kind(ctype) == Kind::Address && length > Kind::LONGEST_ADDRESS_VALUE {
            return 0;
        }
        length
    }

    // Type 0 is asked first and alone, and `lent_verdict` goes by the role: so a feeding takes up to 11 of some 150
    // instructions less than with both DATAGRAM types in one test and the role asked for twice.
    #[tactic(auto, using(crate::proofs::Kinding::kind_address), unfolding(crate::specs::Kinds::kind_of))]
    pub fn kind(self, ctype: u64) -> Kind
        ensures { result ≡ kind_of self ctype }
    {
        if ctype == Kind::DATAGRAM {
            Kind::Datagram
        } else if self.takes_addresses(ctype) {
            Kind::Address
        } else if self.draft && ctype == Kind::DRAFT_DATAGRAM {
            Kind::Datagram
        } else {
            Kind::Unknown
        }
    }

    // What is reported of a capsule of this type and length when it ends; the value of an address capsule is still to
    // be judged.
    #[tactic(auto, unfolding(crate::specs::Kinds::report_of, crate::specs::Kinds::report_by, addresses::specs::Addresses::longest_address_value))]
    pub fn report(self, ctype: u64, length: u64) -> Report
        ensures { result ≡ report_of self ctype length }
    {
        match self.kind(ctype) {
            Kind::Datagram if length <= self.limit => Report::Delivered { length },
            Kind::Datagram => Report::Dropped { length },
            Kind::Address if length <= Kind::LONGEST_ADDRESS_VALUE => Report::AddressDelivered {
                ctype,
                length,
            },
            Kind::Address => Report::Malformed { ctype, length },
            Kind::Unknown => match self.role {
                Role::Endpoint => Report::Skipped { ctype, length },
                Role::Intermediary => Report::Passed { ctype, length },
            },
        }
    }

    // Whether this type is an address capsule's, and those are taken.
    #[tactic(auto, unfolding(addresses::specs::Addresses::is_address_type))]
    fn takes_addresses(self, ctype: u64) -> bool
        ensures { result ≡ opted self && is_address_type ctype }
    {
        self.opted() && ctype != Kind::DATAGRAM && ctype <= Kind::ROUTE_ADVERTISEMENT
    }

    // Address capsules are for endpoints that opted in.
    #[tactic(auto, unfolding(crate::specs::Kinds::opted, crate::specs::Kinds::opted_by))]
    fn opted(self) -> bool
        ensures { result ≡ opted self }
    {
        self.role == Role::Endpoint && self.addresses
    }
}

impl Kind {
    // RFC 9297, section 3.5
    pub const DATAGRAM: u64 = 0x00;

    // RFC 9484, section 4.7: types 1 to 3 are ADDRESS_ASSIGN, ADDRESS_REQUEST and ROUTE_ADVERTISEMENT
    pub const ROUTE_ADVERTISEMENT: u64 = 0x03;

    // the longest value of an address capsule that is not malformed (house)
    pub const LONGEST_ADDRESS_VALUE: u64 = 1024;

    // draft-ietf-masque-h3-datagram-05
    pub const DRAFT_DATAGRAM: u64 = 0xff37a5;
}

// What the lengths of the piece and of the lent buffers refuse.
#[tactic(auto, unfolding(crate::specs::Lent::lent_verdict, crate::specs::Lent::addresses_verdict, crate::specs::Lent::output_verdict, crate::specs::Kinds::opted, crate::specs::Kinds::opted_by, addresses::specs::Addresses::longest_address_value))]
pub fn lent_verdict(
    op: Opening,
    piece: usize,
    gathering: usize,
    addresses: usize,
    output: usize,
) -> Result<(), Refusal>
    ensures { result ≡ lent_verdict op piece gathering addresses output }
{
    if (gathering as u64) < op.limit {
        return Err(Refusal::GATHERING_TOO_SHORT);
    }
    match op.role {
        Role::Endpoint => {
            if op.addresses && (addresses as u64) < Kind::LONGEST_ADDRESS_VALUE {
                return Err(Refusal::ADDRESSES_TOO_SHORT);
            }
        }
        Role::Intermediary => {
            if output < 8 || output - 8 < piece {
                return Err(Refusal::OUTPUT_TOO_SHORT);
            }
        }
    }
    Ok(())
}

// Whether nothing may follow.
#[tactic(auto, unfolding(crate::specs::Kinds::finishes))]
pub fn is_last_report(report: Report) -> bool
    ensures { result ≡ finishes report }
{
    matches!(report, Report::Malformed { .. })
}
