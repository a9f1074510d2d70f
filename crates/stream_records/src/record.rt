// A stream record: what the table holds of one request stream.
ghost use Rattle.std.specs.Prelude.{◌≡◌, ◌<◌};
ghost use Rattle.stream_records.specs.Records.{flag, flag_of, is_used, receive_open, send_open, has_semantics, opened, both_closed, is_blank, is_bad_record, holds, with_closed, closed_side};

use wire::units::Quarter;

#[repr(C)]
#[derive(Clone, Copy, PartialEq, Eq)]
pub struct StreamRecord {
    pub quarter: Quarter,
    // USED, RECEIVE, SEND and SEMANTICS; the other bits mean nothing
    pub flags: u64,
}

#[derive(Clone, Copy)]
pub enum Side {
    Receive,
    Send,
}

impl StreamRecord {
    // the most that a table holds
    pub const MAX_RECORDS: usize = 64;

    pub const USED: u64 = 1;

    // the receive side is open
    pub const RECEIVE: u64 = 2;

    // the send side is open
    pub const SEND: u64 = 4;

    // the request has semantics for datagrams
    pub const SEMANTICS: u64 = 8;

    // A free place.
    pub const BLANK: StreamRecord = StreamRecord {
        quarter: Quarter(0),
        flags: 0,
    };

    // A stream that was just opened. `semantics` is what is stored, as a flag of the record.
    pub fn open(quarter: Quarter, semantics: bool) -> StreamRecord
        ensures { result ≡ opened quarter semantics }
    {
        let open = Self::USED + Self::RECEIVE + Self::SEND;
        StreamRecord {
            quarter,
            flags: if semantics {
                open + Self::SEMANTICS
            } else {
                open
            },
        }
    }

    pub fn is_used(self) -> bool
        ensures { result ≡ is_used self }
    {
        self.has(Self::USED)
    }

    pub fn receive_open(self) -> bool
        ensures { result ≡ receive_open self }
    {
        self.has(Self::RECEIVE)
    }

    pub fn send_open(self) -> bool
        ensures { result ≡ send_open self }
    {
        self.has(Self::SEND)
    }

    pub fn has_semantics(self) -> bool
        ensures { result ≡ has_semantics self }
    {
        self.has(Self::SEMANTICS)
    }

    // Whether it is a used record of the quarter.
    #[tactic(auto, unfolding(crate::specs::Records::holds))]
    pub fn holds(self, quarter: Quarter) -> bool
        ensures { result ≡ holds quarter.0 self }
    {
        self.is_used() && self.quarter == quarter
    }

    // Whether it is the fixed blank, to the last bit.
    #[tactic(auto, unfolding(crate::specs::Records::is_blank))]
    pub fn is_blank(self) -> bool
        ensures { result ≡ is_blank self }
    {
        self == Self::BLANK
    }

    // Whether no good table has it.
    pub fn is_bad(self) -> bool
        ensures { result ≡ is_bad_record self }
    {
        if self.is_used() {
            self.quarter.0 > Quarter::MAX.0 || !(self.receive_open() || self.send_open())
        } else {
            !self.is_blank()
        }
    }

    // Whether both sides are closed once this one is.
    #[tactic(auto, using(crate::proofs::Flags::frees_receive, crate::proofs::Flags::frees_send))]
    pub fn frees(self, side: Side) -> bool
        ensures { result ≡ both_closed (with_closed side self) }
    {
        match side {
            Side::Receive => !self.send_open(),
            Side::Send => !self.receive_open(),
        }
    }

    // With one side closed, and the blank where both are.
    pub fn closed(self, side: Side) -> StreamRecord
        ensures { result ≡ closed_side side self }
    {
        if self.frees(side) {
            Self::BLANK
        } else {
            self.with_closed(side)
        }
    }

    // With one side closed, and no other bit changed.
    fn with_closed(self, side: Side) -> StreamRecord
        ensures { result ≡ with_closed side self }
    {
        let bit = side.flag();
        if self.has(bit) {
            StreamRecord {
                flags: self.flags - bit,
                ..self
            }
        } else {
            self
        }
    }

    // Whether a flag is set.
    #[tactic(auto, unfolding(crate::specs::Records::flag))]
    fn has(self, bit: u64) -> bool
        requires { 0 < bit }
        ensures { result ≡ flag bit self }
    {
        self.flags / bit % 2 == 1
    }
}

impl Side {
    // The flag of a record that says that it is open.
    fn flag(self) -> u64
        ensures { result ≡ flag_of self }
    {
        match self {
            Side::Receive => StreamRecord::RECEIVE,
            Side::Send => StreamRecord::SEND,
        }
    }
}
