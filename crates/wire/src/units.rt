// Stream IDs and quarter stream IDs (RFC 9297, section 2.1). Either holds any number: whether it is one is asked where
// it is converted.
ghost use Rattle.std.specs.Prelude.{◌≡◌};
ghost use Rattle.wire.specs.Units.{quarter_of, stream_of};

use crate::varint::Varint;

// Tuple structs are a form that the project's scope names (docs/PROMISES.md).
#[derive(Clone, Copy, Debug, PartialEq, Eq)]
pub struct StreamId(pub u64);

#[repr(C)]
#[derive(Clone, Copy, Debug, PartialEq, Eq)]
pub struct Quarter(pub u64);

impl StreamId {
    pub const MAX: StreamId = StreamId(Varint::MAX);

    // The quarter of a request stream's ID.
    #[tactic(auto, unfolding(crate::specs::Units::quarter_of, crate::specs::Units::is_request))]
    pub fn quarter(self) -> Option<Quarter>
        ensures { result ≡ quarter_of self }
    {
        if self.0 <= StreamId::MAX.0 && self.0 % 4 == 0 {
            Some(Quarter(self.0 / 4))
        } else {
            None
        }
    }
}

impl Quarter {
    pub const MAX: Quarter = Quarter(Varint::MAX / 4);

    // The ID of the request stream whose quarter this is.
    #[tactic(auto, unfolding(crate::specs::Units::stream_of, crate::specs::Units::largest_quarter))]
    pub fn stream(self) -> Option<StreamId>
        ensures { result ≡ stream_of self }
    {
        if self.0 <= Quarter::MAX.0 {
            Some(StreamId(self.0 * 4))
        } else {
            None
        }
    }
}
