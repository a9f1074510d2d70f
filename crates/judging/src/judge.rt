// A received QUIC DATAGRAM payload, judged by what the stream table has of its quarter.
ghost use Rattle.std.specs.Prelude.{◌≡◌, ◌-◌};
ghost use Rattle.wire.specs.Varint.{read_varint};
ghost use Rattle.judging.specs.Judging.{judged_record, judged_entry, if_within, is_delivered, if_delivered, after_quarter};
ghost use Rattle.judging.specs.Code.{asked_in, judged_by, payload_by};

use opening::Opening;
use refusals::Refusal;
use stream_records::answers::Entry;
use stream_records::record::StreamRecord;
use wire::units::Quarter;
use wire::varint::read_varint;

// Document 01's eight rules, in their order: the quarter where one was read, the place of the stream's record where
// one was found.
#[derive(Clone, Copy)]
pub enum Judged {
    ShortFrame,
    QuarterTooLarge { quarter: Quarter },
    BeyondLimit { quarter: Quarter },
    NoStream { quarter: Quarter },
    ReceiveClosed { quarter: Quarter, place: usize },
    NoSemantics { quarter: Quarter, place: usize },
    TooLong { quarter: Quarter, place: usize },
    Delivered { quarter: Quarter, place: usize },
}

impl Judged {
    // The stream limit where none is known, which is also the largest.
    pub const UNKNOWN_STREAMS: u64 = 1152921504606846976;
}

// Whether it is rule 8.
#[tactic(auto, unfolding(crate::specs::Judging::is_delivered))]
pub fn is_delivered(judged: Result<Judged, Refusal>) -> bool
    ensures { result ≡ is_delivered judged }
{
    matches!(judged, Ok(Judged::Delivered { .. }))
}

// The quarter to look for.
#[tactic(auto, unfolding(crate::specs::Code::asked_in))]
pub fn asked(frame: &[u8]) -> Quarter
    ensures { result ≡ record { 0 = asked_in (read_varint frame.now) } }
{
    match read_varint(frame) {
        None => Quarter(0),
        Some(read) => Quarter(read.value),
    }
}

#[tactic(auto, unfolding(crate::specs::Code::judged_by, crate::specs::Code::judged_read_by))]
pub fn judge_by(
    lookup: Result<Option<Entry>, Refusal>,
    streams: u64,
    limit: u64,
    frame: &[u8],
) -> Result<Judged, Refusal>
    ensures { result ≡ judged_by lookup streams limit frame.now }
{
    let entry = lookup?;
    if limit > Opening::MAX_LIMIT {
        return Err(Refusal::LIMIT_TOO_LARGE);
    }
    if streams > Judged::UNKNOWN_STREAMS {
        return Err(Refusal::NUMBER_TOO_LARGE);
    }
    let Some(read) = read_varint(frame) else {
        return Ok(Judged::ShortFrame);
    };
    let rest = frame.len() - read.size;
    Ok(judge_quarter(entry, streams, limit, read.value, rest as u64))
}

#[tactic(auto, unfolding(crate::specs::Code::payload_by))]
pub fn payload_by<'a>(
    lookup: Result<Option<Entry>, Refusal>,
    streams: u64,
    limit: u64,
    frame: &'a [u8],
) -> &'a [u8]
    ensures { result.now ≡ payload_by lookup streams limit frame.now }
{
    part(judge_by(lookup, streams, limit, frame), frame)
}

// Rules 2 to 8.
#[tactic(auto, unfolding(wire::specs::Units::largest_quarter))]
fn judge_quarter(entry: Option<Entry>, streams: u64, limit: u64, q: u64, rest: u64) -> Judged
    ensures { result ≡ if_within streams q (judged_entry entry q limit rest) }
{
    if q > Quarter::MAX.0 {
        return Judged::QuarterTooLarge {
            quarter: Quarter(q),
        };
    }
    if q >= streams {
        return Judged::BeyondLimit {
            quarter: Quarter(q),
        };
    }
    judge_entry(entry, q, limit, rest)
}

// Rules 4 to 8.
#[tactic(auto, unfolding(crate::specs::Judging::judged_entry))]
fn judge_entry(entry: Option<Entry>, q: u64, limit: u64, rest: u64) -> Judged
    ensures { result ≡ judged_entry entry q limit rest }
{
    match entry {
        None => Judged::NoStream {
            quarter: Quarter(q),
        },
        Some(found) => judge_record(found.stream, Quarter(q), found.place, limit, rest),
    }
}

// Rules 5 to 8.
#[tactic(auto, unfolding(crate::specs::Judging::judged_record))]
fn judge_record(r: StreamRecord, quarter: Quarter, place: usize, limit: u64, rest: u64) -> Judged
    ensures { result ≡ judged_record r quarter place limit rest }
{
    if !r.receive_open() {
        return Judged::ReceiveClosed { quarter, place };
    }
    if !r.has_semantics() {
        return Judged::NoSemantics { quarter, place };
    }
    if rest > limit {
        return Judged::TooLong { quarter, place };
    }
    Judged::Delivered { quarter, place }
}

// The part of the frame after its quarter where it was judged delivered, and an empty part otherwise.
fn part<'a>(judged: Result<Judged, Refusal>, frame: &'a [u8]) -> &'a [u8]
    ensures { result.now ≡ if_delivered judged (after_quarter (read_varint frame.now) frame.now) }
{
    if !is_delivered(judged) {
        return &frame[..0];
    }
    match read_varint(frame) {
        None => &frame[..0],
        Some(read) => &frame[read.size..],
    }
}
