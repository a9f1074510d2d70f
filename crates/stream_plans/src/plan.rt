// What opening a stream and closing a side answer, and the record that they store.
ghost use Rattle.std.specs.Prelude.{◌≡◌};
ghost use Rattle.stream_records.specs.Tables.{open_at, open_entry, close_entry, stand_entry, sought};
ghost use Rattle.stream_plans.specs.Code.{opening_by, closing_by, standing_by, record_in, opening_plan_of, closing_plan_of};

use refusals::Refusal;
use stream_records::answers::{Entry, SideClosed};
use stream_records::record::{Side, StreamRecord};
use wire::units::{Quarter, StreamId};

// What a call answers, and the record that it stores, if any, with its place.
#[derive(Clone, Copy)]
pub struct Plan<A> {
    pub answer: A,
    pub store: Option<(usize, StreamRecord)>,
}

#[tactic(auto, unfolding(crate::specs::Code::opening_plan_of, crate::specs::Code::opened_store))]
pub fn opening(
    lookup: Result<Option<Entry>, Refusal>,
    free: Option<usize>,
    id: StreamId,
    semantics: bool,
) -> Plan<Result<usize, Refusal>>
    ensures { result ≡ opening_plan_of lookup free id semantics }
{
    let answer = opening_answer(lookup, free, id);
    let store = match answer {
        Err(_) => None,
        Ok(place) => Some((place, StreamRecord::open(sought(id), semantics))),
    };
    Plan { answer, store }
}

#[tactic(auto, unfolding(crate::specs::Code::closing_plan_of, crate::specs::Code::closed_store))]
pub fn closing(
    lookup: Result<Option<Entry>, Refusal>,
    id: StreamId,
    side: Side,
) -> Plan<Result<SideClosed, Refusal>>
    ensures { result ≡ closing_plan_of lookup id side }
{
    let answer = closing_answer(lookup, id, side);
    let Ok(closed) = answer else {
        return Plan {
            answer,
            store: None,
        };
    };
    let kept = record_in(lookup).closed(side);
    Plan {
        answer,
        store: Some((closed.place, kept)),
    }
}

#[tactic(auto, unfolding(crate::specs::Code::standing_by))]
pub fn standing(lookup: Result<Option<Entry>, Refusal>, id: StreamId) -> Result<usize, Refusal>
    ensures { result ≡ standing_by lookup id }
{
    let entry = lookup?;
    id.quarter().ok_or(Refusal::NOT_A_REQUEST_STREAM)?;
    stand_entry(entry)
}

// The quarter to look for: 0 where the ID is no request stream's.
#[tactic(auto, unfolding(stream_records::specs::Tables::sought_in))]
pub fn sought(id: StreamId) -> Quarter
    ensures { result ≡ record { 0 = sought id } }
{
    id.quarter().unwrap_or(Quarter(0))
}

// This, `closing_answer` and `standing` share the refusals 15 and 7, two lines with `?`: a generic function would take
// a closure for the third, and be longer.
#[tactic(auto, unfolding(crate::specs::Code::opening_by))]
fn opening_answer(
    lookup: Result<Option<Entry>, Refusal>,
    free: Option<usize>,
    id: StreamId,
) -> Result<usize, Refusal>
    ensures { result ≡ opening_by lookup free id }
{
    let entry = lookup?;
    id.quarter().ok_or(Refusal::NOT_A_REQUEST_STREAM)?;
    open_entry(entry, free)
}

#[tactic(auto, unfolding(stream_records::specs::Tables::open_entry))]
fn open_entry(entry: Option<Entry>, free: Option<usize>) -> Result<usize, Refusal>
    ensures { result ≡ open_entry entry free }
{
    match entry {
        Some(_) => Err(Refusal::ALREADY_IN_TABLE),
        None => open_at(free),
    }
}

#[tactic(auto, unfolding(stream_records::specs::Tables::open_at))]
fn open_at(free: Option<usize>) -> Result<usize, Refusal>
    ensures { result ≡ open_at free }
{
    free.ok_or(Refusal::NO_FREE_PLACE)
}

#[tactic(auto, unfolding(crate::specs::Code::closing_by))]
fn closing_answer(
    lookup: Result<Option<Entry>, Refusal>,
    id: StreamId,
    side: Side,
) -> Result<SideClosed, Refusal>
    ensures { result ≡ closing_by lookup id side }
{
    let entry = lookup?;
    id.quarter().ok_or(Refusal::NOT_A_REQUEST_STREAM)?;
    close_entry(entry, side)
}

// The record that was found, if one was.
#[tactic(auto, unfolding(crate::specs::Code::record_in))]
fn record_in(lookup: Result<Option<Entry>, Refusal>) -> StreamRecord
    ensures { result ≡ record_in lookup }
{
    match lookup {
        Ok(Some(found)) => found.stream,
        _ => StreamRecord::BLANK,
    }
}

#[tactic(auto, unfolding(stream_records::specs::Tables::close_entry))]
fn close_entry(entry: Option<Entry>, side: Side) -> Result<SideClosed, Refusal>
    ensures { result ≡ close_entry side entry }
{
    let found = entry.ok_or(Refusal::NOT_IN_TABLE)?;
    Ok(SideClosed {
        place: found.place,
        freed: found.stream.frees(side),
    })
}

#[tactic(auto, unfolding(stream_records::specs::Tables::stand_entry))]
fn stand_entry(entry: Option<Entry>) -> Result<usize, Refusal>
    ensures { result ≡ stand_entry entry }
{
    let found = entry.ok_or(Refusal::NOT_IN_TABLE)?;
    Ok(found.place)
}
