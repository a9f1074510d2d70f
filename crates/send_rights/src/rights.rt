// Who may send to a stream: by the record's side and semantics, and for frames by the settings.
ghost use Rattle.std.specs.Prelude.{◌≡◌};
ghost use Rattle.send_rights.specs.Rights.{agreed, sending_record, sending_entry};
ghost use Rattle.send_rights.specs.Code.{sending_by};

use refusals::Refusal;
use stream_records::answers::Entry;
use stream_records::record::StreamRecord;
use wire::units::{Quarter, StreamId};

// The value of SETTINGS_H3_DATAGRAM that allows frames (RFC 9297, section 2.1.1).
pub const FRAMES_ALLOWED: u64 = 1;

// Whether the stream may be sent to.
#[tactic(auto, unfolding(crate::specs::Code::sending_by))]
pub fn send_to(
    lookup: Result<Option<Entry>, Refusal>,
    id: StreamId,
    settings: bool,
) -> Result<Quarter, Refusal>
    ensures { result ≡ sending_by lookup id settings }
{
    let entry = lookup?;
    let quarter = id.quarter().ok_or(Refusal::NOT_A_REQUEST_STREAM)?;
    send_entry(entry, quarter, settings)
}

#[tactic(auto, unfolding(crate::specs::Rights::sending_entry))]
fn send_entry(entry: Option<Entry>, quarter: Quarter, settings: bool) -> Result<Quarter, Refusal>
    ensures { result ≡ sending_entry entry quarter settings }
{
    let found = entry.ok_or(Refusal::NOT_IN_TABLE)?;
    send_record(found.stream, quarter, settings)
}

// `settings` is what both settings come to, and its refusal stands between those of the table and those of the record.
#[tactic(auto, unfolding(crate::specs::Rights::sending_record))]
fn send_record(r: StreamRecord, quarter: Quarter, settings: bool) -> Result<Quarter, Refusal>
    ensures { result ≡ sending_record r quarter settings }
{
    if !settings {
        return Err(Refusal::FRAMES_NOT_AGREED);
    }
    if !r.send_open() {
        return Err(Refusal::SEND_SIDE_CLOSED);
    }
    if !r.has_semantics() {
        return Err(Refusal::NO_SEMANTICS);
    }
    Ok(quarter)
}

// Whether both settings allow frames.
#[tactic(auto, unfolding(crate::specs::Rights::agreed))]
pub fn are_agreed(ours: u64, peers: u64) -> bool
    ensures { result ≡ agreed ours peers }
{
    ours == FRAMES_ALLOWED && peers == FRAMES_ALLOWED
}
