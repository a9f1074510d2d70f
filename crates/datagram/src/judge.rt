// A received QUIC DATAGRAM payload, judged by the stream table.
ghost use Rattle.std.specs.Prelude.{◌≡◌};
ghost use Rattle.judging.specs.Judging.{Judges, payload_of};

use judging::judge::{Judged, asked, judge_by, payload_by};
use refusals::Refusal;
use stream_records::record::StreamRecord;
use streams::table::look_up;

// Judges a frame's payload by the stated stream limit and the datagram limit.
pub fn judge(
    rows: &[StreamRecord],
    streams: u64,
    limit: u64,
    frame: &[u8],
) -> Result<Judged, Refusal>
    ensures { Judges rows.now streams limit frame.now result }
{
    judge_by(look_up(rows, asked(frame)), streams, limit, frame)
}

// The part of the frame after its quarter where it is delivered, and an empty part otherwise. It answers a slice and
// `judge` a verdict: they share their arguments alone.
pub fn payload<'a>(rows: &[StreamRecord], streams: u64, limit: u64, frame: &'a [u8]) -> &'a [u8]
    ensures { result.now ≡ payload_of rows.now streams limit frame.now }
{
    payload_by(look_up(rows, asked(frame)), streams, limit, frame)
}
