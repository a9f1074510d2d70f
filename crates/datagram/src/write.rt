// A payload written as a DATAGRAM capsule, or as a QUIC DATAGRAM frame's payload, for a stream of the table.
ghost use Rattle.std.specs.Prelude.{◌≡◌};
ghost use Rattle.wire.specs.Writing.{writing};
ghost use Rattle.sending.specs.Sending.{write_capsule, write_frame, write_frame_header};

use refusals::Refusal;
use sending::write::{FrameTerms, capsule_by, frame_by, frame_header_by};
use stream_plans::plan::sought;
use stream_records::record::StreamRecord;
use streams::table::look_up;
use wire::units::StreamId;

// Writes a DATAGRAM capsule for the stream: type 00, shortest length, payload.
pub fn write_capsule(
    rows: &[StreamRecord],
    id: StreamId,
    payload: &[u8],
    out: &mut [u8],
    place: usize,
) -> Result<usize, Refusal>
    ensures { writing result out.new ≡ write_capsule rows.now id payload.now out.old place }
{
    capsule_by(look_up(rows, sought(id)), id, payload, out, place)
}

// Writes a QUIC DATAGRAM frame's payload for the stream: quarter, payload.
pub fn write_frame(
    rows: &[StreamRecord],
    id: StreamId,
    terms: FrameTerms,
    payload: &[u8],
    out: &mut [u8],
    place: usize,
) -> Result<usize, Refusal>
    ensures { writing result out.new ≡ write_frame rows.now id terms.our_setting terms.peer_setting terms.path_size payload.now out.old place }
{
    frame_by(look_up(rows, sought(id)), id, terms, payload, out, place)
}

// Writes the bytes of such a frame that stand before a payload of so many bytes. C calls the frame and its header by
// two names; what they share is in `sending`.
pub fn write_frame_header(
    rows: &[StreamRecord],
    id: StreamId,
    terms: FrameTerms,
    length: u64,
    out: &mut [u8],
    place: usize,
) -> Result<usize, Refusal>
    ensures { writing result out.new ≡ write_frame_header rows.now id terms.our_setting terms.peer_setting terms.path_size length out.old place }
{
    frame_header_by(look_up(rows, sought(id)), id, terms, length, out, place)
}
