// QUIC DATAGRAM payloads judged; capsules and frames written.
ghost use Rattle.std.specs.Prelude.{◌≡◌};
ghost use Rattle.judging.specs.Judging.{judged_of};
ghost use Rattle.sending.specs.Sending.{put_capsule, put_capsule_header, write_capsule, write_frame, write_frame_header};
ghost use Rattle.capi.specs.Varint.{wrote, wrote_by};
ghost use Rattle.capi.specs.Table.{stream_id_of};
ghost use Rattle.stream_answers.specs.Frames.{judged_answer};

use answers::varint::{WrittenAnswer, written_answer};
use datagram::judge::judge;
use datagram::write::{write_capsule, write_frame, write_frame_header};
use sending::write::{FrameTerms, write_datagram, write_datagram_header};
use stream_answers::frames::{JudgedAnswer, judged_answer};
use stream_records::record::StreamRecord;
use wire::units::StreamId;

// The stated stream limit, in quarters, and the datagram limit.
#[repr(C)]
#[derive(Clone, Copy)]
pub struct Limits {
    pub stream_limit: u64,
    pub datagram_limit: u64,
}

// What looks alike here is alike for C alone: each exported name is a function, with the parameters of the header in
// its order.
#[unsafe(no_mangle)]
pub extern "C" fn mrz_judge(streams: &[StreamRecord], limits: Limits, frame: &[u8]) -> JudgedAnswer
    ensures { result ≡ judged_answer frame.now (judged_of streams.now limits.stream_limit limits.datagram_limit frame.now) }
{
    judged_answer(
        judge(streams, limits.stream_limit, limits.datagram_limit, frame),
        frame,
    )
}

#[unsafe(no_mangle)]
pub extern "C" fn mrz_write_capsule(
    streams: &[StreamRecord],
    stream_id: u64,
    payload: &[u8],
    out: &mut [u8],
    place: u64,
) -> WrittenAnswer
    ensures { wrote result out.new ≡ wrote_by (write_capsule streams.now (stream_id_of stream_id) payload.now out.old place) }
{
    written_answer(write_capsule(streams, StreamId(stream_id), payload, out, place as usize))
}

#[unsafe(no_mangle)]
pub extern "C" fn mrz_write_frame(
    streams: &[StreamRecord],
    stream_id: u64,
    terms: FrameTerms,
    payload: &[u8],
    out: &mut [u8],
    place: u64,
) -> WrittenAnswer
    ensures { wrote result out.new ≡ wrote_by (write_frame streams.now (stream_id_of stream_id) terms.our_setting terms.peer_setting terms.path_size payload.now out.old place) }
{
    written_answer(write_frame(
        streams,
        StreamId(stream_id),
        terms,
        payload,
        out,
        place as usize,
    ))
}

// The bytes of such a frame before a payload of so many bytes.
#[unsafe(no_mangle)]
pub extern "C" fn mrz_write_frame_header(
    streams: &[StreamRecord],
    stream_id: u64,
    terms: FrameTerms,
    payload_length: u64,
    out: &mut [u8],
    place: u64,
) -> WrittenAnswer
    ensures { wrote result out.new ≡ wrote_by (write_frame_header streams.now (stream_id_of stream_id) terms.our_setting terms.peer_setting terms.path_size payload_length out.old place) }
{
    written_answer(write_frame_header(
        streams,
        StreamId(stream_id),
        terms,
        payload_length,
        out,
        place as usize,
    ))
}

// A DATAGRAM capsule without a table.
#[unsafe(no_mangle)]
pub extern "C" fn mrz_write_datagram(payload: &[u8], out: &mut [u8], place: u64) -> WrittenAnswer
    ensures { wrote result out.new ≡ wrote_by (put_capsule payload.now out.old place) }
{
    written_answer(write_datagram(payload, out, place as usize))
}

// The bytes of such a capsule before a payload of so many bytes.
#[unsafe(no_mangle)]
pub extern "C" fn mrz_write_datagram_header(
    payload_length: u64,
    out: &mut [u8],
    place: u64,
) -> WrittenAnswer
    ensures { wrote result out.new ≡ wrote_by (put_capsule_header payload_length out.old place) }
{
    written_answer(write_datagram_header(payload_length, out, place as usize))
}
