// A payload written as a DATAGRAM capsule, or as a QUIC DATAGRAM frame's payload.
ghost use Rattle.std.specs.Prelude.{◌≡◌, ◌++◌, ◌+◌, ◌≤◌, ◌↔◌, IsTrue, length};
ghost use Rattle.std.proofs.lemmas.List.Edits.{sets};
ghost use Rattle.wire.specs.Varint.{largest, least_size, encode};
ghost use Rattle.wire.specs.Units.{largest_quarter};
ghost use Rattle.wire.specs.Writing.{writing};
ghost use Rattle.sending.specs.Sending.{put_capsule, put_capsule_header};
ghost use Rattle.sending.specs.Code.{capsule_by, frame_by, frame_header_by, put_capsule_by, put_frame_by};

use opening::{Kind, Opening};
use refusals::Refusal;
use send_rights::rights::{are_agreed, send_to};
use stream_records::answers::Entry;
use wire::units::{Quarter, StreamId};
use wire::varint::{least_size, write_varint};

// What a frame is sent by: both settings, and the path size.
#[repr(C)]
#[derive(Clone, Copy)]
pub struct FrameTerms {
    pub our_setting: u64,
    pub peer_setting: u64,
    pub path_size: u64,
}

// Writes a DATAGRAM capsule without a table. That the stream is open and has semantics for datagrams is the caller's
// to know.
pub fn write_datagram(payload: &[u8], out: &mut [u8], place: usize) -> Result<usize, Refusal>
    ensures { writing result out.new ≡ put_capsule payload.now out.old place }
{
    put_capsule(payload.len() as u64, payload, out, place)
}

// Writes the bytes of such a capsule that stand before a payload of so many bytes.
pub fn write_datagram_header(length: u64, out: &mut [u8], place: usize) -> Result<usize, Refusal>
    ensures { writing result out.new ≡ put_capsule_header length out.old place }
{
    put_capsule(length, &[], out, place)
}

#[tactic(auto, unfolding(crate::specs::Code::capsule_by, crate::specs::Sending::capsule_written, wire::specs::Writing::refuses))]
pub fn capsule_by(
    lookup: Result<Option<Entry>, Refusal>,
    id: StreamId,
    payload: &[u8],
    out: &mut [u8],
    place: usize,
) -> Result<usize, Refusal>
    ensures { writing result out.new ≡ capsule_by lookup id payload.now out.old place }
{
    send_to(lookup, id, true)?;
    write_datagram(payload, out, place)
}

#[tactic(auto, using(send_rights::proofs::Deciding::sent_bounded, crate::proofs::Putting::frame_whole), unfolding(crate::specs::Code::frame_by, crate::specs::Sending::frame_written, wire::specs::Writing::refuses))]
pub fn frame_by(
    lookup: Result<Option<Entry>, Refusal>,
    id: StreamId,
    terms: FrameTerms,
    payload: &[u8],
    out: &mut [u8],
    place: usize,
) -> Result<usize, Refusal>
    ensures { writing result out.new ≡ frame_by lookup id terms.our_setting terms.peer_setting terms.path_size payload.now out.old place }
{
    let quarter = send_to(
        lookup,
        id,
        are_agreed(terms.our_setting, terms.peer_setting),
    )?;
    put_frame(
        quarter,
        terms.path_size,
        payload.len() as u64,
        payload,
        out,
        place,
    )
}

#[tactic(auto, using(send_rights::proofs::Deciding::sent_bounded, crate::proofs::Putting::frame_header_alone), unfolding(crate::specs::Code::frame_header_by, crate::specs::Sending::frame_header_written, wire::specs::Writing::refuses))]
pub fn frame_header_by(
    lookup: Result<Option<Entry>, Refusal>,
    id: StreamId,
    terms: FrameTerms,
    length: u64,
    out: &mut [u8],
    place: usize,
) -> Result<usize, Refusal>
    ensures { writing result out.new ≡ frame_header_by lookup id terms.our_setting terms.peer_setting terms.path_size length out.old place }
{
    let quarter = send_to(
        lookup,
        id,
        are_agreed(terms.our_setting, terms.peer_setting),
    )?;
    put_frame(quarter, terms.path_size, length, &[], out, place)
}

// A capsule's header, and then the payload, or nothing where the header is to stand alone.
fn put_capsule(
    payload_length: u64,
    payload: &[u8],
    out: &mut [u8],
    place: usize,
) -> Result<usize, Refusal>
    requires { length payload.now ≤ payload_length }
    ensures { writing result out.new ≡ put_capsule_by payload_length payload.now out.old place }
{
    if payload_length > Opening::MAX_LIMIT {
        return Err(Refusal::NUMBER_TOO_LARGE);
    }
    let need = 1 + least_size(payload_length) + payload.len();
    if !has_room(out.len(), place, need) {
        return Err(Refusal::OUTPUT_TOO_SHORT);
    }
    out[place] = Kind::DATAGRAM as u8;
    put(payload_length, payload, out, place + 1);
    Ok(need)
}

// A frame's header, and then the payload, or nothing where the header is to stand alone. Without the hint it is not
// inlined, since two functions call it, and a header alone takes 1.8 times as long.
#[inline]
fn put_frame(
    quarter: Quarter,
    path: u64,
    payload_length: u64,
    payload: &[u8],
    out: &mut [u8],
    place: usize,
) -> Result<usize, Refusal>
    requires quarter_bound { quarter.0 ≤ largest_quarter }
    requires payload_bound { length payload.now ≤ payload_length }
    ensures { writing result out.new ≡ put_frame_by quarter.0 path payload_length payload.now out.old place }
{
    if payload_length > Opening::MAX_LIMIT {
        return Err(Refusal::NUMBER_TOO_LARGE);
    }
    let size = least_size(quarter.0);
    if (size as u64) + payload_length > path {
        return Err(Refusal::FRAME_TOO_LONG);
    }
    let need = size + payload.len();
    if !has_room(out.len(), place, need) {
        return Err(Refusal::OUTPUT_TOO_SHORT);
    }
    put(quarter.0, payload, out, place);
    Ok(need)
}

fn has_room(len: usize, place: usize, need: usize) -> bool
    ensures { IsTrue result ↔ (place + need ≤ len) }
{
    place <= len && need <= len - place
}

// The shortest varint of a number and then the payload, at a place where both fit. A place beside the output, here and
// in `wire`: the writers put bytes at the place that the host names, and no others change.
fn put(head: u64, payload: &[u8], out: &mut [u8], at: usize)
    requires { (head ≤ largest) × (at + (least_size head + length payload.now) ≤ length out.old) }
    ensures { out.new ≡ sets out.old at (encode head ++ payload.now) }
{
    let size = least_size(head);
    let _ = write_varint(head, out, at);
    copying::copy_span(payload, 0, out, at + size, payload.len());
}
