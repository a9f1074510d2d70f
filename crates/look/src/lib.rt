// A look at a reader: how far its stream has come. Nothing is changed.
#![tactic(auto)]

ghost use Rattle.std.specs.Prelude.{◌≡◌, true};
ghost use Rattle.planning.specs.Plans.{is_makeable_phase};
ghost use Rattle.look.specs.Looking.{buffer_of, stored_in, place_of, look_of};

use capsule::reader::Reader;
use opening::Opening;
use planning::Phase;
use refusals::Refusal;

// Which lent buffer the bytes of a value are stored in.
#[derive(Clone, Copy)]
pub enum Buffer {
    Neither,
    Gathering,
    Addresses,
}

// Where the end of the stream stands.
#[derive(Clone, Copy)]
pub enum Place {
    // no byte of a capsule has come
    Between,
    // in a capsule's type
    InType,
    // in its length, behind its type
    InLength {
        capsule_type: u64,
    },
    // in its value: how many bytes of it are to come, and how many are stored in the buffer
    InValue {
        capsule_type: u64,
        length: u64,
        to_come: u64,
        gathered: u64,
        buffer: Buffer,
    },
}

#[derive(Clone, Copy)]
pub struct Sight {
    // whether the reader is finished
    pub finished: bool,
    // the datagram limit that it was opened with
    pub limit: u64,
    pub place: Place,
}

// A finished reader is answered, too. What no opening, feeding and closing makes is refused with 1.
pub fn look(reader: Reader) -> Result<Sight, Refusal>
    ensures { result ≡ look_of reader }
{
    if !reader.is_makeable() {
        return Err(Refusal::UNMAKEABLE_STATE);
    }
    let opening = reader.opening;
    let phase = reader.phase;
    let place = place_of(opening, phase);
    Ok(Sight {
        finished: reader.finished,
        limit: opening.limit,
        place,
    })
}

#[tactic(auto, unfolding(crate::specs::Looking::place_of))]
fn place_of(opening: Opening, phase: Phase) -> Place
    requires { is_makeable_phase opening phase ≡ true }
    ensures { result ≡ place_of opening phase }
{
    match phase {
        Phase::InType(part) => {
            if part.have == 0 {
                return Place::Between;
            }
            Place::InType
        }
        Phase::InLength { ctype, part: _ } => Place::InLength {
            capsule_type: ctype,
        },
        Phase::InValue {
            ctype,
            length,
            left,
        } => {
            let buffer = buffer_of(opening, ctype, length);
            let gathered = stored_in(buffer, opening.extent(ctype, length) - left);
            Place::InValue {
                capsule_type: ctype,
                length,
                to_come: left,
                gathered,
                buffer,
            }
        }
    }
}

fn buffer_of(opening: Opening, ctype: u64, length: u64) -> Buffer
    ensures { result ≡ buffer_of opening ctype length }
{
    if opening.gathers(ctype, length) {
        return Buffer::Gathering;
    }
    if opening.keeps(ctype, length) {
        return Buffer::Addresses;
    }
    Buffer::Neither
}

// Of the value bytes that came, how many are stored.
fn stored_in(buffer: Buffer, came: u64) -> u64
    ensures { result ≡ stored_in buffer came }
{
    match buffer {
        Buffer::Neither => 0,
        Buffer::Gathering => came,
        Buffer::Addresses => came,
    }
}
