// A look at a reader, in numbers.
ghost use Rattle.std.specs.Prelude.{◌≡◌};
ghost use Rattle.reader_answers.specs.Sight.{buffer_number, sight_answer, looked_answer};

use answers::numbers::refusal_number;
use look::{Buffer, Place, Sight};
use reader_words::numbers::bit_of;
use refusals::Refusal;

// field: 0 between capsules, 1 in a type, 2 in a length, 3 in a value
// capsule_type: with fields 2 and 3; length, to_come, gathered and buffer: with field 3
// buffer: 0 neither, 1 the gathering buffer, 2 the one for address capsules
#[repr(C)]
#[derive(Clone, Copy)]
pub struct LookAnswer {
    pub refusal: u64,
    pub finished: u64,
    pub datagram_limit: u64,
    pub field: u64,
    pub capsule_type: u64,
    pub length: u64,
    pub to_come: u64,
    pub gathered: u64,
    pub buffer: u64,
}

pub fn looked_answer(looked: Result<Sight, Refusal>) -> LookAnswer
    ensures { result ≡ looked_answer looked }
{
    match looked {
        Err(why) => LookAnswer {
            refusal: refusal_number(why),
            finished: 0,
            datagram_limit: 0,
            field: 0,
            capsule_type: 0,
            length: 0,
            to_come: 0,
            gathered: 0,
            buffer: 0,
        },
        Ok(sight) => {
            let place = sight.place;
            sight_answer(sight.finished, sight.limit, place)
        }
    }
}

fn sight_answer(finished: bool, limit: u64, place: Place) -> LookAnswer
    ensures { result ≡ sight_answer finished limit place }
{
    match place {
        Place::Between => LookAnswer {
            refusal: 0,
            finished: bit_of(finished),
            datagram_limit: limit,
            field: 0,
            capsule_type: 0,
            length: 0,
            to_come: 0,
            gathered: 0,
            buffer: 0,
        },
        Place::InType => LookAnswer {
            refusal: 0,
            finished: bit_of(finished),
            datagram_limit: limit,
            field: 1,
            capsule_type: 0,
            length: 0,
            to_come: 0,
            gathered: 0,
            buffer: 0,
        },
        Place::InLength { capsule_type } => LookAnswer {
            refusal: 0,
            finished: bit_of(finished),
            datagram_limit: limit,
            field: 2,
            capsule_type,
            length: 0,
            to_come: 0,
            gathered: 0,
            buffer: 0,
        },
        Place::InValue {
            capsule_type,
            length,
            to_come,
            gathered,
            buffer,
        } => LookAnswer {
            refusal: 0,
            finished: bit_of(finished),
            datagram_limit: limit,
            field: 3,
            capsule_type,
            length,
            to_come,
            gathered,
            buffer: buffer_number(buffer),
        },
    }
}

// No From: the numbers are the C interface's, and From would have to stand in the crate of `Buffer`.
fn buffer_number(buffer: Buffer) -> u64
    ensures { result ≡ buffer_number buffer }
{
    match buffer {
        Buffer::Neither => 0,
        Buffer::Gathering => 1,
        Buffer::Addresses => 2,
    }
}
