// Stream IDs and quarter stream IDs, in numbers.
ghost use Rattle.std.specs.Prelude.{◌≡◌};
ghost use Rattle.answers.specs.Identifiers.{quarter_answer, stream_answer};

use crate::numbers::refusal_number;
use refusals::Refusal;
use wire::units::{Quarter, StreamId};

#[repr(C)]
#[derive(Clone, Copy)]
pub struct QuarterAnswer {
    pub refusal: u64,
    pub quarter: u64,
}

// too_large: 1 for a number that is no quarter
#[repr(C)]
#[derive(Clone, Copy)]
pub struct StreamIdAnswer {
    pub too_large: u64,
    pub stream_id: u64,
}

#[tactic(auto, unfolding(crate::specs::Identifiers::quarter_answer))]
pub fn quarter_answer(found: Option<Quarter>) -> QuarterAnswer
    ensures { result ≡ quarter_answer found }
{
    match found {
        None => QuarterAnswer {
            refusal: refusal_number(Refusal::NOT_A_REQUEST_STREAM),
            quarter: 0,
        },
        Some(quarter) => QuarterAnswer {
            refusal: 0,
            quarter: quarter.0,
        },
    }
}

#[tactic(auto, unfolding(crate::specs::Identifiers::stream_answer))]
pub fn stream_answer(found: Option<StreamId>) -> StreamIdAnswer
    ensures { result ≡ stream_answer found }
{
    match found {
        None => StreamIdAnswer {
            too_large: 1,
            stream_id: 0,
        },
        Some(id) => StreamIdAnswer {
            too_large: 0,
            stream_id: id.0,
        },
    }
}
