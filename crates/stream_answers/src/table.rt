// What a stream table answers, in numbers.
ghost use Rattle.std.specs.Prelude.{◌≡◌};
ghost use Rattle.stream_answers.specs.Table.{opened_answer, closed_answer, found_answer};

use answers::numbers::refusal_number;
use reader_words::numbers::bit_of;
use refusals::Refusal;
use stream_records::answers::SideClosed;

// Each answer is a struct of the C interface, so each has a function that makes it.
#[repr(C)]
#[derive(Clone, Copy)]
pub struct OpenedAnswer {
    pub refusal: u64,
    pub place: u64,
}

#[repr(C)]
#[derive(Clone, Copy)]
pub struct FoundAnswer {
    pub refusal: u64,
    pub place: u64,
}

// freed: 1 where the place became the blank
#[repr(C)]
#[derive(Clone, Copy)]
pub struct SideClosedAnswer {
    pub refusal: u64,
    pub place: u64,
    pub freed: u64,
}

#[tactic(auto, unfolding(crate::specs::Table::found_answer))]
pub fn found_answer(standing: Result<usize, Refusal>) -> FoundAnswer
    ensures { result ≡ found_answer standing }
{
    match standing {
        Err(why) => FoundAnswer {
            refusal: refusal_number(why),
            place: 0,
        },
        Ok(place) => FoundAnswer {
            refusal: 0,
            place: place as u64,
        },
    }
}

#[tactic(auto, unfolding(crate::specs::Table::opened_answer))]
pub fn opened_answer(opening: Result<usize, Refusal>) -> OpenedAnswer
    ensures { result ≡ opened_answer opening }
{
    match opening {
        Err(why) => OpenedAnswer {
            refusal: refusal_number(why),
            place: 0,
        },
        Ok(place) => OpenedAnswer {
            refusal: 0,
            place: place as u64,
        },
    }
}

#[tactic(auto, unfolding(crate::specs::Table::closed_answer))]
pub fn closed_answer(closing: Result<SideClosed, Refusal>) -> SideClosedAnswer
    ensures { result ≡ closed_answer closing }
{
    match closing {
        Err(why) => SideClosedAnswer {
            refusal: refusal_number(why),
            place: 0,
            freed: 0,
        },
        Ok(side) => SideClosedAnswer {
            refusal: 0,
            place: side.place as u64,
            freed: bit_of(side.freed),
        },
    }
}
