// The one-shot listing, in numbers.
ghost use Rattle.std.specs.Prelude.{◌≡◌};
ghost use Rattle.answers.specs.OneShot.{ending_number, listing_answer};

use crate::numbers::refusal_number;
use capsule::reader::Ending;
use one_shot_listing::Counted;
use refusals::Refusal;

// end: 1 clean, 2 truncated
#[repr(C)]
#[derive(Clone, Copy)]
pub struct ListingAnswer {
    pub refusal: u64,
    pub capsules: u64,
    pub headers: u64,
    pub end: u64,
}

#[tactic(auto, unfolding(crate::specs::OneShot::listing_answer))]
pub fn listing_answer(listed: Result<Counted, Refusal>) -> ListingAnswer
    ensures { result ≡ listing_answer listed }
{
    match listed {
        Err(why) => ListingAnswer {
            refusal: refusal_number(why),
            capsules: 0,
            headers: 0,
            end: 0,
        },
        Ok(counted) => ListingAnswer {
            refusal: 0,
            capsules: counted.capsules as u64,
            headers: counted.headers as u64,
            end: ending_number(counted.ending),
        },
    }
}

// No From: the numbers are the C interface's, and From would have to stand in the crate of `Ending`.
#[tactic(auto, unfolding(crate::specs::OneShot::ending_number, crate::specs::Numbers::end_number))]
fn ending_number(ending: Ending) -> u64
    ensures { result ≡ ending_number ending }
{
    match ending {
        Ending::Clean => 1,
        Ending::Truncated => 2,
    }
}
