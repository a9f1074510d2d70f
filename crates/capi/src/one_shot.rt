// The one-shot listing.
ghost use Rattle.std.specs.Prelude.{◌≡◌};
ghost use Rattle.one_shot_listing.specs.Listing.{listing_of};
ghost use Rattle.answers.specs.OneShot.{listing_answer};

use answers::one_shot::{ListingAnswer, listing_answer};
use one_shot_listing::list;

#[unsafe(no_mangle)]
pub extern "C" fn mrz_list(bytes: &[u8]) -> ListingAnswer
    ensures { result ≡ listing_answer (listing_of bytes.now) }
{
    listing_answer(list(bytes))
}
