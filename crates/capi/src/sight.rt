// A look at a reader.
ghost use Rattle.std.specs.Prelude.{◌≡◌};
ghost use Rattle.capi.specs.Sight.{look_words};

use look::look;
use reader_answers::sight::{LookAnswer, looked_answer};
use reader_words::words::load;
use refusals::Refusal;

#[unsafe(no_mangle)]
pub extern "C" fn mrz_reader_look(words: &[u64; 8]) -> LookAnswer
    ensures { result ≡ look_words words.now }
{
    match load(words) {
        None => looked_answer(Err(Refusal::UNMAKEABLE_STATE)),
        Some(reader) => looked_answer(look(reader)),
    }
}
