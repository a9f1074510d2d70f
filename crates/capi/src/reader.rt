// The capsule reader, kept in the host's words.
ghost use Rattle.std.specs.Prelude.{◌≡◌};
ghost use Rattle.capsule.specs.Calls.{lent};
ghost use Rattle.reader_calls.specs.Reader.{opened, open_words, fed, feed_words, closed, close_words};

use reader_answers::reader::{ClosedAnswer, FedAnswer, closed_answer};
use reader_calls::reader::{OpeningNumbers, feed_words, open_words};
use reader_words::words::{load, store};
use refusals::Refusal;

// The refusal's number, or 0.
#[unsafe(no_mangle)]
pub extern "C" fn mrz_reader_open(words: &mut [u64; 8], opening: OpeningNumbers) -> u64
    ensures { opened result words.new ≡ open_words words.old opening.role opening.datagram_limit opening.draft opening.addresses }
{
    open_words(words, opening)
}

#[unsafe(no_mangle)]
pub extern "C" fn mrz_reader_feed(
    words: &mut [u64; 8],
    piece: &[u8],
    gathering: &mut [u8],
    addresses: &mut [u8],
    output: &mut [u8],
) -> FedAnswer
    ensures { fed result words.new (lent gathering.new addresses.new output.new) ≡ feed_words words.old piece.now (lent gathering.old addresses.old output.old) }
{
    feed_words(words, piece, gathering, addresses, output)
}

#[unsafe(no_mangle)]
pub extern "C" fn mrz_reader_close(words: &mut [u64; 8]) -> ClosedAnswer
    ensures { closed result words.new ≡ close_words words.old }
{
    let Some(reader) = load(words) else {
        return closed_answer(Err(Refusal::UNMAKEABLE_STATE));
    };
    let closed = reader.close();
    match closed.answer {
        Err(_) => closed_answer(closed.answer),
        Ok(_) => {
            store(words, closed.reader);
            closed_answer(closed.answer)
        }
    }
}
