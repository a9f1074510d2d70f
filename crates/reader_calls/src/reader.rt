// A reader in the host's words, opened and fed by its functions.
ghost use Rattle.std.specs.Prelude.{◌≡◌};
ghost use Rattle.capsule.specs.Calls.{lent};
ghost use Rattle.reader_calls.specs.Reader.{opened, open_words, fed, feed_words};

use crate::short::try_short;
use answers::numbers::refusal_number;
use capsule::reader::Reader;
use reader_answers::reader::{FedAnswer, fed_took, feed_refused};
use reader_words::numbers::{flag_of, role_of};
use reader_words::words::{load, store};
use refusals::Refusal;

#[repr(C)]
#[derive(Clone, Copy)]
pub struct OpeningNumbers {
    pub role: u64,
    pub datagram_limit: u64,
    pub draft: u64,
    pub addresses: u64,
}

// The refusal's number, or 0.
pub fn open_words(words: &mut [u64; 8], opening: OpeningNumbers) -> u64
    ensures { opened result words.new ≡ open_words words.old opening.role opening.datagram_limit opening.draft opening.addresses }
{
    match Reader::open(
        role_of(opening.role),
        opening.datagram_limit,
        flag_of(opening.draft),
        flag_of(opening.addresses),
    ) {
        Err(why) => refusal_number(why),
        Ok(reader) => {
            store(words, reader);
            0
        }
    }
}

// The lent buffers are arguments of their own here and below, as in C (`mrz_reader_feed`).
pub fn feed_words(
    words: &mut [u64; 8],
    piece: &[u8],
    gathering: &mut [u8],
    addresses: &mut [u8],
    output: &mut [u8],
) -> FedAnswer
    ensures { fed result words.new (lent gathering.new addresses.new output.new) ≡ feed_words words.old piece.now (lent gathering.old addresses.old output.old) }
{
    match try_short(words, piece, gathering, addresses, output) {
        Some(answer) => answer,
        None => feed_loaded(words, piece, gathering, addresses, output),
    }
}

// The general way.
fn feed_loaded(
    words: &mut [u64; 8],
    piece: &[u8],
    gathering: &mut [u8],
    addresses: &mut [u8],
    output: &mut [u8],
) -> FedAnswer
    ensures { fed result words.new (lent gathering.new addresses.new output.new) ≡ feed_words words.old piece.now (lent gathering.old addresses.old output.old) }
{
    let Some(reader) = load(words) else {
        return feed_refused(Refusal::UNMAKEABLE_STATE);
    };
    let fed = reader.feed(piece, gathering, addresses, output);
    let answer = fed.answer;
    match answer {
        Err(why) => feed_refused(why),
        Ok(took) => {
            let next = fed.reader;
            store(words, next);
            fed_took(took.consumed, took.written, took.ended)
        }
    }
}
