// Short ways of feeding a reader in the host's words.
ghost use Rattle.std.specs.Prelude.{◌≡◌, Some, get_or};
ghost use Rattle.capsule.specs.Calls.{lent};
ghost use Rattle.capsule.specs.Reader.{fresh};
ghost use Rattle.fast_paths.specs.FastPaths.{in_value};
ghost use Rattle.reader_words.specs.Words.{reader_in, opening_in};
ghost use Rattle.reader_calls.specs.ShortWords.{TriedRight};

use fast_paths::{Inside, Whole, feed_inside, feed_whole};
use reader_answers::reader::{FedAnswer, fed_report, fed_took};
use reader_words::words::{Position, opening_in, position_of};

pub(crate) fn try_short(
    words: &mut [u64; 8],
    piece: &[u8],
    gathering: &mut [u8],
    addresses: &[u8],
    output: &mut [u8],
) -> Option<FedAnswer>
    ensures { TriedRight words.old piece.now (lent gathering.old addresses.now output.old) result words.new (lent gathering.new addresses.now output.new) }
{
    match position_of(words) {
        Position::Other => None,
        Position::Between => try_between(words, piece, gathering, addresses, output),
        Position::Within => try_within(words, piece, gathering, addresses, output),
    }
}

// The words of an open reader between two capsules: most feedings find a whole capsule there, and leave the words as
// they are.
fn try_between(
    words: &mut [u64; 8],
    piece: &[u8],
    gathering: &mut [u8],
    addresses: &[u8],
    output: &mut [u8],
) -> Option<FedAnswer>
    requires { reader_in words.old ≡ Some (fresh (opening_in words.old)) }
    ensures { TriedRight words.old piece.now (lent gathering.old addresses.now output.old) result words.new (lent gathering.new addresses.now output.new) }
{
    let opening = opening_in(words);
    let whole = feed_whole(opening, piece, gathering, addresses, output)?;
    match whole {
        Whole::Took {
            consumed,
            written,
            report,
        } => { Some(fed_report(consumed, written, report)) }
        Whole::Cut {
            written,
            ctype,
            size,
            left,
        } => {
            words[3] = 2;
            words[4] = ctype;
            words[5] = size;
            words[6] = left;
            Some(fed_took(piece.len(), written, None))
        }
    }
}

// The words of an open reader within a value: most pieces of a long one lie within it.
fn try_within(
    words: &mut [u64; 8],
    piece: &[u8],
    gathering: &mut [u8],
    addresses: &[u8],
    output: &mut [u8],
) -> Option<FedAnswer>
    requires { reader_in words.old ≡ Some (in_value (opening_in words.old) (get_or words.old 4 0) (get_or words.old 5 0) (get_or words.old 6 0)) }
    ensures { TriedRight words.old piece.now (lent gathering.old addresses.now output.old) result words.new (lent gathering.new addresses.now output.new) }
{
    let opening = opening_in(words);
    let left = words[6];
    let inside = feed_inside(
        opening, words[4], words[5], left, piece, gathering, addresses, output,
    )?;
    match inside {
        Inside::Took { written } => {
            words[6] = left - (piece.len() as u64);
            Some(fed_took(piece.len(), written, None))
        }
        Inside::Ended {
            consumed,
            written,
            report,
        } => {
            words[3] = 0;
            words[4] = 0;
            words[5] = 0;
            words[6] = 0;
            Some(fed_report(consumed, written, report))
        }
    }
}
