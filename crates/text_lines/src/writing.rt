// Lines put together and written at a place.
ghost use Rattle.std.specs.Prelude.{◌≡◌, true, false, [], ◌∷◌, ◌++◌, ◌+◌, ◌≤◌, ◌<◌, length};
ghost use Rattle.std.proofs.lemmas.List.Edits.{sets};
ghost use Rattle.text_lines.specs.Lines.{one_number, two_numbers};
ghost use Rattle.text_lines.specs.Writing.{writing, write_at};

use itoa::Buffer;

// Whether an output of `room` bytes has `size` bytes from the place on.
fn has_room(room: usize, place: usize, size: usize) -> bool
    ensures { (result ≡ true → place + size ≤ room) × (result ≡ false → room < place + size) }
{
    place.checked_add(size).is_some_and(|end| end <= room)
}

// The place stands beside the output: of a part borrowed from it, the rest would have to be shown unchanged at each
// call.
fn put_text(text: &[u8], out: &mut [u8], at: usize)
    requires { at + length text.now ≤ length out.old }
    ensures { out.new ≡ sets out.old at text.now }
{
    out[at..at + text.len()].copy_from_slice(text);
}

// The digits of a number, and a byte behind them.
fn put_number(digits: &[u8], last: u8, out: &mut [u8], at: usize)
    requires { at + (length digits.now + 1) ≤ length out.old }
    ensures { out.new ≡ sets out.old at (digits.now ++ (last ∷ [])) }
{
    put_text(digits, out, at);
    out[at + digits.len()] = last;
}

pub(crate) fn write_text(text: &[u8], out: &mut [u8], place: usize) -> Option<usize>
    ensures { writing result out.new ≡ write_at text.now out.old place }
{
    if has_room(out.len(), place, text.len()) {
        put_text(text, out, place);
        return Some(text.len());
    }
    None
}

// A word and a number.
pub(crate) fn write_one(word: &[u8], n: u64, out: &mut [u8], place: usize) -> Option<usize>
    ensures out_after { writing result out.new ≡ write_at (one_number word.now n) out.old place }
    ensures n_in_bounds { length (one_number word.now n) ≤ length word.now + 21 }
{
    let mut buffer = Buffer::new();
    let digits = buffer.format(n).as_bytes();
    let length = word.len() + (digits.len() + 1);
    if has_room(out.len(), place, length) {
        put_text(word, out, place);
        put_number(digits, b'\n', out, place + word.len());
        return Some(length);
    }
    None
}

// A word and two numbers.
pub(crate) fn write_two(word: &[u8], m: u64, n: u64, out: &mut [u8], place: usize) -> Option<usize>
    ensures out_after { writing result out.new ≡ write_at (two_numbers word.now m n) out.old place }
    ensures n_in_bounds { length (two_numbers word.now m n) ≤ length word.now + 42 }
{
    let mut first = Buffer::new();
    let mut second = Buffer::new();
    let first = first.format(m).as_bytes();
    let second = second.format(n).as_bytes();
    let length = word.len() + ((first.len() + 1) + (second.len() + 1));
    if has_room(out.len(), place, length) {
        put_text(word, out, place);
        let at = place + word.len();
        put_number(first, b' ', out, at);
        put_number(second, b'\n', out, at + (first.len() + 1));
        return Some(length);
    }
    None
}
