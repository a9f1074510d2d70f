// Fast paths of the commonest feedings: between two capsules, where a short header is at the front of the piece, and
// within a value. Any other feeding, refused ones too, is left to the general path.
#![tactic(auto)]

ghost use Rattle.std.specs.Prelude.{◌≡◌, ◌+◌, ◌-◌, ◌≤◌, length, true, Ok, Some};
ghost use Rattle.opening.specs.Kinds.{kind_of, forwards, gathers};
ghost use Rattle.capsule.specs.Calls.{lent};
ghost use Rattle.capsule.specs.Reader.{fresh, verdict_of, stored, wrote};
ghost use Rattle.capsule.specs.Moves.{Wrote};
ghost use Rattle.planning.specs.Plans.{no_bytes};
ghost use Rattle.planning.specs.Headers.{short_header};
ghost use Rattle.fast_paths.specs.FastPaths.{is_plain, whole_fed, whole_of, inside_fed, inside_of};

use copying::copy_span;
use opening::{Kind, Opening, Report, lent_verdict};
use planning::{Header, is_makeable_value, short_header};

#[derive(Clone, Copy)]
pub enum Whole {
    Took {
        consumed: usize,
        written: usize,
        report: Report,
    },
    // all of the piece was consumed, and `left` bytes of the value are to come
    Cut {
        written: usize,
        ctype: u64,
        size: u64,
        left: u64,
    },
}

#[derive(Clone, Copy)]
pub enum Inside {
    // all of the piece was consumed
    Took {
        written: usize,
    },
    // the value has ended
    Ended {
        consumed: usize,
        written: usize,
        report: Report,
    },
}

// A feeding between two capsules. The three lent buffers are arguments of their own, as in C (`mrz_reader_feed`); a
// struct of three `&mut` would be made for each call and taken apart in it.
pub fn feed_whole(
    op: Opening,
    piece: &[u8],
    gathering: &mut [u8],
    addresses: &[u8],
    output: &mut [u8],
) -> Option<Whole>
    ensures { whole_fed result (lent gathering.new addresses.now output.new) ≡ whole_of op piece.now (lent gathering.old addresses.now output.old) }
{
    if op.limit > Opening::MAX_LIMIT {
        return None;
    }
    lent_verdict(
        op,
        piece.len(),
        gathering.len(),
        addresses.len(),
        output.len(),
    )
    .ok()?;
    let header = short_header(piece)?;
    if !is_plain(op, header.ctype) {
        return None;
    }
    Some(take_whole(op, piece, header, gathering, addresses, output))
}

// A feeding within a value of which `left` bytes are to come.
pub fn feed_inside(
    op: Opening,
    ctype: u64,
    size: u64,
    left: u64,
    piece: &[u8],
    gathering: &mut [u8],
    addresses: &[u8],
    output: &mut [u8],
) -> Option<Inside>
    ensures { inside_fed result (lent gathering.new addresses.now output.new) ≡ inside_of op ctype size left piece.now (lent gathering.old addresses.now output.old) }
{
    if op.limit > Opening::MAX_LIMIT {
        return None;
    }
    if !is_plain(op, ctype) {
        return None;
    }
    if !is_makeable_value(op, ctype, size, left) {
        return None;
    }
    let n = piece.len();
    lent_verdict(op, n, gathering.len(), addresses.len(), output.len()).ok()?;
    let place = (size - left) as usize;
    if left <= (n as u64) {
        let end = left as usize;
        let last = move_bytes(op, ctype, size, piece, 0, end, gathering, place, output);
        return Some(Inside::Ended {
            consumed: end,
            written: last,
            report: op.report(ctype, size),
        });
    }
    let written = move_bytes(op, ctype, size, piece, 0, n, gathering, place, output);
    Some(Inside::Took { written })
}

// Whether this is no address capsule: those are left to the general way.
fn is_plain(op: Opening, ctype: u64) -> bool
    ensures { result ≡ is_plain (kind_of op ctype) }
{
    match op.kind(ctype) {
        Kind::Datagram => true,
        Kind::Address => false,
        Kind::Unknown => true,
    }
}

fn take_whole(
    op: Opening,
    piece: &[u8],
    header: Header,
    gathering: &mut [u8],
    addresses: &[u8],
    output: &mut [u8],
) -> Whole
    requires { (verdict_of (fresh op) (length piece.now) (length gathering.old) (length addresses.now) (length output.old) ≡ Ok tt) × (short_header piece.now ≡ Some header) × (is_plain (kind_of op header.ctype) ≡ true) × (header.at ≤ length piece.now) }
    ensures { whole_fed (Some result) (lent gathering.new addresses.now output.new) ≡ whole_of op piece.now (lent gathering.old addresses.now output.old) }
{
    let n = piece.len();
    let ctype = header.ctype;
    let size = header.size;
    let room = (n - header.at) as u64;
    if size > room {
        let cut = move_bytes(op, ctype, size, piece, header.at, n, gathering, 0, output);
        return Whole::Cut {
            written: cut,
            ctype,
            size,
            left: size - room,
        };
    }
    let end = header.at + (size as usize);
    let written = move_bytes(op, ctype, size, piece, header.at, end, gathering, 0, output);
    Whole::Took {
        consumed: end,
        written,
        report: op.report(ctype, size),
    }
}

// The bytes of a piece up to `end`: those from `at` on are the value's, from its byte `place` on. A capsule is
// gathered or forwarded, never both, and each is tried by one branch. Answers how many bytes were forwarded. Places,
// not slices: what is forwarded starts at the piece's front, what is gathered at `at`.
fn move_bytes(
    op: Opening,
    ctype: u64,
    size: u64,
    piece: &[u8],
    at: usize,
    end: usize,
    gathering: &mut [u8],
    place: usize,
    output: &mut [u8],
) -> usize
    requires { (at ≤ end) × (end ≤ length piece.now) × (gathers op ctype size ≡ true → place + (end - at) ≤ length gathering.old) × (forwards op ctype ≡ true → end ≤ length output.old) }
    ensures gathering_after { gathering.new ≡ stored (gathers op ctype size) at end place piece.now gathering.old }
    ensures wrote { Wrote (wrote (forwards op ctype) no_bytes end piece.now) output.old result output.new }
{
    if op.gathers(ctype, size) {
        copy_span(piece, at, gathering, place, end - at);
        return 0;
    }
    if op.forwards(ctype) {
        copy_span(piece, 0, output, 0, end);
        return end;
    }
    0
}
