// The bytes that a feeding moves into the lent buffers.
ghost use Rattle.std.specs.Prelude.{◌≡◌, true, ◌+◌, ◌-◌, ◌≤◌, length};
ghost use Rattle.std.proofs.lemmas.List.Edits.{sets};
ghost use Rattle.wire.specs.Bytes.{bytes_of};
ghost use Rattle.capsule.specs.Reader.{stored, wrote};
ghost use Rattle.capsule.specs.Moves.{Wrote};

use wire::partial::Partial;

// The consumed bytes from `at` on, to a buffer for values from `place` on. `store` and `forward` are parts of a plan,
// which the definitions `stored` and `wrote` take too: with the test here, a plan has one place where its bytes are
// moved. The place is the reader's own, and the buffer the host's, who keeps it between feedings.
#[tactic(auto, unfolding(crate::specs::Reader::stored))]
pub(crate) fn store_bytes(
    piece: &[u8],
    gathering: &mut [u8],
    store: bool,
    at: usize,
    consumed: usize,
    place: u64,
)
    requires { (at ≤ consumed) × (consumed ≤ length piece.now) × (store ≡ true → place + (consumed - at) ≤ length gathering.old) }
    ensures { gathering.new ≡ stored store at consumed place piece.now gathering.old }
{
    if store {
        copying::copy_span(piece, at, gathering, place as usize, consumed - at);
    }
}

// The held bytes of a type and then the consumed bytes, to the start of the output. Answers how many.
pub(crate) fn forward_bytes(
    piece: &[u8],
    out: &mut [u8],
    forward: bool,
    held: Partial,
    consumed: usize,
) -> usize
    requires { (consumed ≤ length piece.now) × (held.have ≤ 8) × (forward ≡ true → held.have + consumed ≤ length out.old) }
    ensures { Wrote (wrote forward held consumed piece.now) out.old result out.new }
{
    if !forward {
        return 0;
    }
    put_held(out, held);
    let first = usize::from(held.have);
    copying::copy_span(piece, 0, out, first, consumed);
    first + consumed
}

// The bytes of a part of a varint, at the start of the output.
fn put_held(out: &mut [u8], held: Partial)
    requires { (held.have ≤ 8) × (held.have ≤ length out.old) }
    ensures { out.new ≡ sets out.old 0 (bytes_of held.have held.raw) }
{
    let n = usize::from(held.have);
    let bytes = held.raw.to_be_bytes();
    out[..n].copy_from_slice(&bytes[bytes.len() - n..]);
}
