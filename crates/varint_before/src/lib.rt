// Varints as they were read before request 3, with tests of its own for the short forms: what bench/calls measures
// beside `read_varint`. The long forms are read by `read_long`, which request 3 did not change in the machine code.
#![tactic(auto)]

ghost use Rattle.std.specs.Prelude.{◌≡◌};
ghost use Rattle.wire.specs.Varint.{read_varint};
ghost use Rattle.answers.specs.Varint.{varint_answer};

use answers::varint::{VarintAnswer, varint_answer};
use wire::varint::{Varint, read_long};

#[unsafe(no_mangle)]
pub extern "C" fn mrz_read_varint_before(bytes: &[u8]) -> VarintAnswer
    ensures { result ≡ varint_answer (read_varint bytes.now) }
{
    varint_answer(read_before(bytes))
}

#[tactic(auto, using(wire::proofs::Reading::front_none, wire::proofs::Reading::front_one, wire::proofs::Reading::front_less, wire::proofs::Forms::from_128, wire::proofs::Forms::short_found, short_forms::proofs::Short::first_two))]
fn read_before(s: &[u8]) -> Option<Varint>
    ensures { result ≡ read_varint s.now }
{
    let &first = s.first()?;
    if first < Varint::FIRST_OF_2 {
        return Some(Varint {
            value: u64::from(first),
            size: 1,
        });
    }
    if first >= Varint::FIRST_OF_4 {
        return read_long(s);
    }
    let &second = s.get(1)?;
    Some(Varint {
        value: (u64::from(first) * 256 + u64::from(second)) % 16384,
        size: 2,
    })
}
