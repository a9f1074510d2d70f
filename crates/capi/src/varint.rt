// Varints.
ghost use Rattle.std.specs.Prelude.{◌≡◌};
ghost use Rattle.wire.specs.Varint.{read_varint};
ghost use Rattle.wire.specs.Writing.{write_varint};
ghost use Rattle.answers.specs.Varint.{varint_answer};
ghost use Rattle.capi.specs.Varint.{wrote, wrote_by};

use answers::varint::{VarintAnswer, WrittenAnswer, varint_answer, written_answer};
use wire::varint::{read_varint, write_varint};

// What looks alike here is alike for C alone: each exported name is a function, with the parameters of the header in
// its order.
#[unsafe(no_mangle)]
pub extern "C" fn mrz_read_varint(bytes: &[u8]) -> VarintAnswer
    ensures { result ≡ varint_answer (read_varint bytes.now) }
{
    varint_answer(read_varint(bytes))
}

#[unsafe(no_mangle)]
pub extern "C" fn mrz_write_varint(number: u64, out: &mut [u8], place: u64) -> WrittenAnswer
    ensures { wrote result out.new ≡ wrote_by (write_varint number out.old place) }
{
    let written = write_varint(number, out, place as usize);
    written_answer(written)
}
