// Varints read and written, in numbers.
ghost use Rattle.std.specs.Prelude.{◌≡◌};
ghost use Rattle.answers.specs.Varint.{varint_answer, written_answer};

use crate::numbers::refusal_number;
use refusals::Refusal;
use wire::varint::Varint;

// size 0: incomplete. Each answer is a struct of the C interface, with the names that C reads, so each has a function
// that makes it.
#[repr(C)]
#[derive(Clone, Copy)]
pub struct VarintAnswer {
    pub value: u64,
    pub size: u64,
}

#[repr(C)]
#[derive(Clone, Copy)]
pub struct WrittenAnswer {
    pub refusal: u64,
    pub written: u64,
}

#[tactic(auto, unfolding(crate::specs::Varint::written_answer))]
pub fn written_answer(written: Result<usize, Refusal>) -> WrittenAnswer
    ensures { result ≡ written_answer written }
{
    match written {
        Err(why) => WrittenAnswer {
            refusal: refusal_number(why),
            written: 0,
        },
        Ok(count) => WrittenAnswer {
            refusal: 0,
            written: count as u64,
        },
    }
}

#[tactic(auto, unfolding(crate::specs::Varint::varint_answer))]
pub fn varint_answer(read: Option<Varint>) -> VarintAnswer
    ensures { result ≡ varint_answer read }
{
    match read {
        None => VarintAnswer { value: 0, size: 0 },
        Some(read) => VarintAnswer {
            value: read.value,
            size: read.size as u64,
        },
    }
}
