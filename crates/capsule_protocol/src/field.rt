// The field's value.
ghost use Rattle.std.specs.Prelude.{◌≡◌, true};
ghost use Rattle.capsule_protocol.specs.Field.{field_of, in_use};

use crate::stages::{Reading, Stage};
use refusals::Refusal;

// the longest value that is read
pub const LONGEST: usize = 1024;

// Whether the value says that the Capsule Protocol is in use: an item that is the Boolean true, whatever its
// parameters. `?0`, a list, another item and what is no structured field at all do not.
#[tactic(auto, unfolding(crate::specs::Field::field_of))]
pub fn read_field(value: &[u8]) -> Result<bool, Refusal>
    ensures { result ≡ field_of value.now }
{
    if value.len() > LONGEST {
        Err(Refusal::FIELD_TOO_LONG)
    } else if is_plain(value) {
        Ok(true)
    } else {
        Ok(in_use(value))
    }
}

// `?1` alone, without spaces and parameters.
#[tactic(auto, using(crate::proofs::Values::plain))]
fn is_plain(value: &[u8]) -> bool
    ensures { result ≡ true → in_use value.now ≡ true }
{
    matches!(value, [b'?', b'1'])
}

// Byte by byte: what has been read so far is a stage of the grammar and a count of digits. The bytes that leave the
// stage as it is are passed over at once. The loop goes on behind a run of any length, which an iterator over bytes
// would visit one by one.
#[tactic(auto, using(crate::proofs::Steps::from_front, crate::proofs::Steps::ends_from))]
fn in_use(value: &[u8]) -> bool
    ensures { result ≡ in_use value.now }
{
    let mut reading = Reading::START;
    let mut rest = value;
    while let Some((&b, tail)) = rest.split_first() {
        reading = reading.next(b);
        if let Stage::Wrong = reading.stage {
            return false;
        }
        rest = &tail[reading.run(tail)..];
    }
    reading.may_end()
}
