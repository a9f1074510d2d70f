// How numbers are read, and how refusals and errors become numbers.
ghost use Rattle.std.specs.Prelude.{◌≡◌};
ghost use Rattle.answers.specs.Numbers.{side_of, status_of, error_number};

use http_messages::errors::HttpError;
use refusals::Refusal;
use stream_records::record::Side;

// These are no From: the numbers are the C interface's, and From would have to stand in the crates of the types.
pub fn refusal_number(why: Refusal) -> u64
    ensures { result ≡ why.0 }
{
    u64::from(why.0)
}

pub fn error_number(error: Option<HttpError>) -> u64
    ensures { result ≡ error_number error }
{
    match error {
        None => 0,
        Some(e) => e.0,
    }
}

pub fn side_of(n: u64) -> Side
    ensures { result ≡ side_of n }
{
    if n == 0 {
        return Side::Receive;
    }
    Side::Send
}

// 0 for what is no u16, as a status is.
#[tactic(auto, unfolding(crate::specs::Numbers::status_of))]
pub fn status_of(n: u64) -> u16
    ensures { result ≡ status_of n }
{
    u16::try_from(n).unwrap_or(0)
}
