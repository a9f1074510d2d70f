// Which error an answer of the reader or of judging is.
ghost use Rattle.std.specs.Prelude.{◌≡◌};
ghost use Rattle.http_errors.specs.Ties.{close_error, report_error, judged_error};

use capsule::reader::Ending;
use http_messages::errors::HttpError;
use judging::judge::Judged;
use opening::Report;
use refusals::Refusal;

// A clean close that finds a capsule unfinished is error 1.
#[tactic(auto, unfolding(crate::specs::Ties::close_error, http_messages::specs::Errors::number))]
pub fn close_error(answer: Result<Ending, Refusal>) -> Option<HttpError>
    ensures { result ≡ close_error answer }
{
    match answer {
        Ok(Ending::Truncated) => Some(HttpError::TRUNCATED),
        _ => None,
    }
}

// A malformed capsule is error 7.
#[tactic(auto, unfolding(crate::specs::Ties::report_error, http_messages::specs::Errors::number))]
pub fn report_error(report: Report) -> Option<HttpError>
    ensures { result ≡ report_error report }
{
    match report {
        Report::Malformed { .. } => Some(HttpError::MALFORMED),
        _ => None,
    }
}

// Rule 6 is error 2; rules 1, 2 and 3 are errors 3, 4 and 5.
#[tactic(auto, unfolding(crate::specs::Ties::judged_error, http_messages::specs::Errors::number))]
pub fn judged_error(answer: Result<Judged, Refusal>) -> Option<HttpError>
    ensures { result ≡ judged_error answer }
{
    match answer {
        Ok(Judged::NoSemantics { .. }) => Some(HttpError::NO_SEMANTICS),
        Ok(Judged::ShortFrame) => Some(HttpError::SHORT_FRAME),
        Ok(Judged::QuarterTooLarge { .. }) => Some(HttpError::QUARTER_TOO_LARGE),
        Ok(Judged::BeyondLimit { .. }) => Some(HttpError::BEYOND_LIMIT),
        _ => None,
    }
}
