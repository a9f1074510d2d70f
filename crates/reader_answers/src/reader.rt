// What a feeding and a clean close answer, in numbers.
ghost use Rattle.std.specs.Prelude.{◌≡◌};
ghost use Rattle.reader_answers.specs.Reader.{fed_refused, fed_report, fed_took, closed_answer};

use answers::numbers::{error_number, refusal_number};
use capsule::reader::Ending;
use http_errors::ties::{close_error, report_error};
use opening::Report;
use refusals::Refusal;

// report: 0 no capsule ended, 1 delivered, 2 dropped, 3 skipped, 4 passed, 5 address capsule delivered, 6 malformed
// error: the report's
#[repr(C)]
#[derive(Clone, Copy)]
pub struct FedAnswer {
    pub refusal: u64,
    pub consumed: u64,
    pub written: u64,
    pub report: u64,
    pub ctype: u64,
    pub length: u64,
    pub error: u64,
}

// end: 1 clean, 2 truncated
#[repr(C)]
#[derive(Clone, Copy)]
pub struct ClosedAnswer {
    pub refusal: u64,
    pub end: u64,
    pub error: u64,
}

pub fn feed_refused(why: Refusal) -> FedAnswer
    ensures { result ≡ fed_refused why }
{
    FedAnswer {
        refusal: refusal_number(why),
        consumed: 0,
        written: 0,
        report: 0,
        ctype: 0,
        length: 0,
        error: 0,
    }
}

pub fn fed_report(consumed: usize, written: usize, report: Report) -> FedAnswer
    ensures { result ≡ fed_report consumed written report }
{
    match report {
        Report::Delivered { length } => FedAnswer {
            refusal: 0,
            consumed: consumed as u64,
            written: written as u64,
            report: 1,
            ctype: 0,
            length,
            error: 0,
        },
        Report::Dropped { length } => FedAnswer {
            refusal: 0,
            consumed: consumed as u64,
            written: written as u64,
            report: 2,
            ctype: 0,
            length,
            error: 0,
        },
        Report::Skipped { ctype, length } => FedAnswer {
            refusal: 0,
            consumed: consumed as u64,
            written: written as u64,
            report: 3,
            ctype,
            length,
            error: 0,
        },
        Report::Passed { ctype, length } => FedAnswer {
            refusal: 0,
            consumed: consumed as u64,
            written: written as u64,
            report: 4,
            ctype,
            length,
            error: 0,
        },
        Report::AddressDelivered { ctype, length } => FedAnswer {
            refusal: 0,
            consumed: consumed as u64,
            written: written as u64,
            report: 5,
            ctype,
            length,
            error: 0,
        },
        Report::Malformed { ctype, length } => FedAnswer {
            refusal: 0,
            consumed: consumed as u64,
            written: written as u64,
            report: 6,
            ctype,
            length,
            error: error_number(report_error(report)),
        },
    }
}

pub fn fed_took(consumed: usize, written: usize, ended: Option<Report>) -> FedAnswer
    ensures { result ≡ fed_took consumed written ended }
{
    match ended {
        None => FedAnswer {
            refusal: 0,
            consumed: consumed as u64,
            written: written as u64,
            report: 0,
            ctype: 0,
            length: 0,
            error: 0,
        },
        Some(report) => fed_report(consumed, written, report),
    }
}

#[tactic(auto, unfolding(crate::specs::Reader::closed_answer, crate::specs::Reader::close_refusal, answers::specs::Numbers::end_number))]
pub fn closed_answer(answer: Result<Ending, Refusal>) -> ClosedAnswer
    ensures { result ≡ closed_answer answer }
{
    let error = error_number(close_error(answer));
    match answer {
        Err(why) => ClosedAnswer {
            refusal: refusal_number(why),
            end: 0,
            error,
        },
        Ok(ending) => match ending {
            Ending::Clean => ClosedAnswer {
                refusal: 0,
                end: 1,
                error,
            },
            Ending::Truncated => ClosedAnswer {
                refusal: 0,
                end: 2,
                error,
            },
        },
    }
}
