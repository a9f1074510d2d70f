// A judged QUIC DATAGRAM payload, in numbers.
ghost use Rattle.std.specs.Prelude.{◌≡◌};
ghost use Rattle.wire.specs.Varint.{read_varint};
ghost use Rattle.http_errors.specs.Ties.{judged_error};
ghost use Rattle.answers.specs.Numbers.{error_number};
ghost use Rattle.stream_answers.specs.Frames.{judged_numbers, delivered_answer, judged_answer};

use answers::numbers::{error_number, refusal_number};
use http_errors::ties::judged_error;
use judging::judge::Judged;
use refusals::Refusal;
use wire::units::Quarter;
use wire::varint::read_varint;

// quarter: with rules 2 to 8; place: with rules 5 to 8; start and length: with rule 8
#[repr(C)]
#[derive(Clone, Copy)]
pub struct JudgedAnswer {
    pub refusal: u64,
    pub rule: u64,
    pub quarter: u64,
    pub place: u64,
    pub start: u64,
    pub length: u64,
    pub error: u64,
}

#[tactic(auto, unfolding(crate::specs::Frames::judged_answer, crate::specs::Frames::or_zero, judging::specs::Judging::rule_of, judging::specs::Judging::quarter_in, judging::specs::Judging::place_in))]
pub fn judged_answer(judged: Result<Judged, Refusal>, frame: &[u8]) -> JudgedAnswer
    ensures { result ≡ judged_answer frame.now judged }
{
    match judged {
        Err(why) => JudgedAnswer {
            refusal: refusal_number(why),
            rule: 0,
            quarter: 0,
            place: 0,
            start: 0,
            length: 0,
            error: 0,
        },
        Ok(Judged::ShortFrame) => ruled(judged, 1, Quarter(0), 0),
        Ok(Judged::QuarterTooLarge { quarter }) => ruled(judged, 2, quarter, 0),
        Ok(Judged::BeyondLimit { quarter }) => ruled(judged, 3, quarter, 0),
        Ok(Judged::NoStream { quarter }) => ruled(judged, 4, quarter, 0),
        Ok(Judged::ReceiveClosed { quarter, place }) => ruled(judged, 5, quarter, place),
        Ok(Judged::NoSemantics { quarter, place }) => ruled(judged, 6, quarter, place),
        Ok(Judged::TooLong { quarter, place }) => ruled(judged, 7, quarter, place),
        Ok(Judged::Delivered { quarter, place }) => delivered(quarter, place, frame),
    }
}

// Rules 1 to 7, by their numbers.
fn ruled(judged: Result<Judged, Refusal>, rule: u64, quarter: Quarter, place: usize) -> JudgedAnswer
    ensures { result ≡ judged_numbers rule (error_number (judged_error judged)) quarter.0 place 0 0 }
{
    JudgedAnswer {
        refusal: 0,
        rule,
        quarter: quarter.0,
        place: place as u64,
        start: 0,
        length: 0,
        error: error_number(judged_error(judged)),
    }
}

// Rule 8: the payload is what follows the quarter.
#[tactic(auto, unfolding(crate::specs::Frames::delivered_answer, crate::specs::Frames::or_zero, judging::specs::Judging::rule_of, judging::specs::Judging::quarter_in, judging::specs::Judging::place_in, http_errors::specs::Ties::judged_error, answers::specs::Numbers::error_number))]
fn delivered(quarter: Quarter, place: usize, frame: &[u8]) -> JudgedAnswer
    ensures { result ≡ delivered_answer quarter place frame.now (read_varint frame.now) }
{
    match read_varint(frame) {
        None => part(quarter, place, 0, 0),
        Some(read) => part(quarter, place, read.size, frame.len() - read.size),
    }
}

fn part(quarter: Quarter, place: usize, start: usize, length: usize) -> JudgedAnswer
    ensures { result ≡ judged_numbers 8 0 quarter.0 place start length }
{
    JudgedAnswer {
        refusal: 0,
        rule: 8,
        quarter: quarter.0,
        place: place as u64,
        start: start as u64,
        length: length as u64,
        error: 0,
    }
}
