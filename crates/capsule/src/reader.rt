// The reader: its state goes in by value and comes back.
ghost use Rattle.std.specs.Prelude.{◌≡◌, length, take, Ok};
ghost use Rattle.opening.specs.Kinds.{length_of, judged};
ghost use Rattle.capsule.specs.Calls.{lent, finishes_in};
ghost use Rattle.capsule.specs.Reader.{open_of, is_makeable, verdict_of, judged_in, feeding, take_of, feed_of, end_at, close_of};

use crate::moves::{forward_bytes, store_bytes};
use address_rules::well_formed;
use opening::{Opening, Report, Role, is_last_report, lent_verdict};
use planning::{Phase, held_of, is_makeable_phase, plan_of};
use refusals::Refusal;
use wire::partial::Partial;

#[derive(Clone, Copy, Debug, PartialEq, Eq)]
pub struct Reader {
    pub opening: Opening,
    pub phase: Phase,
    pub finished: bool,
}

// What a feeding did: how many bytes it consumed and forwarded, and the report of the capsule that ended in it.
#[derive(Clone, Copy, Debug, PartialEq, Eq)]
pub struct Advance {
    pub consumed: usize,
    pub written: usize,
    pub ended: Option<Report>,
}

#[derive(Clone, Copy)]
pub struct Fed {
    pub reader: Reader,
    pub answer: Result<Advance, Refusal>,
}

// How a clean close finds the stream.
#[derive(Clone, Copy, Debug, PartialEq, Eq)]
pub enum Ending {
    Clean,
    Truncated,
}

#[derive(Clone, Copy)]
pub struct Closed {
    pub reader: Reader,
    pub answer: Result<Ending, Refusal>,
}

impl Reader {
    // Opening fixes the role, the datagram limit, the draft setting and whether an endpoint takes address capsules.
    #[tactic(auto, unfolding(crate::specs::Reader::open_of, crate::specs::Reader::is_opening))]
    pub fn open(role: Role, limit: u64, draft: bool, addresses: bool) -> Result<Reader, Refusal>
        ensures { result ≡ open_of role limit draft addresses }
    {
        if limit > Opening::MAX_LIMIT {
            return Err(Refusal::LIMIT_TOO_LARGE);
        }
        let opening = Opening {
            role,
            limit,
            draft,
            addresses,
        };
        Ok(Reader {
            opening,
            phase: Phase::InType(Partial::EMPTY),
            finished: false,
        })
    }

    // Whether opening, feeding and closing can make this state.
    #[tactic(auto, unfolding(crate::specs::Reader::is_makeable, crate::specs::Reader::is_opening))]
    pub fn is_makeable(self) -> bool
        ensures { result ≡ is_makeable self }
    {
        self.opening.limit <= Opening::MAX_LIMIT && is_makeable_phase(self.opening, self.phase)
    }

    // What a feeding is refused for, by the lengths of the piece and of the lent buffers. The lent buffers are
    // arguments of their own, as in C (`mrz_reader_feed`) and in the definitions (`lent`).
    #[tactic(auto, unfolding(crate::specs::Reader::verdict_of))]
    pub fn verdict(
        self,
        piece: usize,
        gathering: usize,
        addresses: usize,
        output: usize,
    ) -> Result<(), Refusal>
        ensures { result ≡ verdict_of self piece gathering addresses output }
    {
        if !self.is_makeable() {
            return Err(Refusal::UNMAKEABLE_STATE);
        }
        if self.finished {
            return Err(Refusal::FINISHED);
        }
        lent_verdict(self.opening, piece, gathering, addresses, output)
    }

    // Consumes the piece up to the end of the first capsule to end in it, or all of it.
    #[tactic(auto, using(crate::proofs::Verdicts::feed_taken))]
    pub fn feed(
        self,
        piece: &[u8],
        gathering: &mut [u8],
        addresses: &mut [u8],
        output: &mut [u8],
    ) -> Fed
        ensures { feeding result.reader result.answer (lent gathering.new addresses.new output.new) ≡ feed_of self piece.now (lent gathering.old addresses.old output.old) }
    {
        match self.verdict(piece.len(), gathering.len(), addresses.len(), output.len()) {
            Ok(()) => self.take(piece, gathering, addresses, output),
            Err(why) => Fed {
                reader: self,
                answer: Err(why),
            },
        }
    }

    // The stream ends here, cleanly.
    #[tactic(auto, unfolding(crate::specs::Reader::close_of))]
    pub fn close(self) -> Closed
        ensures { result ≡ close_of self }
    {
        if !self.is_makeable() {
            return Closed {
                reader: self,
                answer: Err(Refusal::UNMAKEABLE_STATE),
            };
        }
        if self.finished {
            return Closed {
                reader: self,
                answer: Err(Refusal::FINISHED),
            };
        }
        Closed {
            reader: Reader {
                finished: true,
                ..self
            },
            answer: Ok(end_at(self.phase)),
        }
    }

    // A feeding that is not refused: plan first, then move the bytes.
    fn take(
        self,
        piece: &[u8],
        gathering: &mut [u8],
        addresses: &mut [u8],
        output: &mut [u8],
    ) -> Fed
        requires { verdict_of self (length piece.now) (length gathering.old) (length addresses.old) (length output.old) ≡ Ok tt }
        ensures { feeding result.reader result.answer (lent gathering.new addresses.new output.new) ≡ take_of self piece.now (lent gathering.old addresses.old output.old) }
    {
        let plan = plan_of(self.opening, piece, self.phase);
        store_bytes(
            piece,
            gathering,
            plan.store,
            plan.at,
            plan.consumed,
            plan.place,
        );
        store_bytes(
            piece,
            addresses,
            plan.keep,
            plan.at,
            plan.consumed,
            plan.place,
        );
        let held = held_of(self.phase);
        let written = forward_bytes(piece, output, plan.forward, held, plan.consumed);
        let ended = judge(plan.ended, addresses);
        Fed {
            reader: Reader {
                opening: self.opening,
                phase: plan.next,
                finished: is_last(ended),
            },
            answer: Ok(Advance {
                consumed: plan.consumed,
                written,
                ended,
            }),
        }
    }
}

#[tactic(auto, unfolding(crate::specs::Reader::judged_in))]
fn judge(ended: Option<Report>, addresses: &[u8]) -> Option<Report>
    ensures { result ≡ judged_in ended addresses.now }
{
    Some(judge_report(ended?, addresses))
}

// Whether nothing may follow.
#[tactic(auto, unfolding(crate::specs::Calls::finishes_in))]
fn is_last(ended: Option<Report>) -> bool
    ensures { result ≡ finishes_in ended }
{
    ended.is_some_and(is_last_report)
}

// How a clean close finds the stream.
#[tactic(auto, unfolding(crate::specs::Reader::end_at))]
fn end_at(phase: Phase) -> Ending
    ensures { result ≡ end_at phase }
{
    match phase {
        Phase::InType(part) if part.have == 0 => Ending::Clean,
        _ => Ending::Truncated,
    }
}

// A value of an address capsule is judged where it stands: at the front of the second buffer.
#[tactic(auto, unfolding(opening::specs::Kinds::judged, opening::specs::Kinds::length_of))]
fn judge_report(report: Report, addresses: &[u8]) -> Report
    ensures { result ≡ judged report (take (length_of report) addresses.now) }
{
    if let Report::AddressDelivered { ctype, length } = report {
        let n = addresses.len().min(length as usize);
        if !well_formed(ctype, &addresses[..n]) {
            return Report::Malformed { ctype, length };
        }
    }
    report
}
