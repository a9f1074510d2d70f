// What is found of a row of records, from the first to the last: whether they are no good table, and where a quarter
// stands.
ghost use Rattle.std.specs.Prelude.{◌≡◌, ◌<◌, ◌%◌};
ghost use Rattle.stream_survey.specs.Code.{fitting, nothing_seen, checked, looked_used, looked_free, lookup_in};

use refusals::Refusal;
use stream_records::answers::Entry;
use stream_records::record::StreamRecord;
use wire::units::Quarter;

// No Result: all records are looked at, also behind a bad one, and what was found so far goes from one to the next.
#[derive(Clone, Copy)]
pub struct Survey {
    pub bad: bool,
    pub place: Option<usize>,
}

// How many of n records are looked at: all, or none where they are more than a table holds.
#[tactic(auto, unfolding(crate::specs::Code::fitting))]
pub fn fitting(n: usize) -> usize
    ensures { result ≡ fitting n }
{
    if n > StreamRecord::MAX_RECORDS { 0 } else { n }
}

// The bucket that a used record marks.
pub fn bucket(r: StreamRecord) -> usize
    ensures { (result ≡ r.quarter.0 % 256) × (result < 256) }
{
    (r.quarter.0 % 256) as usize
}

impl Survey {
    // What is known before any of n records is looked at.
    #[tactic(auto, unfolding(crate::specs::Code::nothing_seen))]
    pub fn nothing_seen(n: usize) -> Survey
        ensures { result ≡ nothing_seen n }
    {
        Survey {
            bad: n > StreamRecord::MAX_RECORDS,
            place: None,
        }
    }

    // With a used record at place i.
    #[tactic(auto, unfolding(crate::specs::Code::looked_used, crate::specs::Code::checked, crate::specs::Code::after))]
    pub fn look_used(self, r: StreamRecord, i: usize, again: bool, quarter: Quarter) -> Survey
        ensures { result ≡ looked_used self r i again quarter.0 }
    {
        let next = self.checked(r, again);
        // the quarter first: eight instructions a used record, and nine with the place first
        if r.quarter == quarter && next.place.is_none() {
            Survey {
                place: Some(i),
                ..next
            }
        } else {
            next
        }
    }

    // With a free record.
    #[tactic(auto, unfolding(crate::specs::Code::looked_free, crate::specs::Code::checked))]
    pub fn look_free(self, r: StreamRecord) -> Survey
        ensures { result ≡ looked_free self r }
    {
        self.checked(r, false)
    }

    // What the records looked at, as a table, say of the quarter.
    #[tactic(auto, unfolding(crate::specs::Code::lookup_in, stream_records::specs::Tables::entry_at))]
    pub fn lookup(self, rows: &[StreamRecord]) -> Result<Option<Entry>, Refusal>
        ensures { result ≡ lookup_in self rows.now }
    {
        if self.bad {
            return Err(Refusal::BAD_TABLE);
        }
        match self.place {
            None => Ok(None),
            Some(place) => Ok(Some(Entry {
                place,
                stream: rows.get(place).copied().unwrap_or(StreamRecord::BLANK),
            })),
        }
    }

    // With one record more, as far as it makes the table bad; `again` says whether its quarter stands before it.
    #[tactic(auto, unfolding(crate::specs::Code::checked))]
    fn checked(self, r: StreamRecord, again: bool) -> Survey
        ensures { result ≡ checked self r again }
    {
        Survey {
            bad: again || r.is_bad() || self.bad,
            ..self
        }
    }
}
