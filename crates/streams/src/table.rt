// The stream table: a lent row of at most 64 stream records.
ghost use Rattle.std.specs.Prelude.{◌≡◌, ◌≤◌, length, take, drop, All, IsTrue};
ghost use Rattle.std.specs.List.{list_any};
ghost use Rattle.stream_records.specs.Records.{is_used, is_blank, holds};
ghost use Rattle.stream_records.specs.Tables.{lowest_free, lookup_of, sought, opening_of, table_opened, closing_of, table_closed, standing_of};
ghost use Rattle.stream_plans.specs.Code.{opening_plan_of, closing_plan_of, stored};
ghost use Rattle.stream_survey.specs.Code.{survey_of};

use refusals::Refusal;
use stream_plans::plan;
use stream_plans::plan::{Plan, sought};
use stream_records::answers::{Entry, SideClosed};
use stream_records::record::{Side, StreamRecord};
use stream_survey::survey;
use stream_survey::survey::Survey;
use wire::units::{Quarter, StreamId};

// Opens a stream at the lowest free place, both sides open. Opening and closing answer what their plans say
// (`Plan<A>`), and store the record with `put`; the three lines that are alike carry two different promises.
pub fn open_stream(
    rows: &mut [StreamRecord],
    id: StreamId,
    semantics: bool,
) -> Result<usize, Refusal>
    ensures { (result ≡ opening_of rows.old id) × (rows.new ≡ table_opened rows.old id semantics result) }
{
    let plan = plan_opening(rows, id, semantics);
    put(rows, plan.store);
    plan.answer
}

// Closes a side of a stream.
pub fn close_side(
    rows: &mut [StreamRecord],
    id: StreamId,
    side: Side,
) -> Result<SideClosed, Refusal>
    ensures { (result ≡ closing_of rows.old id side) × (rows.new ≡ table_closed rows.old side result) }
{
    let plan = plan_closing(rows, id, side);
    put(rows, plan.store);
    plan.answer
}

// Where a stream stands.
pub fn find_stream(rows: &[StreamRecord], id: StreamId) -> Result<usize, Refusal>
    ensures { result ≡ standing_of rows.now id }
{
    plan::standing(look_up(rows, sought(id)), id)
}

// Where the record of a quarter stands.
pub fn look_up(rows: &[StreamRecord], quarter: Quarter) -> Result<Option<Entry>, Refusal>
    ensures { result ≡ lookup_of quarter.0 rows.now }
{
    look_through(rows, quarter).lookup(rows)
}

fn plan_opening(
    rows: &[StreamRecord],
    id: StreamId,
    semantics: bool,
) -> Plan<Result<usize, Refusal>>
    ensures { result ≡ opening_plan_of (lookup_of (sought id) rows.now) (lowest_free rows.now) id semantics }
{
    let lookup = look_up(rows, sought(id));
    plan::opening(lookup, lowest_free(rows), id, semantics)
}

// Stores a record at a place, if the row has it.
#[tactic(auto, unfolding(stream_plans::specs::Code::stored))]
fn put(rows: &mut [StreamRecord], store: Option<(usize, StreamRecord)>)
    ensures { rows.new ≡ stored rows.old store }
{
    if let Some((place, record)) = store {
        if place < rows.len() {
            rows[place] = record;
        }
    }
}

// The lowest free place. A loop that yields the first one by break is a form that the project's scope names
// (docs/PROMISES.md).
fn lowest_free(rows: &[StreamRecord]) -> Option<usize>
    ensures { result ≡ lowest_free rows.now }
{
    let n = rows.len();
    let mut i: usize = 0;
    loop {
        if i == n {
            break None;
        }
        if !rows[i].is_used() {
            break Some(i);
        }
        i += 1;
    }
}

fn plan_closing(
    rows: &[StreamRecord],
    id: StreamId,
    side: Side,
) -> Plan<Result<SideClosed, Refusal>>
    ensures { result ≡ closing_plan_of (lookup_of (sought id) rows.now) id side }
{
    plan::closing(look_up(rows, sought(id)), id, side)
}

// From the first record to the last. Each used one marks its quarter's bucket, and the records before it are searched
// for its quarter only if the bucket is marked already.
fn look_through(rows: &[StreamRecord], quarter: Quarter) -> Survey
    ensures { result ≡ survey_of quarter.0 rows.now }
{
    let end = occupied(rows, survey::fitting(rows.len()));
    let mut known = Survey::nothing_seen(rows.len());
    let mut seen = [false; 256];
    for (i, record) in rows[..end].iter().enumerate() {
        if record.is_used() {
            let b = survey::bucket(*record);
            let again = seen[b] && stands_below(rows, i, record.quarter);
            seen[b] = true;
            known = known.look_used(*record, i, again, quarter);
        } else {
            known = known.look_free(*record);
        }
    }
    known
}

// How many of the first n records there are up to the last that is not the blank. Most tables end with many blanks.
fn occupied(rows: &[StreamRecord], n: usize) -> usize
    requires { n ≤ length rows.now }
    ensures within { result ≤ n }
    ensures blank { All (λ r. IsTrue (is_blank r)) (drop result (take n rows.now)) }
{
    match rows[..n].iter().rposition(|r| !r.is_blank()) {
        None => 0,
        Some(i) => i + 1,
    }
}

// Whether a used record below a place has the quarter. A loop without an exit first asks whether any record has its
// number, which in a good table is so for quarter 0 alone: 64 records of one bucket take half as long as with the
// search alone.
fn stands_below(rows: &[StreamRecord], place: usize, quarter: Quarter) -> bool
    requires { place ≤ length rows.now }
    ensures { result ≡ list_any (holds quarter.0) (take place rows.now) }
{
    let mut met = false;
    for r in &rows[..place] {
        if r.quarter == quarter {
            met = true;
        }
    }
    met && rows[..place].iter().any(|r| r.holds(quarter))
}
