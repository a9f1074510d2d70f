// What a table has of a quarter, and what the calls over a table answer.
use crate::record::StreamRecord;

// Where a side was closed: the place of the stream, and whether it became the blank.
#[derive(Clone, Copy, Debug, PartialEq, Eq)]
pub struct SideClosed {
    pub place: usize,
    pub freed: bool,
}

// What a table has of a quarter: where its record stands, and the record.
#[derive(Clone, Copy)]
pub struct Entry {
    pub place: usize,
    pub stream: StreamRecord,
}
