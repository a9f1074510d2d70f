// The stream table: a row of records that the host keeps.
ghost use Rattle.std.specs.Prelude.{◌≡◌};
ghost use Rattle.stream_records.specs.Tables.{standing_of};
ghost use Rattle.stream_answers.specs.Table.{found_answer};
ghost use Rattle.capi.specs.Table.{stream_id_of, opened, open_table, closed, close_table};

use answers::numbers::side_of;
use reader_words::numbers::flag_of;
use stream_answers::table::{
    FoundAnswer, OpenedAnswer, SideClosedAnswer, closed_answer, found_answer, opened_answer,
};
use stream_records::record::StreamRecord;
use streams::table::{close_side, find_stream, open_stream};
use wire::units::StreamId;

// What looks alike here is alike for C alone: each exported name is a function, with the parameters of the header in
// its order.
#[unsafe(no_mangle)]
pub extern "C" fn mrz_stream_open(
    streams: &mut [StreamRecord],
    stream_id: u64,
    semantics: u64,
) -> OpenedAnswer
    ensures { opened result streams.new ≡ open_table streams.old stream_id semantics }
{
    opened_answer(open_stream(streams, StreamId(stream_id), flag_of(semantics)))
}

#[unsafe(no_mangle)]
pub extern "C" fn mrz_stream_close(
    streams: &mut [StreamRecord],
    stream_id: u64,
    side: u64,
) -> SideClosedAnswer
    ensures { closed result streams.new ≡ close_table streams.old stream_id side }
{
    closed_answer(close_side(streams, StreamId(stream_id), side_of(side)))
}

#[unsafe(no_mangle)]
pub extern "C" fn mrz_stream_find(streams: &[StreamRecord], stream_id: u64) -> FoundAnswer
    ensures { result ≡ found_answer (standing_of streams.now (stream_id_of stream_id)) }
{
    found_answer(find_stream(streams, StreamId(stream_id)))
}
