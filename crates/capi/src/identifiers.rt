// Stream IDs and quarter stream IDs, converted.
ghost use Rattle.std.specs.Prelude.{◌≡◌};
ghost use Rattle.wire.specs.Units.{quarter_of, stream_of};
ghost use Rattle.answers.specs.Identifiers.{quarter_answer, stream_answer};
ghost use Rattle.capi.specs.Table.{stream_id_of};

use answers::identifiers::{QuarterAnswer, StreamIdAnswer, quarter_answer, stream_answer};
use wire::units::{Quarter, StreamId};

#[unsafe(no_mangle)]
pub extern "C" fn mrz_quarter_of(stream_id: u64) -> QuarterAnswer
    ensures { result ≡ quarter_answer (quarter_of (stream_id_of stream_id)) }
{
    quarter_answer(StreamId(stream_id).quarter())
}

#[unsafe(no_mangle)]
pub extern "C" fn mrz_stream_id_of(quarter: u64) -> StreamIdAnswer
    ensures { result ≡ stream_answer (stream_of (record { 0 = quarter })) }
{
    stream_answer(Quarter(quarter).stream())
}
