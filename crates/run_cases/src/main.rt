// Runs the starred bench cases on streams through the reader.
#![tactic(auto)]

use capsule::reader::{Fed, Reader};
use opening::Role;
use show_reader::{Closing, Refused, consumed, feeding};
use std::io;

// One feeding, shown.
fn feed(rt: &impl Print, reader: Reader, piece: &[u8]) -> io::Result<Fed> {
    let mut gathering = [0u8; 1200];
    let mut addresses = [0u8; 0];
    let mut output = [0u8; 64];
    let fed = reader.feed(piece, &mut gathering, &mut addresses, &mut output);
    feeding(rt, fed.answer, &gathering, &addresses, &output, b"\n")?;
    Ok(fed)
}

// Feeds a stream until it is used up, and closes the reader. Each turn goes on behind what the reader consumed, which
// no iterator knows before.
fn read(rt: &impl Print, reader: Reader, stream: &[u8]) -> io::Result<()> {
    let mut reader = reader;
    let mut rest = stream;
    while !rest.is_empty() {
        let fed = feed(rt, reader, rest)?;
        reader = fed.reader;
        let n = consumed(fed.answer);
        if n == 0 || n > rest.len() {
            return Ok(());
        }
        rest = &rest[n..];
    }
    print!(rt; "\n{}", Closing(reader.close().answer))
}

fn case(
    rt: &impl Print,
    name: &str,
    role: Role,
    limit: u64,
    draft: bool,
    stream: &[u8],
) -> io::Result<()> {
    print!(rt; "-- {name}")?;
    match Reader::open(role, limit, draft, false) {
        Err(why) => print!(rt; "\n{}", Refused(why))?,
        Ok(reader) => read(rt, reader, stream)?,
    }
    println!(rt)
}

fn main(rt: HostRuntime) -> io::Result<()> {
    let s = b"\x00\x03abc\x17\x00\x40\x40\x02\xff\xee\x00\x00";
    case(
        &rt,
        "S, endpoint, limit 1200",
        Role::Endpoint,
        1200,
        false,
        s,
    )?;
    case(&rt, "S, endpoint, limit 2", Role::Endpoint, 2, false, s)?;
    case(&rt, "S, intermediary", Role::Intermediary, 1200, false, s)?;
    case(
        &rt,
        "first 8 bytes of S, intermediary",
        Role::Intermediary,
        1200,
        false,
        b"\x00\x03abc\x17\x00\x40",
    )?;
    case(
        &rt,
        "first 9 bytes of S, intermediary",
        Role::Intermediary,
        1200,
        false,
        b"\x00\x03abc\x17\x00\x40\x40",
    )?;
    case(
        &rt,
        "40 00 02 78 79",
        Role::Endpoint,
        1200,
        false,
        b"\x40\x00\x02xy",
    )?;
    case(
        &rt,
        "17 and eight ff, endpoint",
        Role::Endpoint,
        1200,
        false,
        b"\x17\xff\xff\xff\xff\xff\xff\xff\xff",
    )?;
    case(
        &rt,
        "17 and eight ff, intermediary",
        Role::Intermediary,
        1200,
        false,
        b"\x17\xff\xff\xff\xff\xff\xff\xff\xff",
    )?;
    case(&rt, "empty", Role::Endpoint, 1200, false, b"")?;
    case(
        &rt,
        "80 ff 37 a5 01 7a, draft on",
        Role::Endpoint,
        1200,
        true,
        b"\x80\xff\x37\xa5\x01z",
    )?;
    case(
        &rt,
        "80 ff 37 a5 01 7a, draft off",
        Role::Endpoint,
        1200,
        false,
        b"\x80\xff\x37\xa5\x01z",
    )?;
    case(&rt, "limit 65536", Role::Endpoint, 65536, false, b"")
}
