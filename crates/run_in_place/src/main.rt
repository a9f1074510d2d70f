// Reads two streams in place, each cut in two at every byte: each cut gives the same reports.
#![tactic(auto)]

ghost use Rattle.std.specs.Prelude.{◌≡◌};
ghost use Rattle.capsule.specs.Calls.{lent};
ghost use Rattle.capsule.specs.Reader.{feeding, feed_of, closing, close_of};
ghost use Rattle.host.specs.Connections.{SameBeside};

use capsule::reader::{Advance, Ending, Reader};
use host::reader::{Connection, close_connection, feed_connection};
use opening::Role;
use refusals::Refusal;
use show_reader::{Closing, Refused, consumed, feeding};
use std::io;

// A connection after a feeding and, of that, after a close, with both answers.
#[derive(Clone, Copy)]
struct Served {
    connection: Connection,
    answer: Result<Advance, Refusal>,
    closed: Connection,
    ending: Result<Ending, Refusal>,
}

// Feeds a connection and then closes it, both in place: callers of this hold no reference to a record. What is lent
// stays arguments, as in the call of `host` that this program shows.
fn serve(
    connection: Connection,
    piece: &[u8],
    gathering: &mut [u8],
    addresses: &mut [u8],
    output: &mut [u8],
) -> Served
    ensures { (feeding result.connection.reader result.answer (lent gathering.new addresses.new output.new) ≡ feed_of connection.reader piece.now (lent gathering.old addresses.old output.old))
        × SameBeside connection result.connection × (closing result.closed.reader result.ending ≡ close_of result.connection.reader) × SameBeside result.connection result.closed }
{
    let mut own = connection;
    let answer = feed_connection(&mut own, piece, gathering, addresses, output);
    let fed = own;
    let ending = close_connection(&mut own);
    Served {
        connection: fed,
        answer,
        closed: own,
        ending,
    }
}

// One feeding, shown.
fn feed(
    rt: &impl Print,
    connection: Connection,
    piece: &[u8],
    gathering: &mut [u8],
    addresses: &mut [u8],
) -> io::Result<Served> {
    let mut output = [0u8; 0];
    let served = serve(connection, piece, gathering, addresses, &mut output);
    feeding(rt, served.answer, gathering, addresses, &output, b" ")?;
    Ok(served)
}

// Feeds a piece until it is used up. The two buffers for values are the same in every feeding. Each turn goes on
// behind what the reader consumed, which no iterator knows before.
fn read(
    rt: &impl Print,
    connection: Connection,
    piece: &[u8],
    gathering: &mut [u8],
    addresses: &mut [u8],
) -> io::Result<Connection> {
    let mut connection = connection;
    let mut rest = piece;
    while !rest.is_empty() {
        let served = feed(rt, connection, rest, gathering, addresses)?;
        connection = served.connection;
        let n = consumed(served.answer);
        if n == 0 || n > rest.len() {
            break;
        }
        rest = &rest[n..];
    }
    Ok(connection)
}

// A close, shown: an empty piece before it changes nothing.
fn close(
    rt: &impl Print,
    connection: Connection,
    gathering: &mut [u8],
    addresses: &mut [u8],
) -> io::Result<()> {
    let mut output = [0u8; 0];
    let served = serve(connection, b"", gathering, addresses, &mut output);
    print!(rt; " {}", Closing(served.ending))
}

fn connected(reader: Reader) -> Connection {
    Connection {
        id: 7,
        reader,
        deadline: 30,
    }
}

// Two pieces, read by an endpoint that opted in or did not, and a clean close.
fn read_two(
    rt: &impl Print,
    opt_in: bool,
    first: &[u8],
    second: &[u8],
    addresses: &mut [u8],
) -> io::Result<()> {
    match Reader::open(Role::Endpoint, 1200, false, opt_in) {
        Err(why) => print!(rt; " {}", Refused(why)),
        Ok(reader) => {
            let mut gathering = [0u8; 1200];
            let c = read(rt, connected(reader), first, &mut gathering, addresses)?;
            let d = read(rt, c, second, &mut gathering, addresses)?;
            close(rt, d, &mut gathering, addresses)
        }
    }
}

// The same as a line of its own, behind a name.
fn line(
    rt: &impl Print,
    name: &str,
    opt_in: bool,
    first: &[u8],
    second: &[u8],
    addresses: &mut [u8],
) -> io::Result<()> {
    print!(rt; "{name}:")?;
    read_two(rt, opt_in, first, second, addresses)?;
    println!(rt)
}

fn cut_everywhere(rt: &impl Print, opt_in: bool, stream: &[u8]) -> io::Result<()> {
    for k in 0..=stream.len() {
        let (first, rest) = stream.split_at(k);
        let mut addresses = [0u8; 1024];
        print!(rt; "cut {k}:")?;
        read_two(rt, opt_in, first, rest, &mut addresses)?;
        println!(rt)?;
    }
    Ok(())
}

// The first capsule, read by a reader that lies in a record.
fn in_a_record(rt: &impl Print, piece: &[u8]) -> io::Result<()> {
    print!(rt; "in a record:")?;
    match Reader::open(Role::Endpoint, 1200, false, true) {
        Err(why) => println!(rt; " {}", Refused(why)),
        Ok(reader) => {
            let mut gathering = [0u8; 1200];
            let mut addresses = [0u8; 1024];
            let served = feed(rt, connected(reader), piece, &mut gathering, &mut addresses)?;
            let Connection { id, deadline, .. } = served.closed;
            println!(rt; " id {id} deadline {deadline} {}", Closing(served.ending))
        }
    }
}

// A malformed capsule finishes the reader: what is fed after it, and the close, are refused.
fn malformed(rt: &impl Print) -> io::Result<()> {
    let mut addresses = [0u8; 1024];
    line(
        rt,
        "malformed",
        true,
        b"\x01\x07\x00\x05\x00\x00\x00\x00\x00\x17\x00",
        b"\x17\x00",
        &mut addresses,
    )?;
    line(
        rt,
        "no request",
        true,
        b"\x17\x00\x02",
        b"\x00\x17\x00",
        &mut addresses,
    )?;
    line(
        rt,
        "too long",
        true,
        b"\x01\x44",
        b"\x01\x00",
        &mut addresses,
    )
}

// The second buffer is one byte short for an endpoint that opted in.
fn short(rt: &impl Print) -> io::Result<()> {
    let mut addresses = [0u8; 1023];
    line(
        rt,
        "short, opted in",
        true,
        b"\x03",
        b"\x00",
        &mut addresses,
    )?;
    line(
        rt,
        "short, not opted in",
        false,
        b"\x03",
        b"\x00",
        &mut addresses,
    )
}

fn main(rt: HostRuntime) -> io::Result<()> {
    in_a_record(&rt, b"\x00\x03abc")?;
    in_a_record(&rt, b"\x03\x00")?;
    cut_everywhere(
        &rt,
        false,
        b"\x00\x03abc\x17\x00\x40\x40\x02\xff\xee\x00\x00",
    )?;
    // an ADDRESS_REQUEST, an ADDRESS_ASSIGN and a ROUTE_ADVERTISEMENT
    cut_everywhere(
        &rt,
        true,
        b"\x02\x07\x01\x04\x00\x00\x00\x00\x00\x01\x07\x01\x04\x0a\x00\x00\x01\x20\x03\x0a\x04\x0a\x00\x00\x00\x0a\x00\x00\xff\x00",
    )?;
    malformed(&rt)?;
    short(&rt)
}
