// A reader that is changed in place behind a `&mut`, alone or in a record of the host's own.
ghost use Rattle.std.specs.Prelude.{◌≡◌};
ghost use Rattle.capsule.specs.Calls.{lent};
ghost use Rattle.capsule.specs.Reader.{feeding, feed_of, closing, close_of};
ghost use Rattle.host.specs.Connections.{SameBeside};

use capsule::reader::{Advance, Ending, Reader};
use refusals::Refusal;

// Feeds the reader where it lies. A refusal changes nothing behind any reference (specs/Claims.antt).
pub fn feed_in_place(
    r: &mut Reader,
    piece: &[u8],
    gathering: &mut [u8],
    addresses: &mut [u8],
    output: &mut [u8],
) -> Result<Advance, Refusal>
    ensures { feeding r.new result (lent gathering.new addresses.new output.new) ≡ feed_of r.old piece.now (lent gathering.old addresses.old output.old) }
{
    let was = *r;
    let fed = was.feed(piece, gathering, addresses, output);
    *r = fed.reader;
    fed.answer
}

// The stream ends here, cleanly.
pub fn close_in_place(r: &mut Reader) -> Result<Ending, Refusal>
    ensures { closing r.new result ≡ close_of r.old }
{
    let closed = (*r).close();
    *r = closed.reader;
    closed.answer
}

// A host's own record, with a reader in it.
#[derive(Clone, Copy)]
pub struct Connection {
    pub id: u64,
    pub reader: Reader,
    pub deadline: u64,
}

// The same for the reader in a connection: no other field changes.
pub fn feed_connection(
    c: &mut Connection,
    piece: &[u8],
    gathering: &mut [u8],
    addresses: &mut [u8],
    output: &mut [u8],
) -> Result<Advance, Refusal>
    ensures { (feeding c.new.reader result (lent gathering.new addresses.new output.new) ≡ feed_of c.old.reader piece.now (lent gathering.old addresses.old output.old))
        × SameBeside c.old c.new }
{
    feed_in_place(&mut c.reader, piece, gathering, addresses, output)
}

pub fn close_connection(c: &mut Connection) -> Result<Ending, Refusal>
    ensures { (closing c.new.reader result ≡ close_of c.old.reader) × SameBeside c.old c.new }
{
    close_in_place(&mut c.reader)
}
