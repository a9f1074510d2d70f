// What a reader answers, in words on standard output, for programs that are held to what they print.
#![tactic(auto)]

ghost use Rattle.std.specs.Prelude.{◌≡◌};
ghost use Rattle.show_reader.specs.Consumed.{consumed_in};

use capsule::reader::{Advance, Ending};
use opening::Report;
use refusals::Refusal;
use show::Hex;
use std::{fmt, io};

#[derive(Clone, Copy)]
pub struct Refused(pub Refusal);

impl fmt::Display for Refused {
    fn fmt<W: fmt::Write>(&self, f: &mut fmt::Formatter<W>) -> fmt::Result {
        write!(f, "refused {}", self.0.0)
    }
}

// The front of a buffer.
fn first(buffer: &[u8], n: usize) -> Hex<'_> {
    Hex(&buffer[..n.min(buffer.len())])
}

// A report. A delivered payload stands at the front of the gathering buffer, a delivered address value at the front of
// the second one.
#[derive(Clone, Copy)]
pub struct Reported<'a> {
    pub report: Report,
    pub gathering: &'a [u8],
    pub addresses: &'a [u8],
}

impl fmt::Display for Reported<'_> {
    fn fmt<W: fmt::Write>(&self, f: &mut fmt::Formatter<W>) -> fmt::Result {
        match self.report {
            Report::Delivered { length } => {
                let payload = first(self.gathering, length as usize);
                write!(f, "delivered {length} ({payload})")
            }
            Report::Dropped { length } => write!(f, "dropped {length}"),
            Report::Skipped { ctype, length } => write!(f, "skipped {ctype} {length}"),
            Report::Passed { ctype, length } => write!(f, "passed {ctype} {length}"),
            Report::AddressDelivered { ctype, length } => {
                let value = first(self.addresses, length as usize);
                write!(f, "address {ctype} {length} ({value})")
            }
            Report::Malformed { ctype, length } => write!(f, "malformed {ctype} {length}"),
        }
    }
}

// What a feeding says, each answer behind some bytes: a refusal, what it wrote, and what ended.
pub fn feeding(
    rt: &impl Print,
    answer: Result<Advance, Refusal>,
    gathering: &[u8],
    addresses: &[u8],
    output: &[u8],
    before: &[u8],
) -> io::Result<()> {
    match answer {
        Err(why) => {
            rt.write_all(before)?;
            print!(rt; "{}", Refused(why))
        }
        Ok(took) => {
            if took.written > 0 {
                rt.write_all(before)?;
                print!(rt; "writes {}", first(output, took.written))?;
            }
            match took.ended {
                None => Ok(()),
                Some(report) => {
                    let reported = Reported {
                        report,
                        gathering,
                        addresses,
                    };
                    rt.write_all(before)?;
                    print!(rt; "{reported}")
                }
            }
        }
    }
}

#[derive(Clone, Copy)]
pub struct Closing(pub Result<Ending, Refusal>);

impl fmt::Display for Closing {
    fn fmt<W: fmt::Write>(&self, f: &mut fmt::Formatter<W>) -> fmt::Result {
        match self.0 {
            Err(why) => write!(f, "{}", Refused(why)),
            Ok(Ending::Clean) => f.write_str("clean"),
            Ok(Ending::Truncated) => f.write_str("truncated"),
        }
    }
}

// How many bytes a feeding consumed: a refused one none.
#[tactic(auto, unfolding(crate::specs::Consumed::consumed_in))]
pub fn consumed(answer: Result<Advance, Refusal>) -> usize
    ensures { result ≡ consumed_in answer }
{
    match answer {
        Err(_) => 0,
        Ok(took) => took.consumed,
    }
}
