// Reports and endings as lines of text (document 01, "Bench cases").
#![tactic(auto)]

mod writing;

ghost use Rattle.std.specs.Prelude.{◌≡◌, ◌≤◌, length};
ghost use Rattle.text_lines.specs.Lines.{limit_line, report_line, end_line, longest};
ghost use Rattle.text_lines.specs.Writing.{writing, write_at};

use crate::writing::{write_one, write_text, write_two};
use capsule::reader::Ending;
use opening::Report;
use refusals::Refusal;

// Each function below answers the length of its line, and nothing where it has no room: then nothing is changed.

// No line is longer.
pub const LONGEST: usize = 64;

// The first line, at a place of the output.
pub fn write_limit(limit: u64, out: &mut [u8], place: usize) -> Option<usize>
    ensures out_after { writing result out.new ≡ write_at (limit_line limit) out.old place }
    ensures limit_len_bound { length (limit_line limit) ≤ longest }
{
    write_one(b"limit ", limit, out, place)
}

// The line of a report.
pub fn write_report(report: Report, out: &mut [u8], place: usize) -> Option<usize>
    ensures out_after { writing result out.new ≡ write_at (report_line report) out.old place }
    ensures report_len_bound { length (report_line report) ≤ longest }
{
    match report {
        Report::Delivered { length } => write_one(b"datagram ", length, out, place),
        Report::Dropped { length } => write_one(b"drop ", length, out, place),
        Report::Skipped { ctype, length } => write_two(b"skip ", ctype, length, out, place),
        Report::Passed { ctype, length } => write_two(b"pass ", ctype, length, out, place),
        Report::AddressDelivered { ctype, length } => {
            write_two(b"address ", ctype, length, out, place)
        }
        Report::Malformed { ctype, length } => write_two(b"malformed ", ctype, length, out, place),
    }
}

// The last line.
pub fn write_end(end: Result<Ending, Refusal>, out: &mut [u8], place: usize) -> Option<usize>
    ensures out_after { writing result out.new ≡ write_at (end_line end) out.old place }
    ensures end_len_bound { length (end_line end) ≤ longest }
{
    match end {
        Ok(ending) => match ending {
            Ending::Clean => write_text(b"end clean\n", out, place),
            Ending::Truncated => write_text(b"end truncated\n", out, place),
        },
        Err(why) => write_one(b"end refused ", why.0 as u64, out, place),
    }
}
