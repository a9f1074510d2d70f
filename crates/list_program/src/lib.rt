// The listing program (document 01, "Bench cases"): the capsules of a stream, one line each.
#![tactic(auto)]

ghost use Rattle.std.specs.Prelude.{true, false, ◌+◌, ◌≤◌, ◌<◌, length};
ghost use Rattle.text_lines.specs.Lines.{end_line, limit_line, longest};
ghost use Rattle.list_program.specs.Progress.{line_in, lent_of, Noted, Ready, Read, Within, Listed};

use capsule::reader::{Ending, Reader};
use opening::{Report, Role};
use refusals::Refusal;
use std::env::FillError;
use std::io::{Cursor, Read, Write};
use std::rt::{Env, Files};
use std::{fs, io};
use text_lines::LONGEST;

// The longest DATAGRAM that is delivered.
const LIMIT: u64 = 1200;

// How far a listing has come. `going` is no Option: the lines that wait are written when there is no more to do, too.
// What is listed, its name and the runtime stay arguments: a struct of three references would be made once and taken
// apart in each function.
#[derive(Clone, Copy)]
struct Progress {
    reader: Reader,
    // how many bytes the input block has, and how many of them are used up
    have: usize,
    used: usize,
    // how many bytes of lines wait in the output block
    held: usize,
    // there is more to do
    going: bool,
}

// What readers are lent, and the lines that wait. The input stays beside it (tried: the proof did not close): of an
// array field behind a reference the check knows the length, not that its items are bytes, as the reader's laws ask.
#[derive(Drop)]
struct Buffers {
    gathering: [u8; 1200],
    // of an endpoint that did not opt in neither is asked for
    addresses: [u8; 0],
    output: [u8; 0],
    block: [u8; 65536],
}

// Lists the file that the one argument names, or standard input where there is none. More arguments are refused.
pub fn run<R: Env + Files + Input + Print + Eprint>(rt: &R) {
    if is_given(rt, 2) {
        let _ = eprintln!(rt; "more than one argument: name one file, or none for standard input");
        return;
    }
    let mut path = [0u8; 4096];
    match rt.arg(1, &mut path) {
        Err(FillError::NotPresent) => list(rt, &mut rt.reader(), "standard input"),
        Err(FillError::TooLong) => {
            let _ = eprintln!(rt; "first argument: File name too long");
        }
        Ok(n) => match std::str::from_utf8(&path[..n]) {
            Ok(name) => list_file(rt, name),
            Err(_) => {
                let _ = eprintln!(rt;
                    "first argument: not UTF-8: such a file is listed by standard input"
                );
            }
        },
    }
}

// Whether there is an argument of this number. The program's own name has number 0.
fn is_given(rt: &impl Env, number: usize) -> bool {
    let mut none = [0u8; 0];
    match rt.arg(number, &mut none) {
        Err(FillError::NotPresent) => false,
        Err(FillError::TooLong) | Ok(_) => true,
    }
}

fn list_file<R: Files + Print + Eprint>(rt: &R, name: &str) {
    match fs::open(rt, name) {
        Ok(mut file) => list(rt, &mut file, name),
        Err(why) => fail(rt, name, why),
    }
}

// A line on standard error: what failed, and the system's words for it, without the number behind them.
fn fail(rt: &impl Eprint, what: &str, why: io::Error) {
    let mut said = Cursor::new([0u8; 256]);
    let _ = write!(said, "{why}");
    let length = said.position().min(256) as usize;
    let said = said.into_inner();
    let text = std::str::from_utf8(&said[..length]).unwrap_or("");
    let words = match text.split_once(" (os error ") {
        Some((words, _)) => words,
        None => text,
    };
    let _ = eprintln!(rt; "{what}: {words}");
}

// Lists what a reader gives. The name is for messages.
fn list(rt: &(impl Print + Eprint), source: &mut impl Read, name: &str) {
    match Reader::open(Role::Endpoint, LIMIT, false, false) {
        Err(_) => {
            let _ = eprintln!(rt; "the limit is refused");
        }
        Ok(reader) => list_all(rt, source, name, reader),
    }
}

// Goes on until the last line waits or a failure was said, and writes what waits then. The bound is there since a reader
// could give bytes for ever.
fn list_all(rt: &(impl Print + Eprint), source: &mut impl Read, name: &str, reader: Reader)
    requires { Ready reader 1200 0 0 }
{
    let mut input = [0u8; 65536];
    let mut buffers = Buffers {
        gathering: [0; 1200],
        addresses: [],
        output: [],
        block: [0; 65536],
    };
    let mut l = start(reader, &mut buffers.block);
    for _ in 0..u64::MAX {
        if !l.going {
            break;
        }
        l = step(rt, source, name, l, &mut input, &mut buffers);
    }
    let _ = write_held(rt, &buffers.block, l.held);
}

// The first line waits.
fn start(reader: Reader, block: &mut [u8]) -> Progress
    requires { longest ≤ length block.old }
    ensures state { Read result reader 0 (length block.new) }
    ensures waits { Noted (limit_line 1200) block.old 0 result.held block.new }
{
    Progress {
        reader,
        have: 0,
        used: 0,
        held: text_lines::write_limit(LIMIT, block, 0).unwrap_or(0),
        going: true,
    }
}

// One step of a listing: writes where a line might not fit, else feeds what was read, else reads.
fn step(
    rt: &(impl Print + Eprint),
    source: &mut impl Read,
    name: &str,
    l: Progress,
    input: &mut [u8],
    buffers: &mut Buffers,
) -> Progress
    requires { Within l (length input.old) 1200 0 0 65536 }
    ensures { Within result (length input.new) 1200 0 0 65536 }
{
    if buffers.block.len() - l.held < LONGEST {
        let going = write_held(rt, &buffers.block, l.held);
        return Progress {
            held: 0,
            going,
            ..l
        };
    }
    if l.used < l.have {
        return list_read(l, input, buffers);
    }
    read_more(rt, source, name, l, input, buffers)
}

// Writes the lines that wait. Standard error gets a line where that fails.
fn write_held(rt: &(impl Print + Eprint), block: &[u8], held: usize) -> bool
    requires { held ≤ length block.now }
{
    match rt.write_all(&block[..held]) {
        Ok(()) => true,
        Err(why) => {
            fail(rt, "standard output", why);
            false
        }
    }
}

// Feeds what was read, until it is used up or a line might not fit any more.
fn list_read(l: Progress, input: &[u8], buffers: &mut Buffers) -> Progress
    requires { Within l (length input.now) 1200 0 0 65536 }
    ensures { Listed l input.now (lent_of buffers.old) buffers.old.block
        result (lent_of buffers.new) buffers.new.block }
{
    let Buffers {
        gathering,
        addresses,
        output,
        block,
    } = buffers;
    let have = l.have;
    let mut reader = l.reader;
    let mut used = l.used;
    let mut held = l.held;
    // each turn goes on behind what the reader consumed, which no iterator knows before
    while used < have && block.len() - held >= LONGEST {
        let fed = reader.feed(&input[used..have], gathering, addresses, output);
        reader = fed.reader;
        match fed.answer {
            Err(why) => {
                let last = note_end(Err(why), block, held);
                return Progress {
                    reader,
                    have,
                    used,
                    held: last,
                    going: false,
                };
            }
            Ok(took) => {
                used += took.consumed;
                held = note(took.ended, block, held);
            }
        }
    }
    Progress {
        reader,
        have,
        used,
        held,
        going: true,
    }
}

// One read, or the last line at the end of the input. Standard error gets a line where reading fails, and there is no
// last line.
fn read_more(
    rt: &impl Eprint,
    source: &mut impl Read,
    name: &str,
    l: Progress,
    input: &mut [u8],
    buffers: &mut Buffers,
) -> Progress
    requires { l.held + longest ≤ 65536 }
    ensures { Read result l.reader (length input.new) 65536 }
{
    let read = Progress {
        have: 0,
        used: 0,
        ..l
    };
    match source.read(input) {
        Err(why) => {
            fail(rt, name, why);
            Progress {
                going: false,
                ..read
            }
        }
        Ok(0) => Progress {
            held: note_end(l.reader.close().answer, &mut buffers.block, l.held),
            going: false,
            ..read
        },
        Ok(have) => Progress {
            have,
            going: true,
            ..read
        },
    }
}

// The line of what ended in a feeding, behind those that wait. Answers what waits then.
#[tactic(auto, unfolding(crate::specs::Progress::line_in))]
fn note(ended: Option<Report>, block: &mut [u8], held: usize) -> usize
    requires { held + longest ≤ length block.old }
    ensures { Noted (line_in ended) block.old held result block.new }
{
    match ended {
        None => held,
        Some(report) => { held + text_lines::write_report(report, block, held).unwrap_or(0) }
    }
}

// The last line, likewise.
fn note_end(end: Result<Ending, Refusal>, block: &mut [u8], held: usize) -> usize
    requires { held + longest ≤ length block.old }
    ensures { Noted (end_line end) block.old held result block.new }
{
    held + text_lines::write_end(end, block, held).unwrap_or(0)
}
