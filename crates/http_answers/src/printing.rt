// A line on standard output for each question and its answer.
use capsule_protocol::field::read_field;
use http_errors::translation;
use http_errors::translation::{Action, ErrorCode};
use http_messages::messages::Message;
use http_messages::settings::{BadSetting, setting_error};
use http_messages::{messages, settings};
use show::Hex;
use std::{fmt, io};

#[derive(Clone, Copy)]
struct Flag(bool);

impl fmt::Display for Flag {
    fn fmt<W: fmt::Write>(&self, f: &mut fmt::Formatter<W>) -> fmt::Result {
        write!(f, "{}", u8::from(self.0))
    }
}

// Two digits, or four from 0x0100 on.
#[derive(Clone, Copy)]
struct Code(ErrorCode);

impl fmt::Display for Code {
    fn fmt<W: fmt::Write>(&self, f: &mut fmt::Formatter<W>) -> fmt::Result {
        match self.0.0 {
            n @ ..256 => write!(f, "0x{n:02x}"),
            n => write!(f, "0x{n:04x}"),
        }
    }
}

#[derive(Clone, Copy)]
struct Shown(Action);

impl fmt::Display for Shown {
    fn fmt<W: fmt::Write>(&self, f: &mut fmt::Formatter<W>) -> fmt::Result {
        match self.0 {
            Action::Close(c) => write!(f, "close {}", c.0),
            Action::StreamError(c) => write!(f, "stream {}", Code(c)),
            Action::ConnectionError(c) => write!(f, "connection {}", Code(c)),
        }
    }
}

#[derive(Clone, Copy)]
struct Name(Message);

impl fmt::Display for Name {
    fn fmt<W: fmt::Write>(&self, f: &mut fmt::Formatter<W>) -> fmt::Result {
        match self.0 {
            Message::Request => f.write_str("request"),
            Message::Response { status } => write!(f, "response {status}"),
        }
    }
}

pub(crate) fn translation(rt: &impl Print, error: u64, version: u64) -> io::Result<()> {
    print!(rt; "error {error}, version {version}: ")?;
    match translation::translate(error, version) {
        Err(r) => println!(rt; "refused {}", r.0),
        Ok(None) => println!(rt; "none"),
        Ok(Some(action)) => println!(rt; "{}", Shown(action)),
    }
}

pub(crate) fn setting(rt: &impl Print, value: u64, stored: u64) -> io::Result<()> {
    print!(rt; "setting {value}, stored {stored}: ")?;
    let answer = settings::received(value, stored);
    match answer {
        Ok(value) => print!(rt; "accepted {value}")?,
        Err(BadSetting) => print!(rt; "bad")?,
    }
    if let Some(error) = setting_error(answer) {
        print!(rt; ", error {}", error.0)?;
    }
    println!(rt)
}

fn malformed(
    m: Message,
    content_length: bool,
    content_type: bool,
    transfer_encoding: bool,
) -> bool {
    match m {
        Message::Request => {
            messages::request_malformed(content_length, content_type, transfer_encoding)
        }
        Message::Response { status } => {
            messages::response_malformed(status, content_length, content_type, transfer_encoding)
        }
    }
}

// The fields are Content-Length, Content-Type and Transfer-Encoding.
pub(crate) fn message(
    rt: &impl Print,
    m: Message,
    content_length: bool,
    content_type: bool,
    transfer_encoding: bool,
) -> io::Result<()> {
    let length = Flag(content_length);
    let ctype = Flag(content_type);
    let encoding = Flag(transfer_encoding);
    let bad = Flag(malformed(m, content_length, content_type, transfer_encoding));
    let counts = Flag(m.field_counts());
    print!(rt; "{}, fields {length}{ctype}{encoding}", Name(m))?;
    println!(rt; ": malformed {bad}, field counts {counts}")
}

pub(crate) fn value(rt: &impl Print, bytes: &[u8]) -> io::Result<()> {
    print!(rt; "value {}: ", Hex(bytes))?;
    match read_field(bytes) {
        Ok(true) => println!(rt; "in use"),
        Ok(false) => println!(rt; "absent"),
        Err(why) => println!(rt; "refused {}", why.0),
    }
}
