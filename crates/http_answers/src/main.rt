// Prints what the crates http_messages, capsule_protocol and http_errors answer, a line for each question.
#![tactic(auto)]

mod printing;

use http_messages::errors::HttpError;
use http_messages::messages::Message;
use printing::{message, setting, translation, value};
use std::io;

fn table(rt: &impl Print) -> io::Result<()> {
    for error in [
        HttpError::TRUNCATED,
        HttpError::NO_SEMANTICS,
        HttpError::SHORT_FRAME,
        HttpError::QUARTER_TOO_LARGE,
        HttpError::BEYOND_LIMIT,
        HttpError::BAD_SETTING,
        HttpError::MALFORMED,
    ] {
        for version in 1..=3 {
            translation(rt, error.0, version)?;
        }
    }
    Ok(())
}

fn unknown(rt: &impl Print) -> io::Result<()> {
    for (error, version) in [(0, 3), (8, 3), (u64::MAX, 3), (1, 0), (1, 4)] {
        translation(rt, error, version)?;
    }
    Ok(())
}

fn settings(rt: &impl Print) -> io::Result<()> {
    for (value, stored) in [(0, 0), (1, 1), (1, 0), (0, 1), (2, 0), (1, 2)] {
        setting(rt, value, stored)?;
    }
    Ok(())
}

fn requests(rt: &impl Print) -> io::Result<()> {
    message(rt, Message::Request, false, false, false)?;
    message(rt, Message::Request, true, false, false)?;
    message(rt, Message::Request, false, true, false)?;
    message(rt, Message::Request, false, false, true)
}

fn responses(rt: &impl Print) -> io::Result<()> {
    for status in [0, 101, 199, 200, 203, 204, 205, 206, 207, 299, 300] {
        message(rt, Message::Response { status }, false, false, false)?;
    }
    Ok(())
}

fn responses_with_fields(rt: &impl Print) -> io::Result<()> {
    let response = Message::Response { status: 200 };
    message(rt, response, true, false, false)?;
    message(rt, response, false, true, false)?;
    message(rt, response, false, false, true)
}

fn values_in_use(rt: &impl Print) -> io::Result<()> {
    value(rt, b"?1")?;
    value(rt, b"  ?1  ")?;
    value(rt, b"?1;v=2")?;
    value(rt, b" ?1;v=1; w=2 ")?;
    value(rt, b"?1;*a.b-c_d*9")?;
    value(rt, b"?1;a=?0;b=:Zg:;c=\"x\\\"\";d=*t;e=-1.5")
}

fn absent_values(rt: &impl Print) -> io::Result<()> {
    value(rt, b"")?;
    value(rt, b"?0")?;
    value(rt, b"?1\t")?;
    value(rt, b"? 1")?;
    value(rt, b"?1 ;v")?;
    value(rt, b"?1;")?;
    value(rt, b"?1;V=1")?;
    value(rt, b"?1,?1")?;
    value(rt, b"?1;v=(1)")?;
    value(rt, b"1")
}

fn main(rt: HostRuntime) -> io::Result<()> {
    table(&rt)?;
    unknown(&rt)?;
    settings(&rt)?;
    requests(&rt)?;
    responses(&rt)?;
    responses_with_fields(&rt)?;
    values_in_use(&rt)?;
    absent_values(&rt)
}
