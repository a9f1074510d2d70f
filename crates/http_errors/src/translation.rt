// What each error becomes on each HTTP version (document 01).
ghost use Rattle.std.specs.Prelude.{◌≡◌, ◌≤◌, ◌<◌};
ghost use Rattle.http_errors.specs.Translation.{row_of, translated};

use refusals::Refusal;

// A code of HTTP/2 (RFC 9113, section 7) or HTTP/3 (RFC 9114, section 8.1; RFC 9297, section 5.2). It is the number
// that stands on the wire, and its constants are a form that the project's scope names (docs/PROMISES.md).
#[derive(Clone, Copy, Debug, PartialEq, Eq)]
pub struct ErrorCode(pub u64);

impl ErrorCode {
    // HTTP/1.1 has no error codes: document 01 gives 0.
    pub const NO_CODE: ErrorCode = ErrorCode(0);

    pub const PROTOCOL_ERROR: ErrorCode = ErrorCode(0x01);

    pub const H3_DATAGRAM_ERROR: ErrorCode = ErrorCode(0x33);

    pub const H3_ID_ERROR: ErrorCode = ErrorCode(0x0108);

    pub const H3_SETTINGS_ERROR: ErrorCode = ErrorCode(0x0109);

    pub const H3_MESSAGE_ERROR: ErrorCode = ErrorCode(0x010e);
}

// What an error becomes where it arises.
#[derive(Clone, Copy, Debug, PartialEq, Eq)]
pub enum Action {
    // The connection is closed, with no error code on the wire.
    Close(ErrorCode),
    StreamError(ErrorCode),
    ConnectionError(ErrorCode),
}

// None: the error does not arise on this version. A row for each error, 1 to 6, and 7 has that of 1; a column for each
// HTTP version: 1.1, 2, 3.
const ROWS: [[Option<Action>; 3]; 6] = [
    [
        Some(Action::Close(ErrorCode::NO_CODE)),
        Some(Action::StreamError(ErrorCode::PROTOCOL_ERROR)),
        Some(Action::StreamError(ErrorCode::H3_MESSAGE_ERROR)),
    ],
    [
        Some(Action::Close(ErrorCode::NO_CODE)),
        Some(Action::StreamError(ErrorCode::PROTOCOL_ERROR)),
        Some(Action::StreamError(ErrorCode::H3_DATAGRAM_ERROR)),
    ],
    [
        None,
        None,
        Some(Action::ConnectionError(ErrorCode::H3_DATAGRAM_ERROR)),
    ],
    [
        None,
        None,
        Some(Action::ConnectionError(ErrorCode::H3_DATAGRAM_ERROR)),
    ],
    [
        None,
        None,
        Some(Action::ConnectionError(ErrorCode::H3_ID_ERROR)),
    ],
    [
        None,
        None,
        Some(Action::ConnectionError(ErrorCode::H3_SETTINGS_ERROR)),
    ],
];

// An error and an HTTP version by their numbers in documents 01 and 02: version 1 is HTTP/1.1.
pub fn translate(error: u64, version: u64) -> Result<Option<Action>, Refusal>
    ensures { result ≡ translated error version }
{
    match error {
        1..=7 => match version {
            1..=3 => {
                let row = ROWS[row_of(error) as usize];
                let entry = row[(version - 1) as usize];
                Ok(entry)
            }
            _ => Err(Refusal::UNKNOWN_ERROR_OR_VERSION),
        },
        _ => Err(Refusal::UNKNOWN_ERROR_OR_VERSION),
    }
}

fn row_of(error: u64) -> u64
    requires { (1 ≤ error) × (error ≤ 7) }
    ensures { (result ≡ row_of error) × (result < 6) }
{
    if error == 7 {
        return 0;
    }
    error - 1
}
