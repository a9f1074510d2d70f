// The errors of documents 01 and 02, by their numbers. A number with constants: the
// theorems on translation speak of every number, and one that is no error's is refused.
#[derive(Clone, Copy)]
pub struct HttpError(pub u64);

impl HttpError {
    pub const TRUNCATED: HttpError = HttpError(1);

    pub const NO_SEMANTICS: HttpError = HttpError(2);

    pub const SHORT_FRAME: HttpError = HttpError(3);

    pub const QUARTER_TOO_LARGE: HttpError = HttpError(4);

    pub const BEYOND_LIMIT: HttpError = HttpError(5);

    pub const BAD_SETTING: HttpError = HttpError(6);

    pub const MALFORMED: HttpError = HttpError(7);
}
