// Requests and responses that use the Capsule Protocol (RFC 9297, sections 3.2 and 3.4).
ghost use Rattle.std.specs.Prelude.{◌≡◌};
ghost use Rattle.http_messages.specs.Messages.{field_counts, request_malformed, response_malformed, status_malformed};

// No Option of a status: a request is another kind of message, and not a response whose status is missing.
#[derive(Clone, Copy)]
pub enum Message {
    Request,
    // A response with this status.
    Response { status: u16 },
}

impl Message {
    // Whether the Capsule-Protocol field counts on it.
    #[tactic(auto, unfolding(crate::specs::Messages::field_counts))]
    pub fn field_counts(self) -> bool
        ensures { result ≡ field_counts self }
    {
        match self {
            Message::Request => true,
            Message::Response { status } => status == 101 || (200 <= status && status <= 299),
        }
    }
}

// Whether a request that carries these fields is malformed.
#[tactic(auto, unfolding(crate::specs::Messages::request_malformed))]
pub fn request_malformed(content_length: bool, content_type: bool, transfer_encoding: bool) -> bool
    ensures { result ≡ request_malformed content_length content_type transfer_encoding }
{
    content_length || (content_type || transfer_encoding)
}

// Whether a response with this status that carries these fields is malformed.
#[tactic(auto, unfolding(crate::specs::Messages::response_malformed))]
pub fn response_malformed(
    status: u16,
    content_length: bool,
    content_type: bool,
    transfer_encoding: bool,
) -> bool
    ensures { result ≡ response_malformed status content_length content_type transfer_encoding }
{
    status_malformed(status) || request_malformed(content_length, content_type, transfer_encoding)
}

// Whether a response with this status is malformed.
fn status_malformed(status: u16) -> bool
    ensures { result ≡ status_malformed status }
{
    status == 204 || (status == 205 || status == 206)
}
