// Refusals, by their numbers in documents 01 and 02.
#![tactic(auto)]

// A refused call changed nothing. The number says why. A number with constants and no enum: the orders of refusals are
// laws of every number (refusal_orders), and constants on their type are a form that the project's scope names
// (docs/PROMISES.md).
#[derive(Clone, Copy)]
pub struct Refusal(pub u8);

impl Refusal {
    pub const UNMAKEABLE_STATE: Refusal = Refusal(1);

    pub const FINISHED: Refusal = Refusal(2);

    pub const LIMIT_TOO_LARGE: Refusal = Refusal(3);

    pub const GATHERING_TOO_SHORT: Refusal = Refusal(4);

    pub const OUTPUT_TOO_SHORT: Refusal = Refusal(5);

    pub const NUMBER_TOO_LARGE: Refusal = Refusal(6);

    pub const NOT_A_REQUEST_STREAM: Refusal = Refusal(7);

    pub const NO_FREE_PLACE: Refusal = Refusal(8);

    pub const ALREADY_IN_TABLE: Refusal = Refusal(9);

    pub const NOT_IN_TABLE: Refusal = Refusal(10);

    pub const FRAMES_NOT_AGREED: Refusal = Refusal(11);

    pub const SEND_SIDE_CLOSED: Refusal = Refusal(12);

    pub const NO_SEMANTICS: Refusal = Refusal(13);

    pub const FRAME_TOO_LONG: Refusal = Refusal(14);

    pub const BAD_TABLE: Refusal = Refusal(15);

    pub const BUFFER_TOO_LONG: Refusal = Refusal(16);

    pub const UNKNOWN_ERROR_OR_VERSION: Refusal = Refusal(17);

    pub const ADDRESSES_TOO_SHORT: Refusal = Refusal(18);

    pub const FIELD_TOO_LONG: Refusal = Refusal(19);

    pub const MALFORMED_TO_WRITE: Refusal = Refusal(26);
}
