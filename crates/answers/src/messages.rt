// Messages by numbers, the Capsule-Protocol field's value and what an error becomes, in numbers.
ghost use Rattle.std.specs.Prelude.{◌≡◌};
ghost use Rattle.answers.specs.Messages.{message_of, field_answer, action_answer, translation_answer};

use crate::numbers::{refusal_number, status_of};
use http_errors::translation::Action;
use http_messages::messages::Message;
use reader_words::numbers::flag_of;
use refusals::Refusal;

// in_use: 1 or 0
#[repr(C)]
#[derive(Clone, Copy)]
pub struct FieldAnswer {
    pub refusal: u64,
    pub in_use: u64,
}

// action: 0 none, 1 close, 2 stream error, 3 connection error
#[repr(C)]
#[derive(Clone, Copy)]
pub struct TranslationAnswer {
    pub refusal: u64,
    pub action: u64,
    pub code: u64,
}

pub fn message_of(response: u64, status: u64) -> Message
    ensures { result ≡ message_of response status }
{
    if flag_of(response) {
        return Message::Response {
            status: status_of(status),
        };
    }
    Message::Request
}

#[tactic(auto, unfolding(crate::specs::Messages::field_answer))]
pub fn field_answer(value: Result<bool, Refusal>) -> FieldAnswer
    ensures { result ≡ field_answer value }
{
    match value {
        Err(why) => FieldAnswer {
            refusal: refusal_number(why),
            in_use: 0,
        },
        Ok(in_use) => FieldAnswer {
            refusal: 0,
            in_use: u64::from(in_use),
        },
    }
}

#[tactic(auto, unfolding(crate::specs::Messages::translation_answer))]
pub fn translation_answer(translation: Result<Option<Action>, Refusal>) -> TranslationAnswer
    ensures { result ≡ translation_answer translation }
{
    match translation {
        Err(why) => TranslationAnswer {
            refusal: refusal_number(why),
            action: 0,
            code: 0,
        },
        Ok(action) => action_answer(action),
    }
}

#[tactic(auto, unfolding(crate::specs::Messages::action_answer))]
fn action_answer(action: Option<Action>) -> TranslationAnswer
    ensures { result ≡ action_answer action }
{
    let (action, code) = match action {
        None => (0, 0),
        Some(Action::Close(code)) => (1, code.0),
        Some(Action::StreamError(code)) => (2, code.0),
        Some(Action::ConnectionError(code)) => (3, code.0),
    };
    TranslationAnswer {
        refusal: 0,
        action,
        code,
    }
}
