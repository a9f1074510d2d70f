// Settings, messages, the Capsule-Protocol field, error translation.
ghost use Rattle.std.specs.Prelude.{◌≡◌};
ghost use Rattle.capsule_protocol.specs.Field.{field_of};
ghost use Rattle.http_messages.specs.Messages.{field_counts, request_malformed, response_malformed};
ghost use Rattle.http_messages.specs.Settings.{received_setting, setting_error};
ghost use Rattle.http_errors.specs.Translation.{translated};
ghost use Rattle.reader_words.specs.Numbers.{flag_of, bit_of};
ghost use Rattle.answers.specs.Numbers.{status_of, error_number};
ghost use Rattle.answers.specs.Messages.{message_of, field_answer, translation_answer};

use answers::messages::{
    FieldAnswer, TranslationAnswer, field_answer, message_of, translation_answer,
};
use answers::numbers::{error_number, status_of};
use capsule_protocol::field::read_field;
use http_errors::translation::translate;
use http_messages::messages::{request_malformed, response_malformed};
use http_messages::settings::{received, setting_error};
use reader_words::numbers::{bit_of, flag_of};

#[unsafe(no_mangle)]
pub extern "C" fn mrz_setting_error(value: u64, stored: u64) -> u64
    ensures { result ≡ error_number (setting_error (received_setting value stored)) }
{
    error_number(setting_error(received(value, stored)))
}

#[unsafe(no_mangle)]
pub extern "C" fn mrz_request_malformed(
    content_length: u64,
    content_type: u64,
    transfer_encoding: u64,
) -> u64
    ensures { result ≡ bit_of (request_malformed (flag_of content_length) (flag_of content_type) (flag_of transfer_encoding)) }
{
    bit_of(request_malformed(
        flag_of(content_length),
        flag_of(content_type),
        flag_of(transfer_encoding),
    ))
}

#[unsafe(no_mangle)]
pub extern "C" fn mrz_response_malformed(
    status: u64,
    content_length: u64,
    content_type: u64,
    transfer_encoding: u64,
) -> u64
    ensures { result ≡ bit_of (response_malformed (status_of status) (flag_of content_length) (flag_of content_type) (flag_of transfer_encoding)) }
{
    bit_of(response_malformed(
        status_of(status),
        flag_of(content_length),
        flag_of(content_type),
        flag_of(transfer_encoding),
    ))
}

#[unsafe(no_mangle)]
pub extern "C" fn mrz_field_counts(response: u64, status: u64) -> u64
    ensures { result ≡ bit_of (field_counts (message_of response status)) }
{
    bit_of(message_of(response, status).field_counts())
}

#[unsafe(no_mangle)]
pub extern "C" fn mrz_field_in_use(value: &[u8]) -> FieldAnswer
    ensures { result ≡ field_answer (field_of value.now) }
{
    field_answer(read_field(value))
}

#[unsafe(no_mangle)]
pub extern "C" fn mrz_translate(error: u64, version: u64) -> TranslationAnswer
    ensures { result ≡ translation_answer (translated error version) }
{
    translation_answer(translate(error, version))
}
