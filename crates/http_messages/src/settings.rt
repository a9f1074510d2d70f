// The setting SETTINGS_H3_DATAGRAM (RFC 9297, section 2.1.1).
ghost use Rattle.std.specs.Prelude.{◌≡◌};
ghost use Rattle.http_messages.specs.Settings.{received_setting, setting_error};

use crate::errors::HttpError;

// A value that no peer may send.
#[derive(Clone, Copy, Debug, PartialEq, Eq)]
pub struct BadSetting;

// A value that was received, where `stored` is the value stored for 0-RTT, 0 where none is.
#[tactic(auto, unfolding(crate::specs::Settings::received_setting))]
pub fn received(value: u64, stored: u64) -> Result<u64, BadSetting>
    ensures { result ≡ received_setting value stored }
{
    if value > 1 || value < stored {
        return Err(BadSetting);
    }
    Ok(value)
}

// The error of a bad setting, which is error 6.
#[tactic(auto, unfolding(crate::specs::Settings::setting_error, crate::specs::Errors::number))]
pub fn setting_error(setting: Result<u64, BadSetting>) -> Option<HttpError>
    ensures { result ≡ setting_error setting }
{
    match setting {
        Ok(_) => None,
        Err(BadSetting) => Some(HttpError::BAD_SETTING),
    }
}
