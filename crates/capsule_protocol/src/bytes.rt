// Classes of bytes (RFC 8941, section 3). The larger ones test letters and digits first and return, since most bytes
// are these. By `matches!`, where each range is a branch, a key or a string of 1,024 bytes takes more than three times
// as long.
ghost use Rattle.std.specs.Prelude.{◌≡◌};
ghost use Rattle.capsule_protocol.specs.Bytes.{is_lower, is_alpha, is_digit, is_key_start, is_key_byte, is_unescaped, is_escapable, is_token_start, is_token_byte, is_base64, is_bit};

#[tactic(auto, unfolding(crate::specs::Bytes::is_key_start))]
pub(crate) fn is_key_start(b: u8) -> bool
    ensures { result ≡ is_key_start b }
{
    is_lower(b) | (b == b'*')
}

#[tactic(auto, unfolding(crate::specs::Bytes::is_key_byte))]
pub(crate) fn is_key_byte(b: u8) -> bool
    ensures { result ≡ is_key_byte b }
{
    if is_key_start(b) {
        return true;
    }
    if is_digit(b) {
        return true;
    }
    (b == b'_') | (b == b'-') | (b == b'.')
}

#[tactic(auto, unfolding(crate::specs::Bytes::is_digit))]
pub(crate) fn is_digit(b: u8) -> bool
    ensures { result ≡ is_digit b }
{
    (b'0' <= b) & (b <= b'9')
}

#[tactic(auto, unfolding(crate::specs::Bytes::is_unescaped))]
pub(crate) fn is_unescaped(b: u8) -> bool
    ensures { result ≡ is_unescaped b }
{
    ((0x20 <= b) & (b <= 0x21)) | ((0x23 <= b) & (b <= 0x5b)) | ((0x5d <= b) & (b <= 0x7e))
}

#[tactic(auto, unfolding(crate::specs::Bytes::is_escapable))]
pub(crate) fn is_escapable(b: u8) -> bool
    ensures { result ≡ is_escapable b }
{
    (b == 0x22) | (b == 0x5c)
}

#[tactic(auto, unfolding(crate::specs::Bytes::is_token_start))]
pub(crate) fn is_token_start(b: u8) -> bool
    ensures { result ≡ is_token_start b }
{
    is_alpha(b) | (b == b'*')
}

#[tactic(auto, unfolding(crate::specs::Bytes::is_token_byte))]
pub(crate) fn is_token_byte(b: u8) -> bool
    ensures { result ≡ is_token_byte b }
{
    if is_token_start(b) {
        return true;
    }
    if is_digit(b) {
        return true;
    }
    (b == b'!')
        | ((b'#' <= b) & (b <= 0x27))
        | (b == b'+')
        | (b == b'-')
        | (b == b'.')
        | (b == b'^')
        | (b == b'_')
        | (b == 0x60)
        | (b == b'|')
        | (b == b'~')
        | (b == b':')
        | (b == b'/')
}

#[tactic(auto, unfolding(crate::specs::Bytes::is_base64))]
pub(crate) fn is_base64(b: u8) -> bool
    ensures { result ≡ is_base64 b }
{
    if is_alpha(b) {
        return true;
    }
    if is_digit(b) {
        return true;
    }
    (b == b'+') | (b == b'/') | (b == b'=')
}

#[tactic(auto, unfolding(crate::specs::Bytes::is_bit))]
pub(crate) fn is_bit(b: u8) -> bool
    ensures { result ≡ is_bit b }
{
    (b == b'0') | (b == b'1')
}

#[tactic(auto, unfolding(crate::specs::Bytes::is_lower))]
fn is_lower(b: u8) -> bool
    ensures { result ≡ is_lower b }
{
    (b'a' <= b) & (b <= b'z')
}

#[tactic(auto, unfolding(crate::specs::Bytes::is_alpha))]
fn is_alpha(b: u8) -> bool
    ensures { result ≡ is_alpha b }
{
    is_lower(b) | ((b'A' <= b) & (b <= b'Z'))
}
