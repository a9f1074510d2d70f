// How far a field's value has been read.
ghost use Rattle.std.specs.Prelude.{◌≡◌, ◌≤◌, length};
ghost use Rattle.std.specs.List.{prefix_len};
ghost use Rattle.capsule_protocol.specs.Stages.{at, at_if, within, one_more, after_item, after_digits, first_of_bare_item, next_at, next_of, may_end, stays_at, is_run};
ghost use Rattle.capsule_protocol.specs.declared.stages.Stage.TheVariants.{Front, Semicolon, Key, Number, Fraction, Text, Token, Binary};

use crate::bytes::{
    is_base64, is_bit, is_digit, is_escapable, is_key_byte, is_key_start, is_token_byte,
    is_token_start, is_unescaped,
};

#[derive(Clone, Copy)]
pub(crate) enum Stage {
    // at the spaces in front
    Front,
    // after the item's `?`
    Question,
    // after the item, or after a string, byte sequence or Boolean of a parameter
    Item,
    // at the spaces at the end
    Trailing,
    // after `;`, at the spaces before a key
    Semicolon,
    // in a key
    Key,
    // after `=`
    Equals,
    // in an integer, or a decimal before its point; counts digits
    Number,
    // after the point of a decimal; counts digits
    Fraction,
    // in a string
    Text,
    // after a `\` in a string
    Escape,
    // in a token
    Token,
    // in a byte sequence
    Binary,
    // after the `?` of a parameter's value
    Boolean,
    // no item that is true begins like this
    Wrong,
}

#[derive(Clone, Copy)]
pub(crate) struct Reading {
    pub(crate) stage: Stage,
    digits: u8,
}

impl Reading {
    pub(crate) const START: Reading = Reading {
        stage: Stage::Front,
        digits: 0,
    };

    // the most digits of an integer, of a decimal before its point, and after it
    const INTEGER: u8 = 15;

    const WHOLE: u8 = 12;

    const FRACTION: u8 = 3;

    // What has been read with one more byte.
    #[tactic(auto, unfolding(crate::specs::Stages::next_at))]
    pub(crate) fn next(self, b: u8) -> Reading
        ensures { result ≡ next_of self b }
    {
        let digits = self.digits;
        match self.stage {
            Stage::Front => in_front(b),
            Stage::Question => at_if(b == b'1', Stage::Item),
            Stage::Item => after_item(b),
            Stage::Trailing => at_if(b == b' ', Stage::Trailing),
            Stage::Semicolon => after_semicolon(b),
            Stage::Key => in_key(b),
            Stage::Equals => first_of_bare_item(b),
            Stage::Number => in_number(b, digits),
            Stage::Fraction => in_fraction(b, digits),
            Stage::Text => in_string(b),
            Stage::Escape => at_if(is_escapable(b), Stage::Text),
            Stage::Token => in_token(b),
            Stage::Binary => in_binary(b),
            Stage::Boolean => at_if(is_bit(b), Stage::Item),
            Stage::Wrong => at(Stage::Wrong),
        }
    }

    // How many bytes from the front on leave the stage as it is: many in a key, a string, a token or a byte sequence,
    // and at the spaces at both ends. Most bytes lead to a stage that has no run. Without the test in front, values of
    // short parameters take no more time or a tenth more, by where the code comes to lie in lines of 32 bytes.
    #[tactic(auto, using(crate::proofs::Steps::no_run))]
    pub(crate) fn run(self, bytes: &[u8]) -> usize
        ensures value { result ≡ prefix_len (stays_at self.stage) bytes.now }
        ensures within { result ≤ length bytes.now }
    {
        if self.is_run() {
            bytes.iter().take_while(|b| self.stays(**b)).count()
        } else {
            0
        }
    }

    #[tactic(auto, unfolding(crate::specs::Stages::is_run))]
    fn is_run(self) -> bool
        ensures { result ≡ is_run self.stage }
    {
        matches!(
            self.stage,
            Stage::Key | Stage::Text | Stage::Token | Stage::Binary | Stage::Trailing | Stage::Front
        )
    }

    #[tactic(auto, unfolding(crate::specs::Stages::stays_at))]
    fn stays(self, b: u8) -> bool
        ensures { result ≡ stays_at self.stage b }
    {
        match self.stage {
            Stage::Key => is_key_byte(b),
            Stage::Text => is_unescaped(b),
            Stage::Token => is_token_byte(b),
            Stage::Binary => is_base64(b),
            Stage::Trailing | Stage::Front => b == b' ',
            _ => false,
        }
    }

    // Whether a value that ends here is in use.
    #[tactic(auto, unfolding(crate::specs::Stages::may_end_at))]
    pub(crate) fn may_end(self) -> bool
        ensures { result ≡ may_end self }
    {
        match self.stage {
            Stage::Item | Stage::Trailing | Stage::Key | Stage::Token => true,
            Stage::Number => within(self.digits, Reading::INTEGER),
            Stage::Fraction => within(self.digits, Reading::FRACTION),
            _ => false,
        }
    }
}

#[tactic(auto, unfolding(crate::specs::Stages::next_at))]
fn in_front(b: u8) -> Reading
    ensures { result ≡ next_at Front 0 b }
{
    if b == b' ' {
        return at(Stage::Front);
    }
    at_if(b == b'?', Stage::Question)
}

#[tactic(auto, unfolding(crate::specs::Stages::next_at))]
fn after_semicolon(b: u8) -> Reading
    ensures { result ≡ next_at Semicolon 0 b }
{
    if b == b' ' {
        return at(Stage::Semicolon);
    }
    at_if(is_key_start(b), Stage::Key)
}

#[tactic(auto, unfolding(crate::specs::Stages::next_at))]
fn in_key(b: u8) -> Reading
    ensures { result ≡ next_at Key 0 b }
{
    if is_key_byte(b) {
        return at(Stage::Key);
    }
    if b == b'=' {
        return at(Stage::Equals);
    }
    after_item(b)
}

// After `=`: the first byte tells the kind of a bare item. Digits are tested before the match, which is a jump by a
// table: with them as an arm of it, `?1;a=1;b=2;c="x"` takes a fifth more time.
#[tactic(auto, unfolding(crate::specs::Stages::first_of_bare_item))]
fn first_of_bare_item(b: u8) -> Reading
    ensures { result ≡ first_of_bare_item b }
{
    if is_digit(b) {
        return Reading {
            stage: Stage::Number,
            digits: 1,
        };
    }
    match b {
        b'-' => at(Stage::Number),
        b'"' => at(Stage::Text),
        b':' => at(Stage::Binary),
        b'?' => at(Stage::Boolean),
        _ => at_if(is_token_start(b), Stage::Token),
    }
}

#[tactic(auto, unfolding(crate::specs::Stages::next_at))]
fn in_number(b: u8, digits: u8) -> Reading
    ensures { result ≡ next_at Number digits b }
{
    if is_digit(b) {
        return one_more(Stage::Number, digits, Reading::INTEGER);
    }
    if b == b'.' {
        return at_if(within(digits, Reading::WHOLE), Stage::Fraction);
    }
    after_digits(b, digits, Reading::INTEGER)
}

#[tactic(auto, unfolding(crate::specs::Stages::next_at))]
fn in_fraction(b: u8, digits: u8) -> Reading
    ensures { result ≡ next_at Fraction digits b }
{
    if is_digit(b) {
        return one_more(Stage::Fraction, digits, Reading::FRACTION);
    }
    after_digits(b, digits, Reading::FRACTION)
}

#[tactic(auto, unfolding(crate::specs::Stages::next_at))]
fn in_string(b: u8) -> Reading
    ensures { result ≡ next_at Text 0 b }
{
    match b {
        b'"' => at(Stage::Item),
        b'\\' => at(Stage::Escape),
        _ => at_if(is_unescaped(b), Stage::Text),
    }
}

#[tactic(auto, unfolding(crate::specs::Stages::next_at))]
fn in_token(b: u8) -> Reading
    ensures { result ≡ next_at Token 0 b }
{
    if is_token_byte(b) {
        return at(Stage::Token);
    }
    after_item(b)
}

#[tactic(auto, unfolding(crate::specs::Stages::next_at))]
fn in_binary(b: u8) -> Reading
    ensures { result ≡ next_at Binary 0 b }
{
    if b == b':' {
        return at(Stage::Item);
    }
    at_if(is_base64(b), Stage::Binary)
}

// After an item or a parameter: `;`, or spaces up to the end.
#[tactic(auto, unfolding(crate::specs::Stages::after_item))]
fn after_item(b: u8) -> Reading
    ensures { result ≡ after_item b }
{
    if b == b';' {
        return at(Stage::Semicolon);
    }
    at_if(b == b' ', Stage::Trailing)
}

// The same after the digits of a number.
#[tactic(auto, unfolding(crate::specs::Stages::after_digits))]
fn after_digits(b: u8, digits: u8, most: u8) -> Reading
    ensures { result ≡ after_digits b digits most }
{
    if within(digits, most) {
        return after_item(b);
    }
    at(Stage::Wrong)
}

#[tactic(auto, unfolding(crate::specs::Stages::one_more))]
fn one_more(stage: Stage, digits: u8, most: u8) -> Reading
    ensures { result ≡ one_more stage digits most }
{
    if digits < most {
        return Reading {
            stage,
            digits: digits + 1,
        };
    }
    at(Stage::Wrong)
}

#[tactic(auto, unfolding(crate::specs::Stages::within))]
fn within(digits: u8, most: u8) -> bool
    ensures { result ≡ within digits most }
{
    (1 <= digits) & (digits <= most)
}

// A test and the stage that it leads to: in each of its callers it stands for a match of two arms.
#[tactic(auto, unfolding(crate::specs::Stages::at_if))]
fn at_if(fits: bool, stage: Stage) -> Reading
    ensures { result ≡ at_if fits stage }
{
    if fits {
        return at(stage);
    }
    at(Stage::Wrong)
}

fn at(stage: Stage) -> Reading
    ensures { result ≡ at stage }
{
    Reading { stage, digits: 0 }
}
