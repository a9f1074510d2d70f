// A reader kept in eight words of the host's (see specs/Words.antt).
ghost use Rattle.std.specs.Prelude.{◌≡◌};
ghost use Rattle.reader_words.specs.Words.{role_word, role_in, settings_number, draft_in, addresses_in, words_of, phase_in, reader_in, opening_in};
ghost use Rattle.reader_words.specs.Position.{position_of};

use crate::numbers::{bit_of, flag_of};
use capsule::reader::Reader;
use opening::{Opening, Role};
use planning::Phase;
use wire::partial::Partial;

// What the first word is above the role's number: "mrz" and a byte of 0. Words that are all 0 are no reader's.
const MARK: u64 = 0x6d727a00;

#[tactic(auto, using(crate::proofs::StoredForm::reads_not), unfolding(crate::specs::Words::with_phase, crate::specs::Words::reader_mark))]
pub fn load(words: &[u64; 8]) -> Option<Reader>
    ensures { result ≡ reader_in words.now }
{
    if words[0] < MARK {
        return None;
    }
    if words[0] > MARK + 1 {
        return None;
    }
    let settings = words[2];
    if settings > 3 {
        return None;
    }
    if words[7] > 1 {
        return None;
    }
    let phase = load_phase(words[3], words[4], words[5], words[6])?;
    let opening = Opening {
        role: role_in(words[0]),
        limit: words[1],
        draft: draft_in(settings),
        addresses: addresses_in(settings),
    };
    Some(Reader {
        opening,
        phase,
        finished: flag_of(words[7]),
    })
}

// Where an open reader is, as far as a short way goes by it. One that opted in goes the general way: a test for it on
// the short ways costs every reader time.
#[derive(Clone, Copy)]
pub enum Position {
    Other,
    Between,
    Within,
}

pub fn position_of(words: &[u64; 8]) -> Position
    ensures { result ≡ position_of words.now }
{
    if words[0] < MARK {
        return Position::Other;
    }
    if words[0] > MARK + 1 {
        return Position::Other;
    }
    // before the settings: the other way round (tried), a feeding between two capsules takes two branches more
    if words[7] != 0 {
        return Position::Other;
    }
    if words[2] > 1 {
        return Position::Other;
    }
    let kind = words[3];
    if kind == 2 {
        return Position::Within;
    }
    if kind != 0 {
        return Position::Other;
    }
    if words[4] != 0 {
        return Position::Other;
    }
    if words[5] != 0 {
        return Position::Other;
    }
    if words[6] != 0 {
        return Position::Other;
    }
    Position::Between
}

pub fn opening_in(words: &[u64; 8]) -> Opening
    ensures { result ≡ opening_in words.now }
{
    Opening {
        role: role_in(words[0]),
        limit: words[1],
        draft: draft_in(words[2]),
        addresses: addresses_in(words[2]),
    }
}

pub fn store(words: &mut [u64; 8], reader: Reader)
    ensures { words.new ≡ words_of reader }
{
    *words = words_of(reader);
}

// The phase by its number and the three words behind it.
#[tactic(auto, unfolding(crate::specs::Words::phase_in))]
fn load_phase(kind: u64, a: u64, b: u64, c: u64) -> Option<Phase>
    ensures { result ≡ phase_in kind a b c }
{
    if kind == 0 {
        if a > 255 {
            return None;
        }
        if c != 0 {
            return None;
        }
        return Some(Phase::InType(Partial {
            have: a as u8,
            raw: b,
        }));
    }
    if kind == 1 {
        if b > 255 {
            return None;
        }
        return Some(Phase::InLength {
            ctype: a,
            part: Partial {
                have: b as u8,
                raw: c,
            },
        });
    }
    if kind == 2 {
        return Some(Phase::InValue {
            ctype: a,
            length: b,
            left: c,
        });
    }
    None
}

// The role by its word. No From here either: what a word means is the stored form's, not the type's.
#[tactic(auto, unfolding(crate::specs::Words::role_in, crate::specs::Words::reader_mark))]
fn role_in(word: u64) -> Role
    ensures { result ≡ role_in word }
{
    if word <= MARK {
        return Role::Endpoint;
    }
    Role::Intermediary
}

// The settings of an opening by their word.
fn draft_in(settings: u64) -> bool
    ensures { result ≡ draft_in settings }
{
    settings % 2 == 1
}

fn addresses_in(settings: u64) -> bool
    ensures { result ≡ addresses_in settings }
{
    settings > 1
}

fn words_of(reader: Reader) -> [u64; 8]
    ensures { result ≡ words_of reader }
{
    let opening = reader.opening;
    let kind = opening.role;
    let role = role_word(kind);
    let limit = opening.limit;
    let settings = settings_number(opening.draft, opening.addresses);
    let finished = bit_of(reader.finished);
    let phase = reader.phase;
    match phase {
        Phase::InType(part) => [
            role,
            limit,
            settings,
            0,
            u64::from(part.have),
            part.raw,
            0,
            finished,
        ],
        Phase::InLength { ctype, part } => [
            role,
            limit,
            settings,
            1,
            ctype,
            u64::from(part.have),
            part.raw,
            finished,
        ],
        Phase::InValue {
            ctype,
            length,
            left,
        } => { [role, limit, settings, 2, ctype, length, left, finished] }
    }
}

fn role_word(role: Role) -> u64
    ensures { result ≡ role_word role }
{
    match role {
        Role::Endpoint => MARK,
        Role::Intermediary => MARK + 1,
    }
}

fn settings_number(draft: bool, addresses: bool) -> u64
    ensures { result ≡ settings_number draft addresses }
{
    if addresses {
        if draft {
            return 3;
        }
        return 2;
    }
    bit_of(draft)
}
