// Where a stream is in its capsule, and what a feeding is to do, found out before any byte is moved.
#![tactic(auto)]

ghost use Rattle.std.specs.Prelude.{◌≡◌, ◌-◌, ◌≤◌, length};
ghost use Rattle.wire.specs.Partial.{partial};
ghost use Rattle.planning.specs.declared.Phase.TheVariants.{InValue};
ghost use Rattle.planning.specs.Plans.{is_makeable_phase, plan_value, plan_head, plan_length, plan_type, plan_of, held_of};
ghost use Rattle.planning.specs.Reaching.{Reaches};
ghost use Rattle.planning.specs.Headers.{short_header, first_header};

use opening::{Opening, Report};
use short_forms::read_short;
use wire::partial::{Partial, VarintTaken};
use wire::varint::Varint;

// How far the capsule at the end of the stream has come.
#[derive(Clone, Copy, Debug, PartialEq, Eq)]
pub enum Phase {
    // in its type
    InType(Partial),
    // in its length, after its type
    InLength { ctype: u64, part: Partial },
    // in its value: its type and length, and how many bytes are to come
    InValue { ctype: u64, length: u64, left: u64 },
}

#[derive(Clone, Copy, Debug, PartialEq, Eq)]
pub struct Plan {
    pub next: Phase,
    pub consumed: usize,
    pub ended: Option<Report>,
    // the held bytes of the type and the consumed ones go to the output
    pub forward: bool,
    // the consumed bytes from `at` on go to the gathering buffer, from `place` on
    pub store: bool,
    // the same bytes go to the second buffer
    pub keep: bool,
    pub at: usize,
    pub place: u64,
}

// What a piece comes to before the value: two outcomes, of which neither is an error.
#[derive(Clone, Copy, Debug, PartialEq, Eq)]
pub enum Reached {
    // it ends there
    Stops(Plan),
    // the value stands in it from `at` on, and `left` bytes of it are to come
    Value {
        at: usize,
        ctype: u64,
        size: u64,
        left: u64,
    },
}

// A header that is short and whole at the front of a piece: where its value starts, its type, and the value's length.
#[derive(Clone, Copy, Debug, PartialEq, Eq)]
pub struct Header {
    pub at: usize,
    pub ctype: u64,
    pub size: u64,
}

// A type of one byte and a length of one or two, as most capsules have, at the front of a piece.
#[tactic(auto, using(crate::proofs::Reaching::header_few, crate::proofs::Reaching::header_type))]
pub fn short_header(piece: &[u8]) -> Option<Header>
    ensures { result ≡ short_header piece.now }
{
    if piece.len() < 3 {
        return None;
    }
    let ctype = u64::from(piece[0]);
    if ctype > Varint::MAX_OF_1 {
        return None;
    }
    let size = read_short(&piece[1..])?;
    Some(Header {
        at: 1 + size.size,
        ctype,
        size: size.value,
    })
}

// The value is planned in one place, so that the plan stays in registers.
#[tactic(auto, unfolding(crate::specs::Reaching::plan_by, crate::specs::Reaching::Within))]
pub fn plan_of(op: Opening, piece: &[u8], phase: Phase) -> Plan
    ensures { result ≡ plan_of op piece.now phase }
{
    match reach(op, piece, phase) {
        Reached::Stops(plan) => plan,
        Reached::Value {
            at,
            ctype,
            size,
            left,
        } => plan_value(op, piece, at, ctype, size, left),
    }
}

// The bytes of a type that is not complete.
#[tactic(auto, unfolding(crate::specs::Plans::held_of))]
pub fn held_of(phase: Phase) -> Partial
    ensures { result ≡ held_of phase }
{
    match phase {
        Phase::InType(part) => part,
        _ => Partial::EMPTY,
    }
}

// Whether a value may have so many bytes to come.
#[tactic(auto, unfolding(crate::specs::Plans::is_makeable_phase, wire::specs::Varint::largest))]
pub fn is_makeable_value(op: Opening, ctype: u64, length: u64, left: u64) -> bool
    ensures { result ≡ is_makeable_phase op (InValue ctype length left) }
{
    ctype <= Varint::MAX && length <= Varint::MAX && (1..=op.extent(ctype, length)).contains(&left)
}

// Whether some stream comes so far.
#[tactic(auto, unfolding(crate::specs::Plans::is_makeable_phase, wire::specs::Varint::largest))]
pub fn is_makeable_phase(op: Opening, phase: Phase) -> bool
    ensures { result ≡ is_makeable_phase op phase }
{
    match phase {
        Phase::InType(part) => part.is_possible(),
        Phase::InLength { ctype, part } => ctype <= Varint::MAX && part.is_possible(),
        Phase::InValue {
            ctype,
            length,
            left,
        } => is_makeable_value(op, ctype, length, left),
    }
}

#[tactic(auto, unfolding(crate::specs::Plans::plan_of, crate::specs::Reaching::plan_by, crate::specs::Reaching::Within))]
fn reach(op: Opening, piece: &[u8], phase: Phase) -> Reached
    ensures { Reaches op piece.now result (plan_of op piece.now phase) }
{
    match phase {
        Phase::InType(part) => reach_in_type(op, piece, part),
        Phase::InLength { ctype, part } => reach_by_length(
            op, piece, 0, ctype, part.have, part.raw,
        ),
        Phase::InValue {
            ctype,
            length: size,
            left,
        } => Reached::Value {
            at: 0,
            ctype,
            size,
            left: left,
        },
    }
}

// The value is in the piece from `at` on, and `left` bytes of it are to come. The piece and a place in it: a plan
// speaks of the piece's bytes by their places.
#[tactic(auto, unfolding(crate::specs::Plans::plan_value))]
fn plan_value(op: Opening, piece: &[u8], at: usize, ctype: u64, size: u64, left: u64) -> Plan
    requires { at ≤ length piece.now }
    ensures { result ≡ plan_value op piece.now at ctype size left }
{
    let forward = op.forwards(ctype);
    let store = op.gathers(ctype, size);
    let keep = op.keeps(ctype, size);
    let place = op.extent(ctype, size).saturating_sub(left);
    let room = (piece.len() - at) as u64;
    if left <= room {
        return Plan {
            next: Phase::InType(Partial::EMPTY),
            consumed: at + (left as usize),
            ended: Some(op.report(ctype, size)),
            forward,
            store,
            keep,
            at,
            place,
        };
    }
    Plan {
        next: Phase::InValue {
            ctype,
            length: size,
            left: left - room,
        },
        consumed: piece.len(),
        ended: None,
        forward,
        store,
        keep,
        at,
        place,
    }
}

// The general way stands at one place, so that nothing is put into memory for it on the short one.
fn reach_in_type(op: Opening, piece: &[u8], part: Partial) -> Reached
    ensures { Reaches op piece.now result (plan_type op piece.now part) }
{
    match first_header(piece, part) {
        None => reach_by_type(op, piece, part),
        Some(header) => Reached::Value {
            at: header.at,
            ctype: header.ctype,
            size: header.size,
            left: op.extent(header.ctype, header.size),
        },
    }
}

// The length stands in the piece from `at` on, behind the part of it that came before.
// The part comes as its two numbers: called at two places, a struct would go through memory.
#[tactic(auto, unfolding(crate::specs::Plans::plan_length, crate::specs::Reaching::plan_by, crate::specs::Reaching::Within))]
fn reach_by_length(op: Opening, piece: &[u8], at: usize, ctype: u64, have: u8, raw: u64) -> Reached
    requires { at ≤ length piece.now }
    ensures { Reaches op piece.now result (plan_length op piece.now at ctype (partial have raw)) }
{
    let part = Partial { have, raw };
    match part.take(&piece[at..]) {
        VarintTaken::Impossible => Reached::Stops(plan_head(
            Phase::InLength { ctype, part },
            0,
            false,
        )),
        VarintTaken::More(more) => Reached::Stops(plan_head(
            Phase::InLength { ctype, part: more },
            piece.len(),
            op.forwards(ctype),
        )),
        VarintTaken::Ends { used, value } => Reached::Value {
            at: at + used,
            ctype,
            size: value,
            left: op.extent(ctype, value),
        },
    }
}

// A short header at the front of the piece, where no byte of the type has come before.
#[tactic(auto, unfolding(crate::specs::Headers::first_header))]
fn first_header(piece: &[u8], part: Partial) -> Option<Header>
    ensures { result ≡ first_header part piece.now }
{
    if part != Partial::EMPTY {
        return None;
    }
    short_header(piece)
}

#[tactic(auto, unfolding(crate::specs::Plans::plan_type, crate::specs::Reaching::plan_by, crate::specs::Reaching::Within))]
fn reach_by_type(op: Opening, piece: &[u8], part: Partial) -> Reached
    ensures { Reaches op piece.now result (plan_type op piece.now part) }
{
    match part.take(piece) {
        VarintTaken::Impossible => Reached::Stops(plan_head(Phase::InType(part), 0, false)),
        VarintTaken::More(more) => Reached::Stops(plan_head(
            Phase::InType(more),
            piece.len(),
            false,
        )),
        VarintTaken::Ends { used, value } => reach_by_length(op, piece, used, value, 0, 0),
    }
}

// The piece ends before the value.
#[tactic(auto, unfolding(crate::specs::Plans::plan_head))]
fn plan_head(next: Phase, consumed: usize, forward: bool) -> Plan
    ensures { result ≡ plan_head next consumed forward }
{
    Plan {
        next,
        consumed,
        ended: None,
        forward,
        store: false,
        keep: false,
        at: 0,
        place: 0,
    }
}
