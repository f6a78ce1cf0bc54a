// What a stage of the range test reads, and what that says of the field: the first tables of docs/STATE.md.
ghost use Rattle.std.specs.Prelude.{◌≡◌, ◌≤◌, false, get_or};
ghost use Rattle.std.specs.Range.{range_inclusive_start, range_inclusive_end, range_inclusive_exhausted};
ghost use Rattle.decoders.specs.Range.{size, least_forms, greatest_forms, least_width, greatest_width, own_bytes, nears, fars, least_places, greatest_places};
ghost use Rattle.encode.specs.Refusal.{number_of};
ghost use Rattle.decoders.specs.Needs.{Sized};

use crate::{TransactionDecoder, stages};
use encode::RefusalKind;
use std::ops::RangeInclusive;

pub(crate) const GREATEST_U32: usize = u32::MAX as usize;

// A number of 4 bytes or of 1, 32 bytes that are never looked at, a count, a length and body, a value, an asset or nonce.
#[derive(Clone, Copy, PartialEq, Eq)]
pub(crate) enum Kind {
    Number,
    Byte,
    Hidden,
    Count,
    Body,
    Amount,
    Token,
}

// What a stage reads, and how many bytes of the head and of its own record lie before it at least.
#[derive(Clone, Copy)]
pub(crate) struct Row {
    pub(crate) kind: Kind,
    pub(crate) before: usize,
    ghost few: { before ≤ 119 },
}

impl Row {
    pub(crate) fn of(kind: Kind, before: usize) -> Row
        requires { before ≤ 119 }
        ensures kind { result.kind ≡ kind }
        ensures before { result.before ≡ before }
    {
        Row { kind, before }
    }
}

impl Kind {
    pub(crate) fn forms(self) -> RangeInclusive<usize>
        ensures least { range_inclusive_start result ≡ least_forms self }
        ensures greatest { range_inclusive_end result ≡ greatest_forms self }
        ensures whole { range_inclusive_exhausted result ≡ false }
    {
        match self {
            Kind::Number | Kind::Byte => stages::LITTLE..=stages::LITTLE,
            Kind::Hidden => stages::OPAQUE..=stages::OPAQUE,
            Kind::Count => stages::FURTHER..=stages::FIRST,
            Kind::Body => stages::FURTHER..=stages::OPAQUE,
            Kind::Amount => stages::OPAQUE..=stages::BIG,
            Kind::Token => stages::OPAQUE..=stages::LITTLE,
        }
    }

    #[tactic(auto, unfolding(crate::specs::Range::least_width, crate::specs::Range::greatest_width))]
    pub(crate) fn widths(self, form: usize) -> RangeInclusive<usize>
        ensures least { range_inclusive_start result ≡ least_width self form }
        ensures greatest { range_inclusive_end result ≡ greatest_width self form }
        ensures whole { range_inclusive_exhausted result ≡ false }
    {
        match (form, self) {
            (stages::FURTHER, _) => 2..=8,
            (stages::FIRST, _) => 1..=1,
            (stages::OPAQUE, Kind::Body) => 1..=TransactionDecoder::LIMIT,
            (stages::OPAQUE, _) => 32..=32,
            (stages::LITTLE, Kind::Number) => 4..=4,
            (stages::LITTLE, _) => 1..=1,
            _ => 8..=8,
        }
    }

    // The bytes of the field itself that were read before its present part.
    #[tactic(auto, unfolding(crate::specs::Range::own_bytes))]
    pub(crate) fn own_bytes(self, form: usize, width: usize) -> usize
        ensures { Sized 9 result (own_bytes self form width) }
    {
        match (form, self) {
            (stages::FIRST | stages::LITTLE, _) | (_, Kind::Hidden) => 0,
            (stages::OPAQUE, Kind::Body) => size(width),
            _ => 1,
        }
    }
}

// The bytes of a count or length. `encoders` has it of a u32, without 9: each promises its own bound, by which sums don't wrap.
#[tactic(auto, unfolding(crate::specs::Range::size))]
pub(crate) fn size(n: usize) -> usize
    ensures { Sized 9 result (size n) }
{
    match n {
        0..=252 => 1,
        253..=65_535 => 3,
        65_536..=GREATEST_U32 => 5,
        _ => 9,
    }
}

// By a refusal's kind: how far its place lies before the bytes taken, and where.
#[derive(Drop)]
pub(crate) struct Places {
    pub(crate) behind: RangeInclusive<usize>,
    pub(crate) at: RangeInclusive<usize>,
}

impl Places {
    pub(crate) fn of(kind: RefusalKind) -> Places
        ensures near { range_inclusive_start result.behind ≡ get_or nears (number_of kind) 0 }
        ensures far { range_inclusive_end result.behind ≡ get_or fars (number_of kind) 0 }
        ensures behind { range_inclusive_exhausted result.behind ≡ false }
        ensures least { range_inclusive_start result.at ≡ get_or least_places (number_of kind) 0 }
        ensures greatest { range_inclusive_end result.at ≡ get_or greatest_places (number_of kind) 0 }
        ensures at { range_inclusive_exhausted result.at ≡ false }
    {
        let (behind, at) = match kind {
            RefusalKind::EndsEarly => (0..=0, 0..=3_999_999),
            RefusalKind::LimitPassed => (0..=9, 10..=TransactionDecoder::LIMIT),
            RefusalKind::NotShortest => (3..=9, 5..=TransactionDecoder::LIMIT),
            RefusalKind::NoRecordLeft => (1..=9, 5..=TransactionDecoder::LIMIT),
            RefusalKind::BadPrefix => (1..=1, 7..=TransactionDecoder::LIMIT),
            RefusalKind::NullIssuance => (66..=66, 47..=TransactionDecoder::LIMIT),
            RefusalKind::BadFlag | RefusalKind::EmptyWitnesses => {
                (7..=TransactionDecoder::LIMIT, 4..=4)
            }
            _ => (0..=0, 0..=0),
        };
        Places { behind, at }
    }
}
