// Why bytes or tables are refused. The documents number the kinds; a place is theirs too: a byte's, counted from 0, or a record's number.
ghost use Rattle.std.specs.Prelude.{◌≡◌};
ghost use Rattle.encode.specs.Refusal.{number_of, Decodes};

use std::error::Error;
use std::fmt;

#[derive(Clone, Copy, Debug, PartialEq, Eq)]
pub enum RefusalKind {
    EndsEarly,
    LimitPassed,
    NotShortest,
    NoRecordLeft,
    BadPrefix,
    NullIssuance,
    BadFlag,
    EmptyWitnesses,
    BytesFollow,
    TablesDiffer,
    StateForged,
    OutpointUnclear,
    BadRecord,
    OutputShort,
}

#[derive(Clone, Copy, Debug, PartialEq, Eq)]
pub struct Refusal {
    pub kind: RefusalKind,
    pub place: usize,
}

// A number that no refusal has.
#[derive(Clone, Copy, Debug, PartialEq, Eq)]
pub struct UnlistedNumber(pub usize);

impl RefusalKind {
    // Its number in the documents. A method and no From: the promises cite its clause.
    pub fn number(self) -> usize
        ensures { result ≡ number_of self }
    {
        match self {
            RefusalKind::EndsEarly => 1,
            RefusalKind::LimitPassed => 2,
            RefusalKind::NotShortest => 3,
            RefusalKind::NoRecordLeft => 4,
            RefusalKind::BadPrefix => 5,
            RefusalKind::NullIssuance => 6,
            RefusalKind::BadFlag => 7,
            RefusalKind::EmptyWitnesses => 8,
            RefusalKind::BytesFollow => 9,
            RefusalKind::TablesDiffer => 10,
            RefusalKind::StateForged => 11,
            RefusalKind::OutpointUnclear => 12,
            RefusalKind::BadRecord => 13,
            RefusalKind::OutputShort => 14,
        }
    }

    pub fn at(self, place: usize) -> Refusal
        ensures kind { result.kind ≡ self }
        ensures place { result.place ≡ place }
    {
        Refusal { kind: self, place }
    }
}

impl TryFrom<usize> for RefusalKind {
    type Error = UnlistedNumber;

    ghost try_from_gives = { Decodes };

    fn try_from(number: usize) -> Result<Self, UnlistedNumber> {
        match number {
            1 => Ok(RefusalKind::EndsEarly),
            2 => Ok(RefusalKind::LimitPassed),
            3 => Ok(RefusalKind::NotShortest),
            4 => Ok(RefusalKind::NoRecordLeft),
            5 => Ok(RefusalKind::BadPrefix),
            6 => Ok(RefusalKind::NullIssuance),
            7 => Ok(RefusalKind::BadFlag),
            8 => Ok(RefusalKind::EmptyWitnesses),
            9 => Ok(RefusalKind::BytesFollow),
            10 => Ok(RefusalKind::TablesDiffer),
            11 => Ok(RefusalKind::StateForged),
            12 => Ok(RefusalKind::OutpointUnclear),
            13 => Ok(RefusalKind::BadRecord),
            14 => Ok(RefusalKind::OutputShort),
            _ => Err(UnlistedNumber(number)),
        }
    }
}

impl fmt::Display for Refusal {
    fn fmt<W: fmt::Write>(&self, f: &mut fmt::Formatter<W>) -> fmt::Result {
        write!(f, "{} at {}", self.kind.number(), self.place)
    }
}

impl fmt::Display for UnlistedNumber {
    fn fmt<W: fmt::Write>(&self, f: &mut fmt::Formatter<W>) -> fmt::Result {
        write!(f, "no refusal has number {}", self.0)
    }
}

impl Error for Refusal {}

impl Error for UnlistedNumber {}
