// Why something is refused, and at which place.
#![tactic(auto)]

ghost use Rattle.std.specs.Prelude.{◌≡◌, false};
ghost use Rattle.refusals.specs.Listed.{listed};

use std::error::Error;
use std::fmt;

// A number that document 01 and 02 give no reason, and that isn't 0.
#[derive(Clone, Copy, Debug, PartialEq, Eq)]
pub struct Unlisted {
    number: u32,
    ghost other: { listed number ≡ false },
}

impl fmt::Display for Unlisted {
    fn fmt<W: fmt::Write>(&self, f: &mut fmt::Formatter<W>) -> fmt::Result {
        let number = self.number;
        write!(f, "refusal {number}")
    }
}

// The rows of document 01's table "Refusal numbers" and of document 02, in their order; any other number; and 0, which refuses nothing: it
// arises nowhere here, but a step that a caller hands in may have it.
#[derive(Clone, Copy, Debug, PartialEq, Eq)]
pub enum Reason {
    TooLong,
    DoesNotFit,
    FixedDiffers,
    Version,
    NotBool,
    RegionNotFilled,
    Limit,
    LeafIndex,
    Axes,
    CellIndex,
    BytesLeft,
    NodeArea,
    CellArea,
    Color,
    OutputTooShort,
    ZeroByte,
    NoSuchLeaf,
    NoCount,
    CaseState,
    CaseCode,
    CaseEnd,
    UnknownPage,
    NoCharacter,
    BadList,
    NoMeaning,
    Other(Unlisted),
    NoRefusal,
}

impl Reason {
    ghost use Rattle.std.specs.Prelude.{MatchOption, not, eqb};
    ghost use Rattle.refusals.specs.Numbers.{number};
    ghost use Rattle.refusals.specs.Verdicts.{code, Refuses};

    // The reason that this number gives a refusal; 0 gives none.
    pub fn of(n: u32) -> Option<Reason>
        ensures { MatchOption result (n ≡ 0) (λ reason. (number reason ≡ n) × Refuses reason) }
    {
        Some(match n {
            0 => return None,
            1 => Reason::TooLong,
            2 => Reason::DoesNotFit,
            3 => Reason::FixedDiffers,
            4 => Reason::Version,
            5 => Reason::NotBool,
            6 => Reason::RegionNotFilled,
            7 => Reason::Limit,
            8 => Reason::LeafIndex,
            9 => Reason::Axes,
            10 => Reason::CellIndex,
            11 => Reason::BytesLeft,
            12 => Reason::NodeArea,
            13 => Reason::CellArea,
            14 => Reason::Color,
            15 => Reason::OutputTooShort,
            18 => Reason::ZeroByte,
            19 => Reason::NoSuchLeaf,
            20 => Reason::NoCount,
            21 => Reason::CaseState,
            22 => Reason::CaseCode,
            23 => Reason::CaseEnd,
            24 => Reason::UnknownPage,
            25 => Reason::NoCharacter,
            26 => Reason::BadList,
            29 => Reason::NoMeaning,
            _ => Reason::Other(Unlisted { number: n }),
        })
    }

    // The number that document 01 or 02 gives it, or its own.
    pub fn number(self) -> u32
        ensures { result ≡ number self }
    {
        match self {
            Reason::TooLong => 1,
            Reason::DoesNotFit => 2,
            Reason::FixedDiffers => 3,
            Reason::Version => 4,
            Reason::NotBool => 5,
            Reason::RegionNotFilled => 6,
            Reason::Limit => 7,
            Reason::LeafIndex => 8,
            Reason::Axes => 9,
            Reason::CellIndex => 10,
            Reason::BytesLeft => 11,
            Reason::NodeArea => 12,
            Reason::CellArea => 13,
            Reason::Color => 14,
            Reason::OutputTooShort => 15,
            Reason::ZeroByte => 18,
            Reason::NoSuchLeaf => 19,
            Reason::NoCount => 20,
            Reason::CaseState => 21,
            Reason::CaseCode => 22,
            Reason::CaseEnd => 23,
            Reason::UnknownPage => 24,
            Reason::NoCharacter => 25,
            Reason::BadList => 26,
            Reason::NoMeaning => 29,
            Reason::Other(unlisted) => unlisted.number,
            Reason::NoRefusal => 0,
        }
    }

    // Whether it refuses at all.
    #[inline(always)]
    pub fn refuses(self) -> bool
        ensures { eqb (number self) 0 ≡ not result }
    {
        match self {
            Reason::NoRefusal => false,
            _ => true,
        }
    }

    // Why a verdict refuses, if it does: a test that gives `NoRefusal` is passed.
    #[inline(always)]
    pub fn why(verdict: Verdict) -> Option<Reason>
        ensures { MatchOption result (code verdict ≡ 0) (λ reason. (number reason ≡ code verdict) × Refuses reason) }
    {
        match verdict {
            Err(reason) if reason.refuses() => Some(reason),
            _ => None,
        }
    }
}

impl fmt::Display for Reason {
    fn fmt<W: fmt::Write>(&self, f: &mut fmt::Formatter<W>) -> fmt::Result {
        f.write_str(match self {
            Reason::TooLong => "member too long",
            Reason::DoesNotFit => "a field doesn't fit in the input or its region",
            Reason::FixedDiffers => "a fixed byte, fixed number, mark or area index differs",
            Reason::Version =>
                "a version that isn't read, or in version 1 a value's modifier that begins 31",
            Reason::NotBool => "a bool neither 0 nor 1",
            Reason::RegionNotFilled => "a region's content ends early",
            Reason::Limit => "a limit passed",
            Reason::LeafIndex => "leaf index not below n, or seen before in this dimension",
            Reason::Axes => "axis counts don't add up, or an entry is no dimension or is repeated",
            Reason::CellIndex => "cell index not below the product, or seen before",
            Reason::BytesLeft => "bytes left at the end",
            Reason::NodeArea => "node area shorter than 7 words a node",
            Reason::CellArea => "cell area shorter than 3 words a cell",
            Reason::Color => "a color's high byte not 0",
            Reason::OutputTooShort => "output too short",
            Reason::ZeroByte => "a zero byte inside a string",
            Reason::NoSuchLeaf => "a dimension or leaf that isn't there",
            Reason::NoCount => "a number under the leaf that is no count",
            Reason::CaseState => "a bad kind list or bias, or words that are no state",
            Reason::CaseCode => "a code that its element can't have",
            Reason::CaseEnd => "the end too soon",
            Reason::UnknownPage => "an unknown page",
            Reason::NoCharacter =>
                "a byte without an entry in the page, or a character that has none or isn't UTF-8 in its shortest form",
            Reason::BadList => "a list of more than 64 members, or of an odd number of words",
            Reason::NoMeaning =>
                "a drawn separator whose style and width have no meaning, or an alignment that has none",
            Reason::Other(unlisted) => return unlisted.fmt(f),
            Reason::NoRefusal => "no refusal",
        })
    }
}

// A refusal: why, and at which place of the input.
#[derive(Clone, Copy, Debug, PartialEq, Eq)]
pub struct Refusal {
    pub reason: Reason,
    pub place: usize,
}

impl fmt::Display for Refusal {
    fn fmt<W: fmt::Write>(&self, f: &mut fmt::Formatter<W>) -> fmt::Result {
        let reason = self.reason;
        let place = self.place;
        write!(f, "{reason}, at {place}")
    }
}

impl Error for Refusal {}

// What a test answers: nothing where it is passed, or why not.
pub type Verdict = Result<(), Reason>;
