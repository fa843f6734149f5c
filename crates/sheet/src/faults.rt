// Why, where and in which part a run of words is no sheet.
ghost use Rattle.std.specs.Prelude.{◌≡◌, Some};
ghost use Rattle.sheet.specs.Numbers.{number};
ghost use Rattle.sheet.specs.Text.{part_text, fault_text};

use std::error::Error;
use std::fmt;

#[derive(Clone, Copy, Debug, PartialEq, Eq)]
pub enum Cause {
    TooManyWords,
    WordsEnd,
    Kind,
    Argument,
    Depth,
    TooManyParts,
    AfterEnd,
}

// The part of a sheet that a word belongs to: one step, one goal, or neither.
#[derive(Clone, Copy, Debug, PartialEq, Eq)]
pub enum Part {
    Head,
    Step(u32),
    Goal(u32),
}

#[derive(Clone, Copy, Debug, PartialEq, Eq)]
pub struct SheetFault {
    pub cause: Cause,
    pub place: usize,
    pub part: Part,
}

// Why a word is refused and in which part, before its place is known.
#[derive(Clone, Copy)]
pub struct Refusal {
    pub cause: Cause,
    pub part: Part,
}

impl Cause {
    pub(crate) fn in_part(self, part: Part) -> Refusal
        ensures { result ≡ record { cause = self; part = part } }
    {
        Refusal { cause: self, part }
    }
}

impl Refusal {
    pub(crate) fn at(self, place: usize) -> SheetFault
        ensures { result ≡ record { cause = self.cause; place = place; part = self.part } }
    {
        SheetFault {
            cause: self.cause,
            place,
            part: self.part,
        }
    }
}

// The number of a cause.
impl From<Cause> for u8 {
    ghost from_gives = { λ c n. n ≡ number c };

    fn from(cause: Cause) -> u8 {
        match cause {
            Cause::TooManyWords => 1,
            Cause::WordsEnd => 2,
            Cause::Kind => 3,
            Cause::Argument => 4,
            Cause::Depth => 5,
            Cause::TooManyParts => 6,
            Cause::AfterEnd => 7,
        }
    }
}

impl fmt::Display for Part {
    ghost output = { λ p. Some (part_text p) };

    fn fmt<W: fmt::Write>(&self, f: &mut fmt::Formatter<W>) -> fmt::Result {
        match self {
            Part::Head => write!(f, "head"),
            Part::Step(number) => write!(f, "step {number}"),
            Part::Goal(number) => write!(f, "goal {number}"),
        }
    }
}

impl fmt::Display for SheetFault {
    ghost output = { λ fault. Some (fault_text fault) };

    fn fmt<W: fmt::Write>(&self, f: &mut fmt::Formatter<W>) -> fmt::Result {
        let number = u8::from(self.cause);
        write!(f, "refused {number} at {} in {}", self.place, self.part)
    }
}

impl Error for SheetFault {}
