// The four kinds that a call can name, by number and by name.
ghost use Rattle.std.specs.Prelude.{◌≡◌, Some};
ghost use Rattle.weights.specs.Names.{DecodesKind, kind_name, unknown_kind_text};

use std::error::Error;
use std::fmt;

#[derive(Clone, Copy, Debug, PartialEq, Eq)]
pub enum NamedKind {
    Longest,
    Sum,
    Grade,
    Reach,
}

// A number that no kind has.
#[derive(Clone, Copy, Debug, PartialEq, Eq)]
pub struct UnknownKind(pub u32);

impl NamedKind {
    // Beside Display, whose writer may fail where this cannot.
    pub fn name(self) -> &'static str
        ensures { result.now ≡ kind_name self }
    {
        match self {
            NamedKind::Longest => "longest",
            NamedKind::Sum => "sum",
            NamedKind::Grade => "grade",
            NamedKind::Reach => "reach",
        }
    }
}

impl TryFrom<u32> for NamedKind {
    type Error = UnknownKind;

    ghost try_from_gives = { DecodesKind };

    fn try_from(number: u32) -> Result<NamedKind, UnknownKind> {
        match number {
            0 => Ok(NamedKind::Longest),
            1 => Ok(NamedKind::Sum),
            2 => Ok(NamedKind::Grade),
            3 => Ok(NamedKind::Reach),
            _ => Err(UnknownKind(number)),
        }
    }
}

impl fmt::Display for NamedKind {
    ghost output = { λ kind. Some (kind_name kind) };

    fn fmt<W: fmt::Write>(&self, f: &mut fmt::Formatter<W>) -> fmt::Result {
        f.write_str(self.name())
    }
}

impl fmt::Display for UnknownKind {
    ghost output = { λ unknown. Some (unknown_kind_text unknown) };

    fn fmt<W: fmt::Write>(&self, f: &mut fmt::Formatter<W>) -> fmt::Result {
        write!(f, "no kind has the number {}", self.0)
    }
}

impl Error for UnknownKind {}
