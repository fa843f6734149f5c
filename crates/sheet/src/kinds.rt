// The kinds of words: what each may argue, what follows it and where it may come.
ghost use Rattle.std.specs.Prelude.{◌≡◌, ◌%◌};
ghost use Rattle.sheet.specs.Kinds.{row, argument, minutes, grade, fits};
ghost use Rattle.sheet.specs.KindPlaces.{is_of};

#[derive(Clone, Copy, Debug, PartialEq, Eq)]
pub enum Kind {
    Never,
    Always,
    Fact,
    Not,
    All,
    Any,
    Set,
    Clear,
    Group,
    When,
    Step,
    Goal,
    Sheet,
    Start,
    End,
    Unused,
}

// What the 28 bits below the kind may hold; work is a step's minutes and grade.
#[derive(Clone, Copy)]
pub enum Argument {
    Zero,
    Fact,
    Count,
    Work,
    Facts,
}

// What comes right behind a word and belongs to it; guarded is a formula and then an effect.
#[derive(Clone, Copy)]
pub enum Follows {
    Nothing,
    Formula,
    Formulas,
    Effects,
    Guarded,
}

// Where a word may come: as a formula, as an effect, first of all, or between two parts.
#[derive(Clone, Copy, PartialEq, Eq)]
pub enum Place {
    Formula,
    Effect,
    First,
    Start,
    Step,
    Goal,
    End,
    Nowhere,
}

#[derive(Clone, Copy)]
pub struct Row {
    pub kind: Kind,
    pub argument: Argument,
    pub follows: Follows,
    pub place: Place,
}

// A row on one line; a constant may call no function.
macro_rules! row {
    ($kind:ident, $argument:ident, $follows:ident, $place:ident) => {
        Row {
            kind: Kind::$kind,
            argument: Argument::$argument,
            follows: Follows::$follows,
            place: Place::$place,
        }
    };
}

const KINDS: [Row; 16] = [
    row!(Never, Zero, Nothing, Formula),
    row!(Always, Zero, Nothing, Formula),
    row!(Fact, Fact, Nothing, Formula),
    row!(Not, Zero, Formula, Formula),
    row!(All, Count, Formulas, Formula),
    row!(Any, Count, Formulas, Formula),
    row!(Set, Fact, Nothing, Effect),
    row!(Clear, Fact, Nothing, Effect),
    row!(Group, Count, Effects, Effect),
    row!(When, Zero, Guarded, Effect),
    row!(Step, Work, Guarded, Step),
    row!(Goal, Zero, Formula, Goal),
    row!(Sheet, Facts, Nothing, First),
    row!(Start, Fact, Nothing, Start),
    row!(End, Zero, Nothing, End),
    row!(Unused, Zero, Nothing, Nowhere),
];

// Words stay numbers, as callers lend them: a type around one would be made anew at each use.
pub(crate) fn row_of(word: u32) -> Row
    ensures { result ≡ row word }
{
    KINDS[(word >> 28) as usize]
}

pub fn kind_of(word: u32) -> Kind
    ensures { result ≡ (row word).kind }
{
    row_of(word).kind
}

pub fn argument_of(word: u32) -> u32
    ensures { result ≡ argument word }
{
    word % 0x1000_0000
}

pub(crate) fn is_of(word: u32, kind: Kind) -> bool
    ensures { result ≡ is_of kind word }
{
    kind_of(word) == kind
}

pub(crate) fn minutes_of(word: u32) -> u32
    ensures { result ≡ minutes word }
{
    argument_of(word) % 0x1_0000
}

pub(crate) fn grade_of(word: u32) -> u32
    ensures { result ≡ grade word }
{
    argument_of(word) / 0x1_0000
}

// Whether a word's argument is one that its kind may have, with so many facts; a match, since rows hold data.
pub(crate) fn argument_fits(word: u32, facts: u32) -> bool
    ensures { result ≡ fits facts word }
{
    let value = argument_of(word);
    match row_of(word).argument {
        Argument::Zero => value == 0,
        Argument::Fact => value < facts,
        Argument::Count => value <= 16,
        Argument::Work => minutes_of(word) <= 1000 && grade_of(word) <= 9,
        Argument::Facts => value <= 64,
    }
}
