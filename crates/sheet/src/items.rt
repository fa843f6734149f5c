// Reading formulas and effects: the words behind them, or why and where they are none.
ghost use Rattle.std.specs.Prelude.{◌≡◌, ◌+◌, ◌-◌, ◌<◌, ◌≤◌, [], ◌∷◌, length, replicate, IfOk};
ghost use Rattle.sheet.specs.Reads.{Reads};
ghost use Rattle.sheet.specs.Survey.{admitted, owes, place_of};

use crate::faults::{Cause, Part, SheetFault};
use crate::kinds::{Follows, Place, argument_fits, argument_of, row_of};

#[derive(Clone, Copy)]
pub enum Sort {
    Formula,
    Effect,
}

// A formula or an effect that is owed, at its depth.
#[derive(Clone, Copy)]
pub struct Item {
    pub sort: Sort,
    pub depth: u32,
}

// Why reading stops, and how many words are left from the word at fault on.
#[derive(Clone, Copy)]
pub struct Stop {
    pub cause: Cause,
    pub left: usize,
}

impl Stop {
    // The fault that this is in a sheet of `total` words, in a part.
    pub(crate) fn fault(self, total: usize, part: Part) -> SheetFault
        requires { self.left ≤ total }
        ensures { result ≡ record { cause = self.cause; place = total - self.left; part = part } }
    {
        self.cause.in_part(part).at(total - self.left)
    }
}

impl Sort {
    // The place of the words that begin an item of this sort.
    fn place(self) -> Place
        ensures { result ≡ place_of self }
    {
        match self {
            Sort::Formula => Place::Formula,
            Sort::Effect => Place::Effect,
        }
    }
}

impl Item {
    // Whether a word may begin this item, and why not.
    fn admit(self, word: u32, facts: u32) -> Result<(), Cause>
        ensures { result ≡ admitted facts self word }
    {
        if row_of(word).place != self.sort.place() {
            return Err(Cause::Kind);
        }
        if !argument_fits(word, facts) {
            return Err(Cause::Argument);
        }
        if self.depth > 16 {
            return Err(Cause::Depth);
        }
        Ok(())
    }
}

// One formula or effect.
#[cycle(follow_members_one)]
fn one<'a>(words: &'a [u32], item: Item, facts: u32) -> Result<&'a [u32], Stop>
    ensures reads { Reads facts (item ∷ []) words.now result }
    ensures shorter { IfOk result (λ rest. length rest.now < length words.now) }
{
    let [word, rest @ ..] = words else {
        return Err(Stop {
            cause: Cause::WordsEnd,
            left: 0,
        });
    };
    // By match: by map_err and ? the rest goes through one more Result, and reading takes up to twice the time.
    match item.admit(*word, facts) {
        Ok(()) => follow(rest, *word, item.depth + 1, facts),
        Err(cause) => Err(Stop {
            cause,
            left: words.len(),
        }),
    }
}

// What follows a word, by a match: the table's rows hold data, and a function there would be a bare pointer.
#[cycle(follow_members_one)]
pub(crate) fn follow<'a>(
    words: &'a [u32],
    word: u32,
    depth: u32,
    facts: u32,
) -> Result<&'a [u32], Stop>
    ensures reads { Reads facts (owes word depth) words.now result }
{
    let formula = Item {
        sort: Sort::Formula,
        depth,
    };
    let effect = Item {
        sort: Sort::Effect,
        depth,
    };
    let count = argument_of(word);
    match row_of(word).follows {
        Follows::Nothing => Ok(words),
        Follows::Formula => one(words, formula, facts),
        Follows::Formulas => members(words, formula, count, facts),
        Follows::Effects => members(words, effect, count, facts),
        Follows::Guarded => one(one(words, formula, facts)?, effect, facts),
    }
}

// A run of members.
#[cycle(follow_members_one)]
fn members<'a>(words: &'a [u32], item: Item, count: u32, facts: u32) -> Result<&'a [u32], Stop>
    ensures reads { Reads facts (replicate count item) words.now result }
{
    let mut rest = words;
    for _done in 0..count {
        rest = one(rest, item, facts)?;
    }
    Ok(rest)
}
