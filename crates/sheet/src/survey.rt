// The whole run of words: the counts of the sheet that they are, or their first fault.
ghost use Rattle.std.specs.Prelude.{◌≡◌, ◌≤◌, [], length};
ghost use Rattle.sheet.specs.declared.sections.Section.TheVariants.{Starts};
ghost use Rattle.sheet.specs.Survey.{scan, survey, closed, admitted_first, from_first};

use crate::faults::{Cause, Part, SheetFault};
use crate::items::follow;
use crate::kinds::{Place, argument_fits, argument_of, row_of};
use crate::sections::Section;

// The most words that a sheet may have.
const MOST_WORDS: usize = 4096;

#[derive(Clone, Copy, Default)]
pub struct Counts {
    pub facts: u32,
    pub steps: u32,
    pub goals: u32,
}

// Whether a word may be a sheet's first, and why not.
fn admit_first(word: u32) -> Result<(), Cause>
    ensures { result ≡ admitted_first word }
{
    if row_of(word).place != Place::First {
        return Err(Cause::Kind);
    }
    if !argument_fits(word, 0) {
        return Err(Cause::Argument);
    }
    Ok(())
}

// What is behind END, in a sheet of `total` words.
fn close(rest: &[u32], section: Section, facts: u32, total: usize) -> Result<Counts, SheetFault>
    requires { length rest.now ≤ total }
    ensures { result ≡ closed total facts section rest.now }
{
    if !rest.is_empty() {
        return Err(Cause::AfterEnd.in_part(Part::Head).at(total - rest.len()));
    }
    Ok(Counts {
        facts,
        steps: section.next_step(),
        goals: section.next_goal(),
    })
}

// The words behind the first. That `total` is no less is asked: a type of both would be made anew at each word.
fn parts(words: &[u32], facts: u32, total: usize) -> Result<Counts, SheetFault>
    requires { length words.now ≤ total }
    ensures { result ≡ scan total facts (Starts 0) [] words.now }
{
    let mut section = Section::Starts { floor: 0 };
    let mut rest = words;
    while let [word, tail @ ..] = rest {
        let place = total - rest.len();
        let Some(next) = section
            .entry(*word, facts)
            .map_err(|refusal| refusal.at(place))?
        else {
            return close(tail, section, facts, total);
        };
        section = next;
        rest = follow(tail, *word, 1, facts).map_err(|stop| stop.fault(total, section.part()))?;
    }
    Err(Cause::WordsEnd.in_part(Part::Head).at(total))
}

fn from_first(words: &[u32]) -> Result<Counts, SheetFault>
    ensures { result ≡ from_first (length words.now) words.now }
{
    let [word, rest @ ..] = words else {
        return Err(Cause::WordsEnd.in_part(Part::Head).at(0));
    };
    admit_first(*word).map_err(|cause| cause.in_part(Part::Head).at(0))?;
    parts(rest, argument_of(*word), words.len())
}

pub(crate) fn survey_of(words: &[u32]) -> Result<Counts, SheetFault>
    ensures { result ≡ survey words.now }
{
    if words.len() > MOST_WORDS {
        return Err(Cause::TooManyWords.in_part(Part::Head).at(MOST_WORDS));
    }
    from_first(words)
}
