// Reading a sheet, and what it tells.
ghost use Rattle.std.specs.Prelude.{◌≡◌, ◌≤◌, length, MatchResult};
ghost use Rattle.sheet.specs.Acceptance.{Spells};
ghost use Rattle.sheet.specs.Decoding.{bare};
ghost use Rattle.sheet.specs.Reading.{tree, Accepted, Refused};

use crate::faults::SheetFault;
use crate::survey::{Counts, survey_of};
use crate::view::Sheet;

// A sheet of no facts, steps and goals.
static EMPTY: [u32; 2] = [0xC000_0000, 0xE000_0000];

impl<'a> Sheet<'a> {
    // The sheet to begin with, which an accepted reading replaces.
    pub fn empty() -> Sheet<'a>
        ensures { tree result ≡ bare }
    {
        Sheet {
            words: &EMPTY,
            counts: Counts::default(),
        }
    }

    // Reads words as a sheet in the place of this one, or tells their first fault and leaves it.
    pub fn read(&mut self, words: &'a [u32]) -> Result<(), SheetFault>
        ensures { MatchResult result (λ _. Accepted words.entry self.new) (λ fault. Refused words.now fault self.old self.new) }
    {
        let counts = survey_of(words)?;
        *self = Sheet { words, counts };
        Ok(())
    }

    pub fn facts(&self) -> u32
        ensures counted { result ≡ (tree self.now).facts }
        ensures few { result ≤ 64 }
    {
        self.counts.facts
    }

    pub fn steps(&self) -> u32
        ensures counted { result ≡ length (tree self.now).steps }
        ensures few { result ≤ 64 }
    {
        self.counts.steps
    }

    pub fn goals(&self) -> u32
        ensures counted { result ≡ length (tree self.now).goals }
        ensures few { result ≤ 8 }
    {
        self.counts.goals
    }

    // The words that the sheet views.
    pub fn words(&self) -> &'a [u32]
        ensures viewed { result ≡ self.now.words }
        ensures spelled { Spells result.now (tree self.now) }
    {
        self.words
    }
}
