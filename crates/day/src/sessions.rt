// The calls of a day as they arrive: a job, the bytes of a cut word, and the place of the next word.
ghost use Rattle.std.specs.Prelude.{◌≡◌, ℕ, List, [], ◌++◌, length, drop, IfOk, if◌then◌else◌, string_bytes, MatchResult, nat_eq};
ghost use Rattle.job.specs.Records.{ledger};
ghost use Rattle.sheet.specs.Reading.{tree};
ghost use Rattle.sheet.specs.Trees.{Tree};
ghost use Rattle.day.specs.Sessions.{TurnedSession, first_place, Fed, WholeDay, GoesOn};
ghost use Rattle.day.specs.Text.{stop_text};
ghost use Rattle.day.specs.Turning.{Unfinished};

use crate::endings::Stop;
use crate::turns::{Turn, take_turn};
use job::Job;
use sheet::Sheet;
use std::alloc::{AllocError, Global};

#[derive(Drop)]
pub struct Session {
    job: Job,
    pending: Vec<u8>,
    place: u64,
}

impl Session {
    // A session of a job newly opened; the first call comes behind the number of sheet words and these.
    pub fn open(heap: Global, sheet: &Sheet<'_>) -> Session
        ensures { Fed (tree sheet.now) (first_place (tree sheet.now)) [] [] result }
    {
        let words = sheet.words();
        Session {
            job: Job::open(sheet),
            pending: Vec::new(heap),
            place: words.len() as u64 + 1,
        }
    }

    // Answers the whole calls among the bytes that are there; the sheet is given anew, as to each call of a job.
    pub fn feed(&mut self, sheet: &Sheet<'_>, bytes: &[u8]) -> Result<Turn, AllocError>
        ensures turned { MatchResult result
            (λ turn. TurnedSession (tree sheet.now) self.old bytes.now turn self.new)
            (λ _. Unfinished (tree sheet.now) (ledger self.old.job) (self.old.pending.items ++ bytes.now) (ledger self.new.job)) }
        ensures goes_on { (start : ℕ) (given told : List ℕ) → Fed (tree sheet.now) start given told self.old
            → IfOk result (λ turn. GoesOn (tree sheet.now) start (given ++ bytes.now)
            (told ++ string_bytes turn.text) turn.stopped self.new) }
    {
        let heap = *self.pending.allocator();
        self.pending.extend_from_slice(bytes)?;
        let pending = self.pending.as_slice();
        let turn = take_turn(heap, sheet, &mut self.job, self.place, pending)?;
        self.pending.drain(..4 * turn.used);
        self.place = self.place.saturating_add(turn.used as u64);
        Ok(turn)
    }

    // What is told when no more bytes come: bytes that are left are a cut word.
    pub fn end(&self) -> Result<String, AllocError>
        ensures told { IfOk result (λ text. string_bytes text
            ≡ (if nat_eq (length self.now.pending.items) 0 then [] else stop_text self.now.place)) }
        ensures ended { (t : Tree) (start : ℕ) (given told : List ℕ) → Fed t start given told self.now
            → IfOk result (λ text. WholeDay t start given (told ++ string_bytes text)) }
    {
        let heap = *self.pending.allocator();
        if self.pending.is_empty() {
            return Ok(String::new(heap));
        }
        Stop(self.place).to_string(heap)
    }
}
