// A state of a terminal: which facts are true.
ghost use Rattle.std.specs.Prelude.{◌≡◌, ℕ, ◌<◌, ◌≤◌, true, false};
ghost use Rattle.bits.specs.Bits.{put};
ghost use Rattle.execution.specs.State.{holds};

use bits::Set;

#[derive(Clone, Copy)]
pub struct State {
    pub(crate) bits: Set,
}

impl State {
    // No fact is true.
    pub(crate) fn none() -> State
        ensures { (k : ℕ) → holds result k ≡ false }
    {
        State { bits: Set::none() }
    }

    pub(crate) fn holds(self, fact: u32) -> bool
        ensures { result ≡ holds self fact }
    {
        self.bits.has(fact)
    }

    pub(crate) fn with(self, fact: u32) -> State
        ensures within { fact < 64 → holds result ≡ put (holds self) fact true }
        ensures beyond { 64 ≤ fact → result ≡ self }
    {
        State {
            bits: self.bits.put(fact, true),
        }
    }
}
