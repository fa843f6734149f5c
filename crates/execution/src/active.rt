// The active effects of an effect, read from its words.
ghost use Rattle.std.specs.Prelude.{◌≡◌, ℕ, ◌<◌, false, List, nat_eq, if◌then◌else◌};
ghost use Rattle.sheet.specs.Trees.{Effect, Effects};
ghost use Rattle.execution.specs.State.{holds};
ghost use Rattle.execution.specs.Active.{active, active_any, sets, clears, true_literal, false_literal};
ghost use Rattle.execution.specs.Gathered.{set_in, cleared_in, Added};
ghost use Rattle.execution.specs.Reading.{BeginsEffect, BeginsEffects, EffectFirst, EffectsFirst};

use crate::reads::Read;
use crate::states::State;
use crate::truth::truth;
use bits::Set;
use sheet::Kind;

// The facts that active effects set, and those that they clear.
#[derive(Clone, Copy)]
pub(crate) struct Active {
    pub(crate) set: Set,
    pub(crate) cleared: Set,
}

impl Active {
    fn none() -> Active
        ensures { (k : ℕ) → (set_in result k ≡ false) × (cleared_in result k ≡ false) }
    {
        Active {
            set: Set::none(),
            cleared: Set::none(),
        }
    }

    // Adds the literal that a fact has this value, where it is on.
    fn with(self, fact: u32, value: bool, on: bool) -> Active
        ensures { fact < 64
            → Added self on (λ l. nat_eq l (if value then true_literal fact else false_literal fact)) result }
    {
        match (on, value) {
            (false, _) => self,
            (true, true) => Active {
                set: self.set.put(fact, true),
                ..self
            },
            (true, false) => Active {
                cleared: self.cleared.put(fact, true),
                ..self
            },
        }
    }
}

// Every condition is read in the state before the step; that words begin with an effect is asked, as for truth.
pub(crate) fn active_effects(words: &[u32], before: State) -> Active
    requires { BeginsEffect words.now }
    ensures { (e : Effect) (tail : List ℕ) → EffectFirst words.now e tail
        → (set_in result ≡ sets (holds before) e) × (cleared_in result ≡ clears (holds before) e) }
{
    gather(words, before, true, Active::none()).value
}

// Adds an effect's active effects, none where a condition around it is false; its words are read all the same.
#[cycle(gather_members)]
fn gather<'a>(words: &'a [u32], before: State, on: bool, so_far: Active) -> Read<'a, Active>
    requires { BeginsEffect words.now }
    ensures { (e : Effect) (tail : List ℕ) → EffectFirst words.now e tail
        → Added so_far on (active (holds before) e) result.value × (result.rest.now ≡ tail) }
{
    let [word, rest @ ..] = words else {
        unreachable!()
    };
    match sheet::kind_of(*word) {
        Kind::Set => Read {
            value: so_far.with(sheet::argument_of(*word), true, on),
            rest,
        },
        Kind::Clear => Read {
            value: so_far.with(sheet::argument_of(*word), false, on),
            rest,
        },
        Kind::Group => members(rest, sheet::argument_of(*word), before, on, so_far),
        Kind::When => {
            let condition = truth(rest, before);
            gather(condition.rest, before, on && condition.value, so_far)
        }
        _ => unreachable!(),
    }
}

#[cycle(gather_members)]
fn members<'a>(
    words: &'a [u32],
    count: u32,
    before: State,
    on: bool,
    so_far: Active,
) -> Read<'a, Active>
    requires { BeginsEffects words.now count }
    ensures { (es : Effects) (tail : List ℕ) → EffectsFirst words.now count es tail
        → Added so_far on (active_any (holds before) es) result.value × (result.rest.now ≡ tail) }
{
    let mut gathered = Read {
        value: so_far,
        rest: words,
    };
    for _done in 0..count {
        gathered = gather(gathered.rest, before, on, gathered.value);
    }
    gathered
}
