// The truth of a formula, read from its words.
ghost use Rattle.std.specs.Prelude.{◌≡◌, ℕ, List};
ghost use Rattle.sheet.specs.Trees.{Formula, Formulas};
ghost use Rattle.execution.specs.State.{holds};
ghost use Rattle.execution.specs.Truth.{truth as true_in, all_true, any_true};
ghost use Rattle.execution.specs.Reading.{BeginsFormula, BeginsFormulas, FormulaFirst, FormulasFirst};

use crate::reads::Read;
use crate::states::State;
use sheet::Kind;

// Whether all and whether any of some formulas are true.
#[derive(Clone, Copy)]
struct Tally {
    all: bool,
    any: bool,
}

// That the words begin with a formula is asked, and not a type: it would be written out anew at each call.
#[cycle(members_truth)]
pub(crate) fn truth<'a>(words: &'a [u32], state: State) -> Read<'a, bool>
    requires { BeginsFormula words.now }
    ensures { (f : Formula) (tail : List ℕ) → FormulaFirst words.now f tail
        → (result.value ≡ true_in (holds state) f) × (result.rest.now ≡ tail) }
{
    let [word, rest @ ..] = words else {
        unreachable!()
    };
    match sheet::kind_of(*word) {
        Kind::Never => Read { value: false, rest },
        Kind::Always => Read { value: true, rest },
        Kind::Fact => Read {
            value: state.holds(sheet::argument_of(*word)),
            rest,
        },
        Kind::Not => {
            let inner = truth(rest, state);
            Read {
                value: !inner.value,
                rest: inner.rest,
            }
        }
        Kind::All => {
            let inner = members(rest, sheet::argument_of(*word), state);
            Read {
                value: inner.value.all,
                rest: inner.rest,
            }
        }
        Kind::Any => {
            let inner = members(rest, sheet::argument_of(*word), state);
            Read {
                value: inner.value.any,
                rest: inner.rest,
            }
        }
        _ => unreachable!(),
    }
}

// Reads every member, also where an earlier one decides, since the rest begins behind the last.
#[cycle(members_truth)]
fn members<'a>(words: &'a [u32], count: u32, state: State) -> Read<'a, Tally>
    requires { BeginsFormulas words.now count }
    ensures { (fs : Formulas) (tail : List ℕ) → FormulasFirst words.now count fs tail
        → (result.value.all ≡ all_true (holds state) fs) × (result.value.any ≡ any_true (holds state) fs)
        × (result.rest.now ≡ tail) }
{
    let mut tally = Tally {
        all: true,
        any: false,
    };
    let mut rest = words;
    for _done in 0..count {
        let next = truth(rest, state);
        tally.all &= next.value;
        tally.any |= next.value;
        rest = next.rest;
    }
    Read { value: tally, rest }
}
