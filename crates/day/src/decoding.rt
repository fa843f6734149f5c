// Words as the calls that they ask for.
ghost use Rattle.std.specs.Prelude.{◌≡◌, Bool, List, IfOk, MatchOption};
ghost use Rattle.day.specs.Calls.{fits, Decoded};
ghost use Rattle.job.specs.declared.calls.Call.{Call as JobCall};

use job::Call;
use std::alloc::{AllocError, Global};

// The calls in order, and whether a word that fits nothing ended them; they count either way, so it is no Option.
#[derive(Drop)]
pub struct Batch {
    pub calls: Vec<Call>,
    pub stopped: bool,
}

pub(crate) fn call_of(word: u32) -> Option<Call>
    ensures { MatchOption result ((c : JobCall) → fits word c → ⊥) (λ c. fits word c) }
{
    let step = word % 0x1000_0000;
    match word >> 28 {
        1 => Some(Call::Do(step)),
        2 => Some(Call::Strike(step)),
        3 => Some(Call::Allow(step)),
        _ => None,
    }
}

pub fn decode(heap: Global, words: &[u32]) -> Result<Batch, AllocError>
    ensures asked { IfOk result (λ b. Decoded words.now b.calls.items b.stopped) }
    ensures alone { IfOk result (λ b. (cs : List JobCall) (s : Bool) → Decoded words.now cs s → (cs ≡ b.calls.items) × (s ≡ b.stopped)) }
{
    let mut calls = Vec::new(heap);
    for word in words {
        let Some(call) = call_of(*word) else {
            return Ok(Batch {
                calls,
                stopped: true,
            });
        };
        calls.push(call)?;
    }
    Ok(Batch {
        calls,
        stopped: false,
    })
}
