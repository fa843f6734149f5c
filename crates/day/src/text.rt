// The lines that answer the calls of a day.
ghost use Rattle.std.specs.Prelude.{◌≡◌, IfOk, Some, string_bytes};
ghost use Rattle.day.specs.Text.{line_text, lines_text};

use job::{Answer, Call};
use std::alloc::{AllocError, Global};
use std::fmt;

// The line that answers a call.
#[derive(Clone, Copy, Debug, PartialEq, Eq)]
pub struct Line {
    pub call: Call,
    pub answer: Answer,
}

impl fmt::Display for Line {
    ghost output = { λ l. Some (line_text l.call l.answer) };

    // By the fmt of its parts, since as pieces of a write! each would be a call, and a refusal take half as long again.
    fn fmt<W: fmt::Write>(&self, f: &mut fmt::Formatter<W>) -> fmt::Result {
        self.call.fmt(f)?;
        match self.answer {
            Ok(()) => f.write_str(": done\n"),
            Err(fault) => {
                f.write_str(": ")?;
                fault.fmt(f)?;
                f.write_str("\n")
            }
        }
    }
}

// The lines of the answers to the calls, in order.
pub fn lines(heap: Global, calls: &[Call], answers: &[Answer]) -> Result<String, AllocError>
    ensures { IfOk result (λ s. string_bytes s ≡ lines_text calls.now answers.now) }
{
    let mut text = String::new(heap);
    for (&call, &answer) in calls.iter().zip(answers) {
        let line = Line { call, answer };
        write!(text, "{line}")?;
    }
    Ok(text)
}
