// The calls that a day may make of a job, and what each is answered.
ghost use Rattle.std.specs.Prelude.{Some};
ghost use Rattle.job.specs.Text.{call_text};

use crate::faults::DoFault;
use std::fmt;

// The number is the step's, any number at all.
#[derive(Clone, Copy, Debug, PartialEq, Eq)]
pub enum Call {
    Do(u32),
    Strike(u32),
    Allow(u32),
}

// Done, or why it is refused.
pub type Answer = Result<(), DoFault>;

impl fmt::Display for Call {
    ghost output = { λ c. Some (call_text c) };

    fn fmt<W: fmt::Write>(&self, f: &mut fmt::Formatter<W>) -> fmt::Result {
        match self {
            Call::Do(step) => write!(f, "do {step}"),
            Call::Strike(step) => write!(f, "strike {step}"),
            Call::Allow(step) => write!(f, "allow {step}"),
        }
    }
}
