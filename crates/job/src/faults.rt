// Why a call is refused.
ghost use Rattle.std.specs.Prelude.{◌≡◌, Some};
ghost use Rattle.job.specs.Numbers.{number, step_number, hindrance};
ghost use Rattle.job.specs.Text.{fault_text};
ghost use Rattle.job.specs.declared.faults.DoFault.TheVariants.{Step};

use execution::ExecutionFault;
use std::error::Error;
use std::fmt;

// Why a step may not be done in its turn: execution's causes among these, in the order of the tests.
#[derive(Clone, Copy, Debug, PartialEq, Eq)]
pub enum StepFault {
    NoSuchStep,
    Struck,
    ConditionFalse,
    SetAndCleared,
}

// A step's fault, or the one that only a call to do has; a route has another one, so the two are no one type.
#[derive(Clone, Copy, Debug, PartialEq, Eq)]
pub enum DoFault {
    Step(StepFault),
    TrailFull,
}

impl From<ExecutionFault> for StepFault {
    ghost from_gives = { λ f r. r ≡ hindrance f };

    fn from(fault: ExecutionFault) -> StepFault {
        match fault {
            ExecutionFault::NoSuchStep => StepFault::NoSuchStep,
            ExecutionFault::ConditionFalse => StepFault::ConditionFalse,
            ExecutionFault::SetAndCleared => StepFault::SetAndCleared,
        }
    }
}

impl From<StepFault> for DoFault {
    ghost from_gives = { λ f r. r ≡ Step f };

    fn from(fault: StepFault) -> DoFault {
        DoFault::Step(fault)
    }
}

impl From<StepFault> for u8 {
    ghost from_gives = { λ f n. n ≡ step_number f };

    fn from(fault: StepFault) -> u8 {
        match fault {
            StepFault::NoSuchStep => 8,
            StepFault::Struck => 10,
            StepFault::ConditionFalse => 11,
            StepFault::SetAndCleared => 12,
        }
    }
}

impl From<DoFault> for u8 {
    ghost from_gives = { λ f n. n ≡ number f };

    fn from(fault: DoFault) -> u8 {
        match fault {
            DoFault::Step(fault) => fault.into(),
            DoFault::TrailFull => 13,
        }
    }
}

impl fmt::Display for DoFault {
    ghost output = { λ fault. Some (fault_text fault) };

    fn fmt<W: fmt::Write>(&self, f: &mut fmt::Formatter<W>) -> fmt::Result {
        let number = u8::from(*self);
        write!(f, "refused {number}")
    }
}

impl Error for DoFault {}
