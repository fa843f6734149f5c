// Truth of formulas, active effects and execution of steps.
#![tactic(auto)]

mod active;
mod executing;
mod reads;
mod states;
mod successor;
mod truth;

pub use executing::{ExecutionFault, execute, satisfied, start};
pub use states::State;
