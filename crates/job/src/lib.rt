// A repair job at one stall: the calls that change it, their refusals and the ledger that they keep.
#![tactic(auto)]

mod calls;
mod checking;
mod doing;
mod faults;
mod jobs;
mod routes;
mod running;
mod strikes;
mod trail;

pub use calls::{Answer, Call};
pub use faults::{DoFault, StepFault};
pub use jobs::Job;
pub use routes::{CheckFault, RouteFault};
