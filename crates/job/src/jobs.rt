// A job: one repair at a stall, from its opening on.
use crate::strikes::Strikes;
use crate::trail::Trail;
use execution::State;

// Contracts name its ledger and the sheet's tree, so that definitions hold of any record that gives the two.
#[derive(Clone, Copy)]
pub struct Job {
    pub(crate) state: State,
    pub(crate) strikes: Strikes,
    pub(crate) trail: Trail,
}
