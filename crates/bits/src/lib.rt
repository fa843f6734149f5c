// Sets of numbers below 64.
#![tactic(auto)]

mod sets;

pub use sets::Set;
