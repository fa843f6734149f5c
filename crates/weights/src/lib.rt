// Kinds of weight: what each gives, the laws that it keeps, and the four kinds that have names.
#![tactic(auto)]

mod counting;
mod figure;
mod grade;
mod kind;
mod minutes;
mod named;
mod reach;

pub use counting::{Counting, Longest, Sum};
pub use figure::Figure;
pub use grade::{Grade, HighestGrade};
pub use kind::WeightKind;
pub use minutes::Minutes;
pub use named::{NamedKind, UnknownKind};
pub use reach::{Reach, Reached};
