// Sheets: runs of words that describe the facts, steps and goals of one model of terminal.
#![tactic(auto)]

mod faults;
mod finding;
mod items;
mod kinds;
mod reading;
mod sections;
mod survey;
mod view;

pub use faults::{Cause, Part, SheetFault};
pub use finding::Work;
pub use kinds::{Kind, argument_of, kind_of};
pub use view::Sheet;
