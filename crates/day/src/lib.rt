// A day at one stall: its input as calls, and the text of its answers.
#![tactic(auto)]

mod bytes;
mod decoding;
mod endings;
mod opening;
mod sessions;
mod text;
mod turns;

pub use bytes::words;
pub use decoding::{Batch, decode};
pub use endings::{Ending, Stop};
pub use opening::{Opening, open, opening_size};
pub use sessions::Session;
pub use text::{Line, lines};
pub use turns::Turn;
