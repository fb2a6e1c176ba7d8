//! Bytes of a connection to lines, lines to what they say, and the numbers that they are written with.
#![tactic(auto)]

mod buffer;
mod numbers;
mod request;

pub use buffer::{Buffer, MAX_LINE, Next, next_in, without_return};
pub use numbers::{milliseconds, number};
pub use request::{Request, read_line};
