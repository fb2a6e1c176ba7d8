//! Timers: one array in rising order of their times.
mod array;
mod entries;
mod events;
pub mod laws;
mod places;
mod row;
mod wheel;

pub use array::{Due, Timer, TimerNode};
pub use events::{TimerEvent, TimerEventsIter};
pub use wheel::{ReschedulingResult, ScheduleError, StaleTimer, TimerWheel};
