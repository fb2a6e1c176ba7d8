//! Queues: of indices, and of elements with stable names; and timers.
#![tactic(auto)]

mod deque;
mod index_queue;
mod places;
pub mod timers;

pub use deque::{
    Deque, PushError, ReserveError, Stale, names_stand, places_of, stale_names_stay_stale,
    walks_give_each_once,
};
pub use index_queue::{IndexQueue, indices_are_apart};
pub use places::{Cursor, Node};
pub use timers::{
    Due, ReschedulingResult, ScheduleError, StaleTimer, Timer, TimerEvent, TimerEventsIter,
    TimerNode, TimerWheel,
};
