//! A service that threads share under one lock.
#![tactic(auto)]

mod bare;
mod booked;
mod guarded;
mod intake;
mod judging;
mod recorded;
mod seat;
mod shareable;
mod shared;
mod turning;

pub use booked::{BookedService, Finished};
pub use cache_spaces::Owed;
pub use guarded::Books;
pub use intake::{Intake, IntakeError};
pub use seat::{Seat, Seating};
pub use shareable::Shareable;
pub use shared::SharedService;
pub use turning::Turn;
