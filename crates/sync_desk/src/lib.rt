//! What the lock of a shared cache guards: its state, the source of its random words, and which callers wait for which turn.
#![tactic(auto)]

mod calls;
mod desk;
pub mod env;
mod naming;
mod sharding;
pub mod slots;
mod turns;
mod wholes;
mod writes;

pub use desk::Desk;
pub use env::{Dial, DialEnv, Env, Fork, MachineEnv, MachineWatch, Watch};
pub use slots::{Asked, Ending, SharedName, Slots, WaitingName, copy_made};
pub use turns::{ComputeStart, Start};
