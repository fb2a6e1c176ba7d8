//! The source of moments and random words of a shared cache.
mod dial;
mod env;
mod fork;
mod machine;

pub use dial::{Dial, DialEnv};
pub use env::{Env, Watch};
pub use fork::Fork;
pub use machine::{MachineEnv, MachineWatch};
