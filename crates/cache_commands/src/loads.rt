//! The loads of a namespace that are under way, which connections wait for them, and whether a connection waits.
mod load;
mod loads;
mod numbered;
mod standing;

pub use load::Load;
pub use loads::Loads;
pub use standing::{Standing, is_holding, is_waiting};
