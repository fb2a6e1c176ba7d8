//! Where the record of a turn goes.
mod bare;
mod kept;
mod spare;
mod tape;

pub use bare::Bare;
pub use kept::Kept;
pub use spare::{Spare, new_spares};
pub use tape::Tape;
