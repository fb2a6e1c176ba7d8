//! The judgement of what a step does to the values held: which it may tell, with which causes, and what is held then.
mod after;
mod deed;
mod notes;
mod times;
mod weights;

pub use after::do_deed;
pub use deed::{Covering, Deed};
pub use times::{is_live, live};
pub use weights::{PARTS, is_over, limit_of, part_count};
